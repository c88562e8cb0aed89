//! Replies that state their length.
ghost use Rattle.std.specs.Prelude.{◌≡◌, ◌≤◌, IfOk, IfErr};
ghost use Rattle.h1_error.specs.Memory.{no_memory};
ghost use Rattle.h1_head.specs.Response.{new_response};
ghost use Rattle.h1_transcript.specs.Lawful.{IsLawful};
ghost use Rattle.h1_application.specs.Reply.{counted_reply, has_no_length, length_lines};

use h1_body::BodyBytes;
use h1_error::Error;
use h1_head::ResponseHeader;
use h1_transcript::Reply;
use std::alloc::Global;

/// The reply with this final status, 200 to 999, and this body, whose length one Content-Length line
/// states. A reply of 204 or 304 has no such line, and of its body nothing is sent (RFC 9110,
/// sections 15.3.5 and 15.4.5). The only error is being out of memory.
pub fn reply_of(alloc: Global, status: u16, body: &[u8]) -> Result<Reply, Error>
    requires { (200 ≤ status) × (status ≤ 999) }
    ensures ok { IfOk result (λ reply. reply ≡ counted_reply status body.now) }
    ensures lawful { IfOk result (λ reply. IsLawful reply.header) }
    ensures err { IfErr result (λ error. error ≡ no_memory) }
{
    let body = BodyBytes::from_slice(alloc, body)?;
    let header = header_of(alloc, status, body.len() as u64)?;
    Ok(Reply { header, body })
}

/// The header of a reply of this status whose body has this length.
fn header_of(alloc: Global, status: u16, length: u64) -> Result<ResponseHeader, Error>
    requires { (200 ≤ status) × (status ≤ 999) }
    ensures ok { IfOk result (λ header. header
        ≡ record (new_response status) { fields = length_lines status length }) }
    ensures lawful { IfOk result IsLawful }
    ensures err { IfErr result (λ error. error ≡ no_memory) }
{
    let mut header = ResponseHeader::build(alloc, status, Some(1))?;
    if has_no_length(status) {
        return Ok(header);
    }
    header.append_content_length(length)?;
    Ok(header)
}

/// Whether replies of this status state no length.
fn has_no_length(status: u16) -> bool
    ensures { result ≡ has_no_length status }
{
    status == 204 || status == 304
}
