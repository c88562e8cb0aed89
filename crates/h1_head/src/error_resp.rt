//! Replies that tell an error (RFC 9110, section 15).
ghost use Rattle.std.specs.Prelude.{◌≡◌, IfOk, IsOkUnless};
ghost use Rattle.h1_error.specs.Memory.{no_memory};
ghost use Rattle.h1_head.specs.Faults.{RefusedFor, status_fault};
ghost use Rattle.h1_head.specs.ErrorReply.{error_response};

use crate::ResponseHeader;
use h1_error::Error;
use std::alloc::Global;

/// The name of the server in replies that tell an error.
pub const SERVER_NAME: &[u8; 7] = b"Pingora";

/// The head of a reply without a body that tells an error, and that no cache keeps. Its date is that
/// of an example; a session that writes it puts the date of the moment in its place.
#[tactic(auto, unfolding(httparse::specs::Grammar::is_token_byte))]
pub fn gen_error_response(alloc: Global, code: u16) -> Result<ResponseHeader, Error>
    ensures ok { IfOk result (λ resp. resp ≡ error_response code) }
    ensures refused { RefusedFor (status_fault code) result }
{
    let mut resp = ResponseHeader::build(alloc, code, Some(4))?;
    resp.append_header(b"Server", SERVER_NAME)?;
    resp.append_header(b"Date", b"Sun, 06 Nov 1994 08:49:37 GMT")?;
    resp.append_header(b"Content-Length", b"0")?;
    resp.append_header(b"Cache-Control", b"private, no-store")?;
    Ok(resp)
}

/// The head of a reply 502 (Bad Gateway).
pub fn http_502_response(alloc: Global) -> Result<ResponseHeader, Error>
    ensures ok { IfOk result (λ resp. resp ≡ error_response 502) }
    ensures err { IsOkUnless result no_memory }
{
    gen_error_response(alloc, 502)
}

/// The head of a reply 400 (Bad Request).
pub fn http_400_response(alloc: Global) -> Result<ResponseHeader, Error>
    ensures ok { IfOk result (λ resp. resp ≡ error_response 400) }
    ensures err { IsOkUnless result no_memory }
{
    gen_error_response(alloc, 400)
}
