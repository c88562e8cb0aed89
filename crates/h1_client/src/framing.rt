//! Which responses are final, and how the body of one ends (RFC 9110, sections 7.8 and 15.2; RFC
//! 9112, section 6.3).
ghost use Rattle.std.specs.Prelude.{◌≡◌, codes};
ghost use Rattle.h1_body.specs.Framing.{framing};
ghost use Rattle.h1_body.specs.Reader.{is_until_close};
ghost use Rattle.h1_fields.specs.Lines.{values_of};
ghost use Rattle.h1_client.specs.Responses.{framing_to, has_bad_length, is_single};
ghost use Rattle.h1_client.specs.Written.{FitsRequest};

use h1_body::{Framing, framing_of, is_head_only, response_framing};
use h1_fields::{ContentLength, Fields};
use h1_head::{RequestHeader, ResponseHeader, is_interim, is_upgrade_req};

/// How the body of a response to this request ends.
#[inline(always)]
pub(crate) fn framing_to(request: &RequestHeader, said: &ResponseHeader) -> Framing
    ensures { result ≡ framing_to request.now said.now }
{
    if is_interim(said.status()) {
        return Framing::Counted(0);
    }
    // The lines of the request are looked through for that status alone.
    let upgrade = said.status() == 101 && is_upgrade_req(request);
    response_framing(is_head_only(request.method()), upgrade, said)
}

pub(crate) fn is_until_close(framing: Framing) -> bool
    ensures { result ≡ is_until_close framing }
{
    match framing {
        Framing::Counted(_) => false,
        Framing::Chunked => false,
        Framing::UntilClose => true,
    }
}

/// How the body of a request ends.
pub(crate) fn request_framing(request: &RequestHeader) -> Framing
    ensures is { result ≡ framing request.now }
    ensures fits { FitsRequest result }
{
    let framing = framing_of(request);
    match framing {
        Framing::Counted(length) => {
            // A length fits its type.
            let _length = length;
            framing
        }
        Framing::Chunked => framing,
        Framing::UntilClose => unreachable!(),
    }
}

/// Whether the length of a response is stated wrongly, and that isn't tolerated.
pub(crate) fn has_bad_length(tolerant: bool, fields: &Fields) -> bool
    ensures { result ≡ has_bad_length tolerant fields.now }
{
    match fields.content_length() {
        ContentLength::Absent => false,
        ContentLength::Number(_) => false,
        ContentLength::Bad => !(tolerant && is_single(fields)),
    }
}

/// Whether Content-Length has one value, and no list in it.
fn is_single(fields: &Fields) -> bool
    ensures { result ≡ is_single (values_of (codes "Content-Length") fields.now) }
{
    let mut values = fields.get_all(b"Content-Length");
    match values.next() {
        None => false,
        Some(value) => values.next().is_none() && !value.contains(&b','),
    }
}
