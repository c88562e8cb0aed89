//! Whether a link may serve the next request (RFC 9112, section 9.3).
ghost use Rattle.std.specs.Prelude.{◌≡◌};
ghost use Rattle.h1_head.specs.Versions.{is_http_10};
ghost use Rattle.h1_body.specs.Reader.{is_until_close};
ghost use Rattle.h1_client.specs.Keeping.{keep_by, keep_of};
ghost use Rattle.h1_client.specs.Responses.{final_of, framing_to};
ghost use Rattle.h1_client.specs.Reusing.{is_on};

use crate::framing::{framing_to, is_until_close};
use crate::idle_time::stated_timeout;
use crate::response_place::ResponsePlace;
use h1_fields::ContentLength;
use h1_head::{RequestHeader, ResponseHeader, is_interim};
use http::Version;

/// Whether the link may serve the next request.
#[derive(Clone, Copy, Debug, PartialEq, Eq)]
pub enum Keepalive {
    Off,
    /// It may, and the peer lets it stand idle for so many seconds, or doesn't say how long.
    On(Option<u64>),
}

impl Keepalive {
    pub fn is_on(self) -> bool
        ensures { result ≡ is_on self }
    {
        match self {
            Keepalive::Off => false,
            Keepalive::On(_) => true,
        }
    }
}

/// Whether the link may serve the next request behind this response, where bytes came behind it or
/// none did.
fn keep_by(request: &RequestHeader, said: &ResponseHeader, overread: bool) -> Keepalive
    ensures { result ≡ keep_by request.now said.now overread }
{
    if said.status() == 101 {
        return Keepalive::Off;
    }
    if ends_with_link(request, said) {
        return Keepalive::Off;
    }
    if overread {
        return Keepalive::Off;
    }
    if is_http_10(said.version()) && said.fields().has_transfer_encoding() {
        return Keepalive::Off;
    }
    if request.fields().lists_close() || said.fields().lists_close() {
        return Keepalive::Off;
    }
    if said.fields().lists_keep_alive() {
        return Keepalive::On(stated_timeout(said.fields()));
    }
    if said.version() == Version::HTTP_11 {
        return Keepalive::On(None);
    }
    Keepalive::Off
}

/// The same, and off until the final head is read.
pub(crate) fn keep_of(
    request: &Option<RequestHeader>,
    last: &ResponsePlace,
    overread: bool,
) -> Keepalive
    ensures { result ≡ keep_of request.now (final_of last.now) overread }
{
    let (Some(request), Some(last)) = (request, last.get()) else {
        return Keepalive::Off;
    };
    if is_interim(last.header.status()) {
        return Keepalive::Off;
    }
    keep_by(request, &last.header, overread)
}

/// Whether the body of this response ends where the link does.
#[inline(always)]
fn ends_with_link(request: &RequestHeader, said: &ResponseHeader) -> bool
    ensures { result ≡ is_until_close (framing_to request.now said.now) }
{
    // A length that is stated ends the body, unless the protocol changes.
    match said.fields().content_length() {
        ContentLength::Number(_) if said.status() != 101 => false,
        _ => is_until_close(framing_to(request, said)),
    }
}

fn is_http_10(version: Version) -> bool
    ensures { result ≡ is_http_10 version }
{
    version == Version::HTTP_10
}
