//! One request for a path, with a body or without one.
ghost use Rattle.std.specs.Prelude.{◌≡◌, Some, IfOk, IfErr};
ghost use Rattle.std.specs.Option.{option_copied};
ghost use Rattle.h1_asking.specs.Fetching.{Fetches, FetchFault};
ghost use Rattle.h1_fetch.specs.Request.{request_for};

use bytes::Bytes;
use h1_asking::{Fault, Fetched, fetch};
use h1_client::{Connector, Peer};
use h1_error::Error;
use h1_head::RequestHeader;
use h1_link::{Clock, Dialer};
use std::alloc::Global;
use std::sync::Wait;

/// Asks for the path once.
pub(crate) fn ask_for<R: Wait, D: Dialer, T: Clock>(
    rt: &R,
    alloc: Global,
    connector: &Connector<D::Link>,
    dialer: &mut D,
    clock: &mut T,
    peer: &Peer,
    path: &[u8],
    body: Option<&[u8]>,
) -> Result<Fetched, Fault>
    ensures ok { IfOk result (Fetches D.Link.state D.state peer.now
        (request_for path.now (option_copied body.entry)) (option_copied body.entry) dialer.old
        dialer.new) }
    ensures err { IfErr result (FetchFault D.Link.state D.state peer.now dialer.old dialer.new) }
{
    let Ok(head) = request_for(alloc, path, body) else {
        return Err(Fault::Memory);
    };
    let Ok(body) = body_for(alloc, body) else {
        return Err(Fault::Memory);
    };
    fetch(rt, connector, dialer, clock, peer, head, body)
}

/// The head of a GET, or of a POST where a body is sent (RFC 9110, sections 9.3.1 and 9.3.3).
fn request_for(alloc: Global, path: &[u8], body: Option<&[u8]>) -> Result<RequestHeader, Error>
    ensures { IfOk result (λ head. head ≡ request_for path.now (option_copied body.entry)) }
{
    match body {
        Some(body) => post_of(alloc, path, body),
        None => {
            let mut head = RequestHeader::build(alloc, b"GET", path, Some(1))?;
            head.append_header(b"Host", b"127.0.0.1")?;
            Ok(head)
        }
    }
}

/// The head of a POST of this body.
fn post_of(alloc: Global, path: &[u8], body: &[u8]) -> Result<RequestHeader, Error>
    ensures { IfOk result (λ head. head ≡ request_for path.now (Some body.now)) }
{
    let mut head = RequestHeader::build(alloc, b"POST", path, Some(2))?;
    head.append_header(b"Host", b"127.0.0.1")?;
    let length = (body.len() as u64).to_string(alloc)?;
    head.append_header(b"Content-Length", length.as_bytes())?;
    Ok(head)
}

/// The body of the request, if it has one.
fn body_for(alloc: Global, body: Option<&[u8]>) -> Result<Option<Bytes>, Error>
    ensures { IfOk result (λ bytes. bytes ≡ option_copied body.entry) }
{
    match body {
        Some(body) => Ok(Some(Bytes::copy_from_slice(alloc, body)?)),
        None => Ok(None),
    }
}
