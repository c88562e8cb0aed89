//! The question `GET /health`, whose answer is the status.
ghost use Rattle.std.specs.Prelude.{◌≡◌, IfOk, IfErr};
ghost use Rattle.h1_asking.specs.Fetching.{FetchFault};
ghost use Rattle.h1_health.specs.Health.{IsAnswered, health_request};

use h1_asking::{Fault, fetch};
use h1_client::{Connector, Peer};
use h1_error::Error;
use h1_head::RequestHeader;
use h1_link::{Clock, Dialer};
use std::alloc::Global;
use std::sync::Wait;

/// Asks for `/health`: whether the response has a status of success.
pub fn is_healthy<R: Wait, D: Dialer, T: Clock>(
    rt: &R,
    alloc: Global,
    connector: &Connector<D::Link>,
    dialer: &mut D,
    clock: &mut T,
    peer: &Peer,
) -> Result<bool, Fault>
    ensures ok { IfOk result (IsAnswered D.Link.state D.state peer.now dialer.old dialer.new) }
    ensures err { IfErr result (FetchFault D.Link.state D.state peer.now dialer.old dialer.new) }
{
    let Ok(head) = health_request(alloc) else {
        return Err(Fault::Memory);
    };
    let fetched = fetch(rt, connector, dialer, clock, peer, head, None)?;
    Ok(fetched.status / 100 == 2)
}

fn health_request(alloc: Global) -> Result<RequestHeader, Error>
    ensures { IfOk result (λ head. head ≡ health_request) }
{
    let mut head = RequestHeader::build(alloc, b"GET", b"/health", Some(1))?;
    head.append_header(b"Host", b"localhost")?;
    Ok(head)
}
