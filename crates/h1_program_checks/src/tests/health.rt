//! A client of a few lines, over a dialer in memory.
use super::MemLink;
use h1_asking::Fault;
use h1_client::{Connector, Peer};
use h1_health::is_healthy;
use h1_link::{DialStep, MemDialer, SetClock};
use std::process::Abort;
use std::sync::Wait;

/// What a question comes to.
#[derive(Clone, Copy, Debug, PartialEq, Eq)]
enum Health {
    Good,
    Bad,
    /// The server can't be reached.
    Unreachable,
    /// There was no memory, or no response.
    Unknown,
}

fn told(answer: Result<bool, Fault>) -> Health {
    match answer {
        Ok(true) => Health::Good,
        Ok(false) => Health::Bad,
        Err(Fault::Server(_)) => Health::Unreachable,
        Err(_) => Health::Unknown,
    }
}

/// A dialer that connects to a peer which sends these bytes, where there are any, and then fails.
fn dialer_to(rt: &(impl Abort + AllocGlobal), bytes: Option<&[u8]>) -> MemDialer<MemLink> {
    let mut dialer = MemDialer::new(rt.alloc());
    if let Some(bytes) = bytes {
        let mut link = MemLink::new(rt.alloc());
        link.give(bytes).expect(rt, "memory");
        dialer.plan(DialStep::Connected(link)).expect(rt, "memory");
    }
    dialer
}

/// Asks a peer that answers with these bytes, or one that can't be reached.
fn health_of(rt: &(impl Wait + Abort + AllocGlobal), bytes: Option<&[u8]>) -> Health {
    let connector = Connector::new(rt.alloc()).expect(rt, "memory");
    let peer = Peer {
        key: 80,
        allow_h1_response_invalid_content_length: false,
    };
    let mut dialer = dialer_to(rt, bytes);
    let mut clock = SetClock::new(0);
    told(is_healthy(rt, rt.alloc(), &connector, &mut dialer, &mut clock, &peer))
}

#[test]
fn a_server_is_healthy_with_200_and_not_with_503(rt: HostRuntime) {
    let ok = b"HTTP/1.1 200 OK\r\nContent-Length: 3\r\n\r\nyes";
    let busy = b"HTTP/1.1 503 Service Unavailable\r\nContent-Length: 0\r\n\r\n";
    assert_eq!(rt; health_of(&rt, Some(ok)), Health::Good);
    assert_eq!(rt; health_of(&rt, Some(busy)), Health::Bad);
}

#[test]
fn a_refused_dial_is_a_fault_of_the_server(rt: HostRuntime) {
    assert_eq!(rt; health_of(&rt, None), Health::Unreachable);
}
