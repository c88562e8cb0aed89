//! `listen` over an acceptor in memory.
ghost use Rattle.h1_link.specs.SinkState.{FitsPiece, after_sink_write, after_sink_flush};

use super::status_of;
use h1_link::{Acceptor, MemAcceptor, MemLink, MemSink, MemSource, SetClock, Sink, SinkStep};
use std::marker::Model;
use std::process::Abort;
use std::sync::Wait;
use std::thread::Threads;

pub(crate) const KEPT: &[u8] = b"GET /a HTTP/1.1\r\n\r\n";

pub(crate) const CLOSED: &[u8] =
    b"POST /p HTTP/1.1\r\nConnection: close\r\nContent-Length: 3\r\n\r\nabc";

/// A sink in memory whose writes fail after so many.
#[derive(Drop)]
struct Failing {
    sink: MemSink,
    left: u32,
}

impl Sink for Failing {
    ghost state = { λ failing. failing.sink.state };

    fn write(&mut self, piece: &[u8]) -> SinkStep {
        if self.left == 0 {
            self.sink.fail_next();
        } else {
            self.left -= 1;
        }
        self.sink.write(piece)
    }

    fn flush(&mut self) -> bool {
        self.sink.flush()
    }
}

/// An acceptor in memory that counts the links that come back flushed and shut down.
#[derive(Drop)]
struct Counting {
    net: MemAcceptor,
    closed: u32,
}

impl Acceptor for Counting {
    type Link = MemLink;

    ghost state = { λ counting. counting.net.state };

    fn bind(&mut self, port: u16) -> bool {
        self.net.bind(port)
    }

    fn accept(&mut self) -> Option<MemLink> {
        self.net.accept()
    }

    fn hand_back(&mut self, link: MemLink) {
        if link.is_shut() && link.flushed() == link.written().len() as u64 {
            self.closed = self.closed.saturating_add(1);
        }
        self.net.hand_back(link);
    }
}

/// So many writes that no test makes them.
const ALL: u32 = 1_000;

/// What `listen` writes to, and the peers that it meets. Contracts see nothing of them.
#[derive(Drop)]
struct Peers {
    sink: Failing,
    net: Counting,
}

impl Model for Peers {
    ghost Value = { Unit {0} };

    ghost view = { λ _. tt };
}

/// No peer yet, and a sink whose writes fail after so many.
fn no_peers(rt: &impl AllocGlobal, writes: u32) -> Peers {
    Peers {
        sink: Failing {
            sink: MemSink::new(rt.alloc()),
            left: writes,
        },
        net: Counting {
            net: MemAcceptor::new(rt.alloc()),
            closed: 0,
        },
    }
}

/// Plans a peer that sends these bytes and no more.
fn plan(rt: &(impl Abort + AllocGlobal), peers: &mut Peers, bytes: &[u8]) {
    let mut link = MemLink::new(rt.alloc());
    link.give(bytes).expect(rt, "memory");
    link.end();
    peers.net.net.plan(link).expect(rt, "memory");
}

/// Plans a peer that sends nothing and waits.
fn plan_silent(rt: &(impl Abort + AllocGlobal), peers: &mut Peers) {
    let link = MemLink::new(rt.alloc());
    peers.net.net.plan(link).expect(rt, "memory");
}

/// Peers that send these bytes each, and a sink that doesn't fail.
fn peers_of(rt: &(impl Abort + AllocGlobal), given: &[&[u8]]) -> Peers {
    let mut peers = no_peers(rt, ALL);
    for bytes in given {
        plan(rt, &mut peers, bytes);
    }
    peers
}

/// Lets the next bind fail.
fn fail_bind(peers: &mut Peers) {
    peers.net.net.fail_bind();
}

/// Whether a peer is left that was not accepted.
fn is_left(peers: &mut Peers) -> bool {
    peers.net.accept().is_some()
}

fn written(peers: &Peers) -> &[u8] {
    peers.sink.sink.written()
}

fn is_flushed(peers: &Peers) -> bool {
    peers.sink.sink.is_flushed()
}

/// The status with which the program ends on these words.
fn ran(
    rt: &(impl Wait + Threads + Abort + AllocGlobal + Sync + Send + Clone + Drop),
    peers: &mut Peers,
    words: &[&str],
) -> u8 {
    let mut source = MemSource::new(rt.alloc(), b"").expect(rt, "memory");
    let mut clock = SetClock::new(0);
    let Peers { sink, net } = peers;
    status_of(rt, words, &mut source, sink, net, &mut clock)
}

#[test]
fn a_port_that_is_taken_has_status_8(rt: HostRuntime) {
    let mut peers = peers_of(&rt, &[KEPT]);
    fail_bind(&mut peers);
    assert_eq!(rt; ran(&rt, &mut peers, &["listen", "8080", "1"]), 8);
    assert_eq!(rt; written(&peers), b"".as_slice());
}

#[test]
fn each_connection_has_its_line_and_the_status_is_0(rt: HostRuntime) {
    let mut peers = peers_of(&rt, &[KEPT, CLOSED]);
    assert_eq!(rt; ran(&rt, &mut peers, &["listen", "8080", "2"]), 0);
    let lines = b"connection 0: finished\nconnection 1: not kept\n";
    assert_eq!(rt; written(&peers), lines.as_slice());
    assert!(rt; is_flushed(&peers));
}

#[test]
fn a_connection_that_never_ends_is_given_up(rt: HostRuntime) {
    let mut peers = no_peers(&rt, ALL);
    plan_silent(&rt, &mut peers);
    assert_eq!(rt; ran(&rt, &mut peers, &["listen", "8080", "1"]), 0);
    assert_eq!(rt; written(&peers), b"connection 0: pending read\n".as_slice());
}

#[test]
fn an_accept_that_fails_has_status_8_behind_the_lines_before(rt: HostRuntime) {
    let mut peers = peers_of(&rt, &[KEPT]);
    assert_eq!(rt; ran(&rt, &mut peers, &["listen", "8080", "2"]), 8);
    assert_eq!(rt; written(&peers), b"connection 0: finished\n".as_slice());
    assert!(rt; is_flushed(&peers));
}

#[test]
fn a_sink_that_fails_at_the_second_line_has_status_5(rt: HostRuntime) {
    let mut peers = no_peers(&rt, 1);
    for _ in 0..3 {
        plan(&rt, &mut peers, KEPT);
    }
    assert_eq!(rt; ran(&rt, &mut peers, &["listen", "8080", "3"]), 5);
    assert_eq!(rt; written(&peers), b"connection 0: finished\n".as_slice());
    assert!(rt; is_flushed(&peers));
    // The third peer was not waited for.
    assert!(rt; is_left(&mut peers));
    assert!(rt; !is_left(&mut peers));
}

#[test]
fn each_link_comes_back_flushed_and_shut_down(rt: HostRuntime) {
    let mut peers = peers_of(&rt, &[KEPT, CLOSED]);
    plan_silent(&rt, &mut peers);
    assert_eq!(rt; ran(&rt, &mut peers, &["listen", "8080", "3"]), 0);
    assert_eq!(rt; peers.net.closed, 3);
}

#[test]
fn no_connection_is_served_where_none_is_asked_for(rt: HostRuntime) {
    let mut peers = no_peers(&rt, ALL);
    assert_eq!(rt; ran(&rt, &mut peers, &["listen", "8080", "0"]), 0);
    assert_eq!(rt; written(&peers), b"".as_slice());
    assert!(rt; is_flushed(&peers));
}

#[test]
fn a_port_or_a_count_that_is_too_large_has_status_2(rt: HostRuntime) {
    let usage = b"usage: h1_serve script | gen N | sub | listen PORT COUNT\n";
    for words in [["listen", "65536", "1"], ["listen", "1", "1001"]] {
        let mut peers = peers_of(&rt, &[KEPT]);
        assert_eq!(rt; ran(&rt, &mut peers, &words), 2);
        assert_eq!(rt; written(&peers), usage.as_slice());
    }
}
