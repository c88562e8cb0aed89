//! The client's program beside `listen`, over TCP.
use super::owned;
use super::sockets::{Ran, listened, ready_net};
use h1_fetch::run;
use h1_link::{MemSink, MemSource, SystemClock, TcpDialer};
use std::net::Net;
use std::process::Abort;
use std::sync::Wait;
use std::thread::{self, Threads};
use std::time;

/// Runs the client on these words, over TCP and the runtime's clock.
fn fetched<R>(rt: &R, words: &[&str]) -> Ran
where
    R: Wait + Net + Abort + AllocGlobal + time::Clock + Clone + Drop,
{
    let mut source = MemSource::new(rt.alloc(), b"").expect(rt, "memory");
    let mut sink = MemSink::new(rt.alloc());
    let mut messages = MemSink::new(rt.alloc());
    let mut dialer = TcpDialer::new(rt.clone().expect(rt, "a runtime"));
    let mut clock = SystemClock::new(rt.clone().expect(rt, "a runtime"));
    let status = run(
        rt,
        rt.alloc(),
        &owned(rt, words),
        &mut source,
        &mut sink,
        &mut messages,
        &mut dialer,
        &mut clock,
    );
    Ran { status, sink }
}

/// Asks `listen` over one link, first for a path and then with a body, if one is sent, and compares
/// what the client tells.
fn tells<R>(rt: &R, asked: &[&str], lines: &[u8])
where
    R: Wait + Threads + Net + Abort + AllocGlobal + time::Clock + Sync + Send + Clone + Drop,
    R::Stream: Send,
    R::Listener: Send,
{
    let (net, port) = ready_net(rt);
    let mut words = Vec::new(rt.alloc());
    words.push("get").expect(rt, "memory");
    words.push(port).expect(rt, "memory");
    words.extend_from_slice(asked).expect(rt, "memory");
    let (served, came) = thread::join(
        rt,
        || listened(rt, port, "1", net),
        || fetched(rt, words.as_slice()),
    );
    assert_eq!(rt; came.status, 0);
    assert_eq!(rt; came.sink.written(), lines);
    assert_eq!(rt; served.status, 0);
}

#[test]
fn listen_is_asked_three_times_over_one_link(rt: HostRuntime) {
    let lines = b"response 0: 200 7 new\nresponse 1: 200 7 reused\nresponse 2: 200 7 reused\n\
        dialled 1, reused 2\n";
    tells(&rt, &["/a", "3"], lines);
}

#[test]
fn listen_is_sent_a_body_twice_over_one_link(rt: HostRuntime) {
    let lines = b"response 0: 200 11 new\nresponse 1: 200 11 reused\ndialled 1, reused 1\n";
    tells(&rt, &["/p", "2", "abc"], lines);
}
