//! What a look at an idle link finds.
use super::Client;
use super::calls::{break_reads, end, give, new_with};
use super::exchange::{asked, receive};
use h1_client::{IdleLink, Probe};
use h1_link::MemLink;
use std::alloc::Global;
use std::marker::Model;
use std::process::Abort;

/// What the peer does, or the link, once it stands idle.
#[derive(Clone, Copy, Debug, PartialEq, Eq)]
enum Then {
    Nothing,
    Sends,
    Ends,
    Breaks,
}

/// What a look found.
#[derive(Clone, Copy, Debug, PartialEq, Eq)]
enum Found {
    Fresh,
    Past,
    Byte,
    Ended,
    Failed,
    NoMemory,
}

/// The idle timeout, what happens, the moment, and what a look finds then.
type Look = (Option<u64>, Then, u64, Found);

fn looks<'a>() -> &'a [Look] {
    &LOOKS
}

static LOOKS: [Look; 12] = [
    (Some(10), Then::Nothing, 9, Found::Fresh),
    (Some(10), Then::Nothing, 10, Found::Past),
    (Some(10), Then::Sends, 9, Found::Byte),
    (Some(10), Then::Sends, 10, Found::Past),
    (Some(10), Then::Ends, 9, Found::Ended),
    (Some(10), Then::Ends, 10, Found::Past),
    (Some(10), Then::Breaks, 9, Found::Failed),
    (Some(10), Then::Breaks, 10, Found::Past),
    (Some(0), Then::Nothing, 0, Found::Past),
    (None, Then::Nothing, u64::MAX, Found::Fresh),
    (None, Then::Sends, 0, Found::Byte),
    (None, Then::Ends, 0, Found::Ended),
];

#[test]
fn a_look_finds_the_deadline_or_what_happened(rt: HostRuntime) {
    for &(idle_timeout, then, now, expected) in looks() {
        let mut client = whole(&rt, rt.alloc());
        happens(&rt, &mut client, then);
        let idle = idle_of(&rt, client, idle_timeout);
        assert_eq!(rt;
            look(idle, now),
            expected,
            "{idle_timeout:?} {then:?} {now}"
        );
    }
}

/// A session whose exchange is whole, over a link that may serve the next request.
pub(crate) fn whole(rt: &impl Abort, alloc: Global) -> Client {
    whole_with(rt, alloc, 1)
}

/// The same with the peer of this key.
pub(crate) fn whole_with(rt: &impl Abort, alloc: Global, key: u64) -> Client {
    let mut client = asked(rt, alloc, new_with(alloc, key), b"GET");
    receive(rt, &mut client, b"HTTP/1.1 204 No Content\r\n\r\n", 4096);
    client.session.respect_keepalive();
    client
}

fn happens(rt: &impl Abort, client: &mut Client, then: Then) {
    match then {
        Then::Nothing => {}
        Then::Sends => give(rt, client, b"x"),
        Then::Ends => end(client),
        Then::Breaks => break_reads(client),
    }
}

/// An idle link, of which contracts see nothing.
#[derive(Drop)]
struct Idle {
    link: IdleLink<MemLink>,
}

impl Model for Idle {
    ghost Value = { Unit {0} };

    ghost view = { λ _. tt };
}

/// The link of a session, which stands idle from 0.
fn idle_of(rt: &impl Abort, client: Client, idle_timeout: Option<u64>) -> Idle {
    let link = IdleLink::from_session(client.session, idle_timeout, 0);
    Idle {
        link: link.expect(rt, "the link is kept"),
    }
}

/// What a look finds at a moment.
fn look(idle: Idle, now: u64) -> Found {
    match idle.link.probe(now) {
        Probe::Fresh(_) => Found::Fresh,
        Probe::Past(_) => Found::Past,
        Probe::Byte(_) => Found::Byte,
        Probe::Ended(_) => Found::Ended,
        Probe::Failed(_) => Found::Failed,
        Probe::NoMemory(_) => Found::NoMemory,
    }
}
