//! A whole exchange over a link in memory, call by call.
use super::Told::*;
use super::facts::{Fact, Traffic};
use super::play::{play, play_on};
use super::setting::Setting::*;
use super::steps::Call::{Body, Head, Reuse};
use super::steps::Step::{Close, Has, Is, Next, Payload, Read, Reply, Set};
use super::{NOW, Timed, session_of};
use bytes::BytesMut;
use h1_link::MemLink;
use h1_server::{HttpSession, one_less};
use std::process::Abort;

/// A head of 48 bytes, and its body.
const REQUEST: &[u8] = b"POST /a HTTP/1.1\r\nHost: a\r\nContent-Length: 3\r\n\r\nabc";

/// A request with a body, and after it one without, whose head has 19 bytes.
const PIPELINED: &[u8] =
    b"POST /a HTTP/1.1\r\nHost: a\r\nContent-Length: 3\r\n\r\nabcGET /b HTTP/1.1\r\n\r\n";

const REPLY: &[u8] =
    b"HTTP/1.1 200 OK\r\nContent-Length: 2\r\nDate: Sun, 06 Nov 1994 08:49:37 GMT\r\nConnection: keep-alive\r\n\r\nok";

#[test]
fn a_request_is_read_and_its_reply_is_written(rt: HostRuntime) {
    let steps = [
        Read(Head, NOW, 51, Gives(48)),
        Payload(NOW, b"abc"),
        Read(Body, NOW, 0, Done),
        Reply(NOW),
        Has(Traffic::Written(REPLY)),
        Has(Traffic::Flushed),
    ];
    play(&rt, REQUEST, &steps);
}

#[test]
fn a_link_that_ends_before_a_head_closes(rt: HostRuntime) {
    play(&rt, b"", &[Close, Read(Head, NOW, 0, Closed)]);
}

#[test]
fn a_link_is_handed_on_with_what_was_received_behind_the_request(rt: HostRuntime) {
    let steps = [
        Set(Pipelining(true)),
        Read(Head, NOW, 70, Gives(48)),
        // A reply that comes before the end of the request's body doesn't close the connection.
        Set(Closing(false)),
        Is(Fact::Keepalive(Some(0))),
        Reply(NOW),
        Is(Fact::Kept(true)),
        Read(Reuse, NOW, 0, Done),
    ];
    let mut timed = session_of(&rt, PIPELINED);
    play_on(&rt, &mut timed, &steps);
    let mut next = handed_on(&rt, timed);
    play_on(
        &rt,
        &mut next,
        &[
            Is(Fact::Prefixed(true)),
            Read(Head, NOW, 0, Gives(19)),
            Is(Fact::Target(b"/b")),
        ],
    );
}

#[test]
fn a_session_goes_on_with_the_requests_that_were_received(rt: HostRuntime) {
    let steps = [
        Set(Pipelining(true)),
        Set(Reuses(Some(2))),
        Set(Context(Some(7))),
        Read(Head, NOW, 70, Gives(48)),
        Payload(NOW, b"abc"),
        Set(Closing(false)),
        Reply(NOW),
        // With no budget, a head is read only where no link call is needed.
        Set(Budget(Some(0))),
        Read(Reuse, NOW, 0, Done),
        Next,
        Is(Fact::Anew(Some(1))),
        Has(Traffic::Given(PIPELINED)),
        Is(Fact::Prefixed(true)),
        Read(Head, NOW, 0, Gives(19)),
        Is(Fact::Target(b"/b")),
        Set(Budget(None)),
        Reply(NOW),
        Read(Reuse, NOW, 0, Done),
        Next,
        Is(Fact::Anew(Some(0))),
        Is(Fact::Prefixed(false)),
        Is(Fact::Kept(false)),
        Is(Fact::Context(Some(7))),
        Is(Fact::Context(None)),
    ];
    play(&rt, PIPELINED, &steps);
}

#[test]
fn a_link_that_is_not_kept_is_shut(rt: HostRuntime) {
    let steps = [
        Read(Head, NOW, 51, Gives(48)),
        Set(Reuses(Some(0))),
        Read(Reuse, NOW, 0, Refused),
        Is(Fact::Ended),
    ];
    play(&rt, REQUEST, &steps);
}

/// A session of its own over the link, with what was received for it.
fn handed_on<'a>(rt: &(impl Abort + AllocGlobal), timed: Timed<'a>) -> Timed<'a> {
    assert!(rt; timed.session.is_reusable());
    let (link, prefix) = timed.session.into_reusable().into_parts();
    let session = session_over(rt, link, prefix.expect(rt, "the next request was received"));
    Timed {
        session,
        rest: timed.rest,
        step: 0,
    }
}

/// A session over a link, which parses these bytes before any read.
fn session_over(
    rt: &(impl Abort + AllocGlobal),
    link: MemLink,
    prefix: BytesMut,
) -> HttpSession<MemLink, u32> {
    match HttpSession::new(rt.alloc(), link) {
        Ok(mut session) => {
            session.set_pipelined_prefix(prefix);
            session
        }
        Err(_) => panic!(rt; "no memory for a session"),
    }
}

#[test]
fn one_request_fewer_may_follow_where_there_is_a_limit(rt: HostRuntime) {
    let cases = [
        (None, None),
        (Some(2), Some(1)),
        (Some(1), Some(0)),
        (Some(0), Some(0)),
    ];
    for (reuses, left) in cases {
        assert_eq!(rt; one_less(reuses), left);
    }
}
