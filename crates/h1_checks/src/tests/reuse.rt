//! What goes from one session to the next on a link.
use crate::tests::applications::refusal;
use futures::task::Poll;
use h1_app::{HttpPersistentSettings, HttpSession, Reply, ReusedHttpStream};
use h1_link::MemLink;
use h1_server::ReadRequest;
use std::marker::Model;
use std::process::Abort;

/// A session over a link in memory. Contracts see nothing of it. It is not let go, but hands its
/// link back: so no proof here is of all that a session holds.
struct Held {
    session: HttpSession<MemLink, u32>,
}

impl Model for Held {
    ghost Value = { Unit {0} };

    ghost view = { λ _. tt };
}

/// The link of a session goes with it.
fn close(held: Held) {
    let Held { session } = held;
    let _ = session.into_inner();
}

fn session_over(rt: &(impl Abort + AllocGlobal), link: MemLink) -> Held {
    let session = HttpSession::new(rt.alloc(), link).expect(rt, "memory for a session");
    Held { session }
}

/// A session over this link, set so.
fn next_session(
    rt: &(impl Abort + AllocGlobal),
    link: MemLink,
    settings: HttpPersistentSettings<u32>,
) -> Held {
    let mut session = HttpSession::new(rt.alloc(), link).expect(rt, "memory for a session");
    settings.apply_to_session(&mut session);
    Held { session }
}

/// Keep-alive for a minute, for one request more.
fn set_keepalive(held: &mut Held) {
    held.session.set_server_keepalive(Some(60));
    held.session.set_keepalive_reuses_remaining(Some(1));
}

/// What is set on a session, with a value of its caller's.
fn settings_with(held: &Held, context: u32) -> HttpPersistentSettings<u32> {
    let mut settings = HttpPersistentSettings::for_session(&held.session);
    settings.set_user_context(context);
    settings
}

fn keepalive(held: &Held) -> (Option<u64>, Option<u32>) {
    (
        held.session.get_keepalive_timeout(),
        held.session.get_keepalive_reuses_remaining(),
    )
}

fn take_context(held: &mut Held) -> Option<u32> {
    held.session.take_connection_user_context()
}

/// What was set on a session, with a value of its caller's.
fn settings_of_first(rt: &(impl Abort + AllocGlobal)) -> HttpPersistentSettings<u32> {
    let mut first = session_over(rt, MemLink::new(rt.alloc()));
    set_keepalive(&mut first);
    let settings = settings_with(&first, 123);
    close(first);
    settings
}

#[test]
fn what_is_set_goes_on_to_the_next_session(rt: HostRuntime) {
    let settings = settings_of_first(&rt);
    let mut next = next_session(&rt, MemLink::new(rt.alloc()), settings);
    assert_eq!(rt; keepalive(&next), (Some(60), Some(0)));
    assert_eq!(rt; take_context(&mut next), Some(123));
    assert_eq!(rt; take_context(&mut next), None);
    close(next);
}

/// A session that lets bytes behind a request begin the next one, over a link with two requests.
fn session_of_two(rt: &(impl Abort + AllocGlobal)) -> Held {
    let mut link = MemLink::new(rt.alloc());
    link.give(b"GET /a HTTP/1.1\r\n\r\nGET /b HTTP/1.1\r\n\r\n")
        .expect(rt, "memory for the peer's bytes");
    let mut held = session_over(rt, link);
    held.session.set_pipelining_enabled(true);
    held
}

/// Reads a head of 19 bytes.
fn read_head(rt: &impl Abort, held: &mut Held) {
    assert!(rt; !held.session.has_request());
    assert_eq!(rt;
        held.session.poll_read_request(0),
        Poll::Ready(Ok(ReadRequest::Head(19)))
    );
    assert!(rt; held.session.has_request());
}

/// The request has no body, and keep-alive has no limit.
fn respect_keepalive(rt: &impl Abort, held: &mut Held) {
    assert!(rt; held.session.has_request() && held.session.is_free());
    assert!(rt; held.session.is_body_done() && held.session.is_body_empty());
    held.session.respect_keepalive();
    assert_eq!(rt; held.session.get_keepalive_timeout(), Some(0));
}

/// Writes the header of a reply that has no body.
fn write_header(rt: &impl Abort, held: &mut Held, reply: Reply) {
    assert!(rt; held.session.has_request() && held.session.is_free());
    assert!(rt; reply.header.status() >= 200);
    let mut header = Some(reply.header);
    assert_eq!(rt;
        held.session.poll_write_response_header(&mut header, 0),
        Poll::Ready(Ok(()))
    );
}

fn finish_body(rt: &impl Abort, held: &mut Held) {
    assert!(rt; held.session.is_free());
    assert_eq!(rt; held.session.poll_finish_body(0), Poll::Ready(Ok(Some(0))));
}

/// The link of a session may serve another request.
fn become_reusable(rt: &impl Abort, held: &mut Held) {
    assert!(rt; held.session.has_request() && held.session.is_free());
    assert_eq!(rt;
        held.session.poll_drain_request_body(0),
        Poll::Ready(Ok(()))
    );
    assert_eq!(rt; held.session.poll_reuse(0), Poll::Ready(Ok(true)));
}

/// The link of a session that is over, with what is set for the next.
fn hand_on(rt: &impl Abort, held: Held) -> ReusedHttpStream<MemLink, u32> {
    let Held { session } = held;
    assert!(rt; session.is_reusable());
    let settings = HttpPersistentSettings::for_session(&session);
    ReusedHttpStream::from_reusable_stream(session.into_reusable(), settings)
}

fn take_on(rt: &(impl Abort + AllocGlobal), reused: ReusedHttpStream<MemLink, u32>) -> Held {
    let (link, settings) = reused.consume();
    let settings = settings.expect(rt, "what is set goes with the link");
    next_session(rt, link, settings)
}

fn expect_path(rt: &impl Abort, held: &Held, path: &[u8]) {
    assert!(rt; held.session.has_request());
    assert_eq!(rt; held.session.req_header().raw_path(), path);
}

#[test]
fn a_reused_link_goes_on_with_what_was_received(rt: HostRuntime) {
    let mut first = session_of_two(&rt);
    read_head(&rt, &mut first);
    respect_keepalive(&rt, &mut first);
    let reply = refusal(rt.alloc()).expect(&rt, "memory for a reply");
    write_header(&rt, &mut first, reply);
    finish_body(&rt, &mut first);
    become_reusable(&rt, &mut first);
    let mut next = take_on(&rt, hand_on(&rt, first));
    assert!(rt; next.session.has_prefix() && next.session.pipelining_enabled());
    read_head(&rt, &mut next);
    expect_path(&rt, &next, b"/b");
    close(next);
}
