//! Which idle link is handed out, to one thread and to two.
use super::calls::{give, new_with, peer_of};
use super::exchange::{asked, receive};
use super::probing::whole_with;
use super::{Client, ErrorType, MemLink};
use futures::task::Poll;
use h1_client::Connector;
use h1_client::v1::HttpSession;
use h1_error::{ConnectFault, Error};
use h1_link::{DialStep, MemDialer};
use std::marker::Model;
use std::process::Abort;
use std::sync::Wait;
use std::sync::atomic::Ordering;
use std::thread::join;

/// 27 bytes.
const SHORT: &[u8] = b"HTTP/1.1 204 No Content\r\n\r\n";

/// 38 bytes.
const LONG: &[u8] = b"HTTP/1.1 200 OK\r\nContent-Length: 0\r\n\r\n";

/// A pool of links, of which contracts see nothing.
#[derive(Drop)]
pub(crate) struct Shared {
    connector: Connector<MemLink>,
}

impl Model for Shared {
    ghost Value = { Unit {0} };

    ghost view = { λ _. tt };
}

/// A pool without a link.
pub(crate) fn pool_of(rt: &(impl Abort + AllocGlobal)) -> Shared {
    let connector = Connector::new(rt.alloc()).expect(rt, "memory");
    Shared { connector }
}

/// Releases a session with the peer of this key at 0: whether its link is kept.
pub(crate) fn release(
    rt: &(impl Abort + Wait),
    shared: &Shared,
    client: Client,
    key: u64,
    idle_timeout: Option<u64>,
) -> bool {
    let known = client
        .session
        .settings()
        .key
        .expect(rt, "a session with a peer");
    assert!(rt; known == key);
    shared
        .connector
        .release_http_session(rt, client.session, &peer_of(key), idle_timeout, 0)
        .expect(rt, "memory")
}

/// How many bytes the link that is handed out under a key gave before.
fn take(rt: &impl Wait, shared: &Shared, key: u64, now: u64) -> Option<usize> {
    match shared.connector.reused_http_session(rt, &peer_of(key), now) {
        Some(session) => Some(session.link().given().len()),
        None => None,
    }
}

/// Whether a link is handed out under a key.
pub(crate) fn has_one(rt: &impl Wait, shared: &Shared, key: u64, now: u64) -> bool {
    take(rt, shared, key, now).is_some()
}

/// Puts a link that gave this response under a key.
fn pool(
    rt: &(impl Abort + AllocGlobal + Wait),
    shared: &Shared,
    key: u64,
    idle_timeout: Option<u64>,
    response: &[u8],
) {
    let mut client = asked(rt, rt.alloc(), new_with(rt.alloc(), key), b"GET");
    receive(rt, &mut client, response, 4096);
    assert!(rt; release(rt, shared, client, key, idle_timeout));
}

#[test]
fn the_latest_release_under_a_key_is_handed_out_first(rt: HostRuntime) {
    let shared = pool_of(&rt);
    pool(&rt, &shared, 1, None, SHORT);
    pool(&rt, &shared, 1, None, LONG);
    pool(&rt, &shared, 2, None, SHORT);
    for (key, expected) in [
        (1, Some(38)),
        (1, Some(27)),
        (1, None),
        (2, Some(27)),
        (2, None),
    ] {
        assert_eq!(rt; take(&rt, &shared, key, 0), expected);
    }
}

/// The idle timeouts of two links, the moment, and which links are handed out then.
type Idle = (Option<u64>, Option<u64>, u64, Option<usize>, Option<usize>);

fn idles<'a>() -> &'a [Idle] {
    &IDLES
}

static IDLES: [Idle; 6] = [
    (Some(10), Some(100), 50, Some(38), None),
    (Some(100), Some(10), 50, Some(27), None),
    (Some(50), Some(50), 50, None, None),
    (Some(51), Some(50), 50, Some(27), None),
    (Some(51), Some(51), 50, Some(38), Some(27)),
    (None, None, u64::MAX, Some(38), Some(27)),
];

#[test]
fn a_link_is_handed_out_before_its_deadline(rt: HostRuntime) {
    let shared = pool_of(&rt);
    for &(first, second, now, latest, other) in idles() {
        pool(&rt, &shared, 1, first, SHORT);
        pool(&rt, &shared, 1, second, LONG);
        assert_eq!(rt; take(&rt, &shared, 1, now), latest);
        assert_eq!(rt; take(&rt, &shared, 1, now), other);
        assert_eq!(rt; take(&rt, &shared, 1, now), None);
    }
    assert_eq!(rt; count_bytes(&shared), 0);
}

/// How many links were found with a byte that no request asked for.
fn count_bytes(shared: &Shared) -> u64 {
    shared.connector.unexpected_data_connection_count()
}

/// The same by the counter.
fn counted(shared: &Shared) -> u64 {
    shared
        .connector
        .unexpected_data_connection_counter()
        .load(Ordering::SeqCst)
}

/// Puts a link under a key whose peer then sends a byte that no request asked for.
fn pool_with_a_byte(rt: &(impl Abort + AllocGlobal + Wait), shared: &Shared, key: u64) {
    let mut client = whole_with(rt, rt.alloc(), key);
    give(rt, &mut client, b"x");
    assert!(rt; release(rt, shared, client, key, None));
}

#[test]
fn a_link_with_a_byte_is_counted_and_goes(rt: HostRuntime) {
    let shared = pool_of(&rt);
    pool(&rt, &shared, 1, None, LONG);
    pool_with_a_byte(&rt, &shared, 1);
    pool_with_a_byte(&rt, &shared, 2);
    for (key, expected, count) in [(1, Some(38), 1), (1, None, 1), (2, None, 2)] {
        assert_eq!(rt; take(&rt, &shared, key, 0), expected);
        assert_eq!(rt; count_bytes(&shared), count);
        assert_eq!(rt; counted(&shared), count);
    }
}

/// What asking for a session gives.
#[derive(Clone, Copy, Debug, PartialEq, Eq)]
enum Got {
    /// A session over a link that served before.
    Reused,
    /// A session over a link that was dialled.
    Dialled,
    Waits,
    DialFails,
    Other,
}

/// A dialer in memory, of which contracts see nothing.
#[derive(Drop)]
struct Dialled {
    dialer: MemDialer<MemLink>,
}

impl Model for Dialled {
    ghost Value = { Unit {0} };

    ghost view = { λ _. tt };
}

/// A dialer that waits, then connects, and then fails.
fn dialer_of(rt: &(impl Abort + AllocGlobal)) -> Dialled {
    let mut dialer = MemDialer::new(rt.alloc());
    dialer.plan(DialStep::NotReady).expect(rt, "memory");
    dialer
        .plan(DialStep::Connected(MemLink::new(rt.alloc())))
        .expect(rt, "memory");
    dialer.plan(DialStep::Failed).expect(rt, "memory");
    Dialled { dialer }
}

fn get(rt: &impl Wait, shared: &Shared, dialled: &mut Dialled) -> Got {
    told_of(
        shared
            .connector
            .poll_get_http_session(rt, &mut dialled.dialer, &peer_of(1), 0),
    )
}

fn told_of(answer: Poll<Result<(HttpSession<MemLink>, bool), Error>>) -> Got {
    match answer {
        Poll::Ready(Ok((_, true))) => Got::Reused,
        Poll::Ready(Ok((_, false))) => Got::Dialled,
        Poll::Pending => Got::Waits,
        Poll::Ready(Err(error)) => {
            if error.kind == ErrorType::ConnectError(ConnectFault::DialFailed) {
                return Got::DialFails;
            }
            Got::Other
        }
    }
}

#[test]
fn an_idle_link_is_handed_out_before_any_is_dialled(rt: HostRuntime) {
    let shared = pool_of(&rt);
    pool(&rt, &shared, 1, None, SHORT);
    let mut dialled = dialer_of(&rt);
    for expected in [Got::Reused, Got::Waits, Got::Dialled, Got::DialFails] {
        assert_eq!(rt; get(&rt, &shared, &mut dialled), expected);
    }
}

/// Puts a link under a key, and takes one from under it.
fn swap(rt: &(impl Abort + AllocGlobal + Wait), shared: &Shared, key: u64) -> bool {
    pool(rt, shared, key, None, SHORT);
    has_one(rt, shared, key, 0)
}

#[test]
fn two_threads_share_idle_links(rt: HostRuntime) {
    let own = pool_of(&rt);
    let shared = &own;
    let (first, second) = join(&rt, || swap(&rt, shared, 1), || swap(&rt, shared, 1));
    assert!(rt; first && second);
    assert_eq!(rt; take(&rt, shared, 1, 0), None);
    assert_eq!(rt; count_bytes(shared), 0);
}
