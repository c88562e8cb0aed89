//! Which links are kept when a session is released (RFC 9112, section 9.3), and how long Keep-Alive
//! lets them stand idle.
use super::Client;
use super::calls::{add_line, ask, finish, head_of, new};
use super::exchange::receive;
use super::pooling::{has_one, pool_of, release};
use h1_client::Keepalive;
use std::alloc::Global;
use std::process::Abort;

/// What the request's Connection says, the responses, and whether the link is kept.
type Release<'a> = (&'a [u8], &'a [u8], bool);

fn releases<'a>() -> &'a [Release<'a>] {
    &RELEASES
}

static RELEASES: [(&[u8], &[u8], bool); 17] = [
    // Another protocol follows.
    (b"", b"HTTP/1.1 101 Switching Protocols\r\n\r\n", false),
    // No final head came, or the body ends with the link.
    (b"", b"HTTP/1.1 100 Continue\r\n\r\n", false),
    (b"", b"HTTP/1.1 200 OK\r\n\r\nok", false),
    // A byte came behind the response.
    (b"", b"HTTP/1.1 204 No Content\r\n\r\nx", false),
    // A coding that version 1.0 doesn't know.
    (
        b"",
        b"HTTP/1.0 200 OK\r\nTransfer-Encoding: chunked\r\nConnection: keep-alive\r\n\r\n0\r\n\r\n",
        false,
    ),
    // One side closes.
    (b"close", b"HTTP/1.1 204 No Content\r\n\r\n", false),
    (
        b"x, Close",
        b"HTTP/1.1 204 No Content\r\nConnection: keep-alive\r\n\r\n",
        false,
    ),
    (
        b"",
        b"HTTP/1.1 204 No Content\r\nConnection: close\r\n\r\n",
        false,
    ),
    (
        b"",
        b"HTTP/1.1 204 No Content\r\nConnection: keep-alive, CLOSE\r\n\r\n",
        false,
    ),
    // The response keeps.
    (
        b"",
        b"HTTP/1.0 204 No Content\r\nConnection: Keep-Alive\r\n\r\n",
        true,
    ),
    (
        b"keep-alive",
        b"HTTP/1.1 204 No Content\r\nConnection: keep-alive\r\n\r\n",
        true,
    ),
    // Version 1.1 keeps, and version 1.0 doesn't, whatever the request says.
    (b"", b"HTTP/1.1 200 OK\r\nContent-Length: 2\r\n\r\nok", true),
    (
        b"",
        b"HTTP/1.1 200 OK\r\nTransfer-Encoding: chunked\r\n\r\n2\r\nok\r\n0\r\n\r\n",
        true,
    ),
    (b"keep-alive", b"HTTP/1.0 204 No Content\r\n\r\n", false),
    (
        b"",
        b"HTTP/1.1 100 Continue\r\n\r\nHTTP/1.1 200 OK\r\nContent-Length: 0\r\n\r\n",
        true,
    ),
    // The body is cut, or isn't what its framing allows.
    (
        b"",
        b"HTTP/1.1 200 OK\r\nContent-Length: 3\r\n\r\nok",
        false,
    ),
    (
        b"",
        b"HTTP/1.1 503 Service Unavailable\r\nTransfer-Encoding: chunked\r\n\r\nZZ\r\n",
        false,
    ),
];

#[test]
fn a_release_keeps_a_link_by_the_first_rule_that_holds(rt: HostRuntime) {
    let shared = pool_of(&rt);
    for &(connection, response, kept) in releases() {
        let client = answered(&rt, rt.alloc(), connection, response);
        assert_eq!(rt;
            release(&rt, &shared, client, 1, None),
            kept,
            "{response:?}"
        );
        // One session stands over a link that is kept.
        assert_eq!(rt; has_one(&rt, &shared, 1, 0), kept, "{response:?}");
        assert!(rt; !has_one(&rt, &shared, 1, 0), "{response:?}");
    }
}

/// A session that asked with this Connection field, or without one where it is empty, and read what
/// came of this response.
fn answered(rt: &impl Abort, alloc: Global, connection: &[u8], response: &[u8]) -> Client {
    let mut client = new(alloc);
    let mut head = head_of(rt, alloc, b"GET", b"/x");
    if !connection.is_empty() {
        add_line(rt, &mut head, b"Connection", connection);
    }
    ask(rt, &mut client, head, 0);
    finish(rt, &mut client, 0);
    receive(rt, &mut client, response, 4096);
    client
}

/// Values of Keep-Alive, and how many seconds they let the link stand idle.
fn timeouts<'a>() -> &'a [(&'a [u8], Option<u64>)] {
    &TIMEOUTS
}

static TIMEOUTS: [(&[u8], Option<u64>); 22] = [
    (b"timeout=5", Some(5)),
    (b"timeout=5, max=100", Some(5)),
    (b"max=100,\t timeout = 7 ", Some(7)),
    (b"timeout=5, timeout=9", Some(9)),
    (b"timeout=5, timeout=x", None),
    (b"timeout=+6", Some(6)),
    (b"timeout=007", Some(7)),
    (b"timeout=++6", None),
    (b"timeout=+", None),
    (b"timeout=", None),
    (b"timeout=5s", None),
    (b"timeout=18446744073709551615", Some(u64::MAX)),
    (b"timeout=18446744073709551616", None),
    (b"max=5", None),
    (b"timeout=5, max=9", Some(5)),
    // A key is written one way, and a value ends with its part.
    (b"Timeout=5", None),
    (b"xtimeout=5", None),
    (b"timeout =\t5\t,", Some(5)),
    (b"timeout=5;max=9", None),
    (b"timeout==5", None),
    (b"timeout=9, =5, max", Some(9)),
    (b"timeout=5, TIMEOUT=x", Some(5)),
];

#[test]
fn the_last_timeout_of_keep_alive_counts(rt: HostRuntime) {
    for &(value, seconds) in timeouts() {
        let mut client = told_of(&rt, rt.alloc(), value);
        client.session.respect_keepalive();
        assert_eq!(rt;
            client.session.keepalive(),
            Keepalive::On(seconds),
            "{value:?}"
        );
    }
}

/// A session whose response has this Keep-Alive field.
fn told_of(rt: &impl Abort, alloc: Global, value: &[u8]) -> Client {
    let mut response = Vec::new(alloc);
    for part in [
        b"HTTP/1.1 204 No Content\r\nConnection: keep-alive\r\nKeep-Alive: ".as_slice(),
        value,
        b"\r\n\r\n",
    ] {
        response.extend_from_slice(part).expect(rt, "memory");
    }
    answered(rt, alloc, b"", &response)
}

/// A response whose peer lets the link stand idle for a second.
const ONE_SECOND: &[u8] =
    b"HTTP/1.1 204 No Content\r\nConnection: keep-alive\r\nKeep-Alive: timeout=1\r\n\r\n";

/// The idle timeout, the moment, and whether the link is handed out then.
fn deadlines<'a>() -> &'a [(Option<u64>, u64, bool)] {
    &DEADLINES
}

static DEADLINES: [(Option<u64>, u64, bool); 6] = [
    (None, 999, true),
    (None, 1000, false),
    (Some(2000), 999, true),
    (Some(2000), 1000, false),
    (Some(500), 499, true),
    (Some(500), 500, false),
];

#[test]
fn the_earlier_of_two_deadlines_counts(rt: HostRuntime) {
    let shared = pool_of(&rt);
    for &(idle_timeout, now, is_there) in deadlines() {
        let client = answered(&rt, rt.alloc(), b"", ONE_SECOND);
        assert!(rt; release(&rt, &shared, client, 1, idle_timeout));
        assert_eq!(rt;
            has_one(&rt, &shared, 1, now),
            is_there,
            "{idle_timeout:?} {now}"
        );
    }
}
