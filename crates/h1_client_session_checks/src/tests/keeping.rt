//! Whether a link serves the next request (RFC 9112, section 9.3).
use super::End::{self, *};
use super::exchange::{client_of, end_of, receive};
use h1_client::Keepalive;

/// A response to GET, what becomes of the link, and what is said of its time.
type Kept<'a> = (&'a [u8], End, Keepalive);

fn rows<'a>() -> &'a [Kept<'a>] {
    &ROWS
}

static ROWS: [(&[u8], End, Keepalive); 12] = [
    (
        b"HTTP/1.1 200 OK\r\nContent-Length: 0\r\n\r\n",
        Kept,
        Keepalive::On(None),
    ),
    (
        b"HTTP/1.0 200 OK\r\nContent-Length: 0\r\n\r\n",
        Closed,
        Keepalive::Off,
    ),
    (
        b"HTTP/1.0 200 OK\r\nConnection: keep-alive\r\nContent-Length: 0\r\n\r\n",
        Kept,
        Keepalive::On(None),
    ),
    (
        b"HTTP/1.1 200 OK\r\nConnection: keep-alive\r\n\
            Keep-Alive: timeout=5, max=100\r\nContent-Length: 0\r\n\r\n",
        Kept,
        Keepalive::On(Some(5)),
    ),
    (
        b"HTTP/1.1 200 OK\r\nConnection: keep-alive\r\n\
            Keep-Alive: timeout=5, timeout = +7 \r\nContent-Length: 0\r\n\r\n",
        Kept,
        Keepalive::On(Some(7)),
    ),
    (
        b"HTTP/1.1 200 OK\r\nConnection: keep-alive\r\n\
            Keep-Alive: timeout=5,timeout=x\r\nContent-Length: 0\r\n\r\n",
        Kept,
        Keepalive::On(None),
    ),
    (
        b"HTTP/1.1 200 OK\r\nConnection: keep-alive\r\n\
            Keep-Alive: timeout\r\nContent-Length: 0\r\n\r\n",
        Kept,
        Keepalive::On(None),
    ),
    (
        b"HTTP/1.1 200 OK\r\nConnection: keep-alive, close\r\nContent-Length: 0\r\n\r\n",
        Closed,
        Keepalive::Off,
    ),
    (
        b"HTTP/1.0 200 OK\r\nConnection: keep-alive\r\nTransfer-Encoding: chunked\r\n\r\n0\r\n\r\n",
        Closed,
        Keepalive::Off,
    ),
    (
        b"HTTP/1.1 101 Switching Protocols\r\nContent-Length: 0\r\n\r\n",
        Closed,
        Keepalive::Off,
    ),
    (
        b"HTTP/1.1 200 OK\r\nContent-Length: 0\r\n\r\nX",
        Closed,
        Keepalive::Off,
    ),
    (
        b"HTTP/1.1 200 OK\r\nKeep-Alive: timeout=5\r\nContent-Length: 0\r\n\r\n",
        Kept,
        Keepalive::On(None),
    ),
];

#[test]
fn a_link_is_kept_by_what_both_sides_say(rt: HostRuntime) {
    for &(response, end, keepalive) in rows() {
        let mut client = client_of(&rt, rt.alloc(), b"GET");
        receive(&rt, &mut client, response, 4096);
        assert_eq!(rt; end_of(&rt, &mut client), end, "{response:?}");
        assert_eq!(rt; client.session.keepalive(), keepalive, "{response:?}");
    }
}
