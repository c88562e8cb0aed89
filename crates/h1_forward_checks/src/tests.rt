//! Requests that are forwarded over links in memory. None of the functions here promises anything:
//! an expectation that isn't met ends the test.
mod forwarding;
mod reading;

use h1_client::v1::HttpSession as Client;
use h1_forward::Forward;
use h1_link::MemLink;
use h1_server::HttpSession;
use std::marker::Model;
use std::process::Abort;

/// A request, and the bytes that a client writes for it, which differ where the body had trailers.
#[derive(Clone, Copy)]
struct Row {
    came: &'static [u8],
    method: &'static [u8],
    target: &'static [u8],
    lines: &'static [(&'static [u8], &'static [u8])],
    payload: &'static [u8],
    written: &'static [u8],
}

const GET_BYTES: &[u8] =
    b"GET /index.html?q=1 HTTP/1.1\r\nHost: localhost:8080\r\nUser-Agent: curl/8.5.0\r\nAccept: */*\r\n\r\n";

/// A request without a body, with three field lines.
const GET: Row = Row {
    came: GET_BYTES,
    method: b"GET",
    target: b"/index.html?q=1",
    lines: &[
        (b"Host", b"localhost:8080"),
        (b"User-Agent", b"curl/8.5.0"),
        (b"Accept", b"*/*"),
    ],
    payload: b"",
    written: GET_BYTES,
};

/// A request with a body in chunks, and a trailer, which is dropped.
const POST: Row = Row {
    came: b"POST /p HTTP/1.1\r\nTransfer-Encoding: chunked\r\n\r\n3\r\nabc\r\n0\r\nX: y\r\n\r\n",
    method: b"POST",
    target: b"/p",
    lines: &[(b"Transfer-Encoding", b"chunked")],
    payload: b"abc",
    written: b"POST /p HTTP/1.1\r\nTransfer-Encoding: chunked\r\n\r\n3\r\nabc\r\n0\r\n\r\n",
};

/// A server's session over a link in memory, of which contracts see nothing.
#[derive(Drop)]
struct Reader {
    session: HttpSession<MemLink, u32>,
    payload: Vec<u8>,
}

impl Model for Reader {
    ghost Value = { Unit {0} };

    ghost view = { λ _. tt };
}

/// A client's session over a link in memory and a request on its way to it, of which contracts see
/// nothing.
#[derive(Drop)]
struct Writer {
    session: Client<MemLink>,
    forward: Forward,
}

impl Model for Writer {
    ghost Value = { Unit {0} };

    ghost view = { λ _. tt };
}

/// Forwards the request of a row: what came is read, written to a client's session whose link takes
/// so many bytes before each step, and what its link took is read again.
fn forward(rt: &(impl Abort + AllocGlobal), row: Row, room: u64) {
    let mut first = reading::reader_of(rt, row.came);
    reading::meets(rt, &mut first, row);
    let mut writer = forwarding::writer_of(rt, &mut first);
    forwarding::write(rt, &mut writer, room);
    assert_eq!(rt; writer.session.link().written(), row.written);
    let mut second = reading::reader_of(rt, writer.session.link().written());
    reading::meets(rt, &mut second, row);
    reading::ends(rt, &second, row.written);
}

#[test]
fn a_request_is_the_same_behind_a_client(rt: HostRuntime) {
    for row in [GET, POST] {
        forward(&rt, row, 1_000);
    }
}

#[test]
fn a_link_that_takes_a_byte_at_a_time_takes_the_same_bytes(rt: HostRuntime) {
    for row in [GET, POST] {
        forward(&rt, row, 1);
    }
}
