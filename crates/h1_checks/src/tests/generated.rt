//! Requests that are made, byte by byte, and served.
use h1_app::End;
use h1_generator::generate;
use h1_link::MemLink;
use h1_serving::{Echoed, serve_gen};
use std::marker::Model;
use std::process::Abort;

fn expect_made(rt: &(impl Abort + AllocGlobal), count: u32, bytes: &[u8]) {
    assert!(rt; count <= 3);
    let made = generate(rt.alloc(), count).expect(rt, "memory for requests");
    assert_eq!(rt; made.as_slice(), bytes);
}

#[test]
fn requests_are_made_in_turn(rt: HostRuntime) {
    expect_made(&rt, 0, b"");
    let three = b"GET /1 HTTP/1.1\r\n\r\n\
            POST /2 HTTP/1.1\r\nContent-Length: 2\r\n\r\naa\
            POST /3 HTTP/1.1\r\nTransfer-Encoding: chunked\r\n\r\n3\r\nbbb\r\n0\r\n\r\n";
    expect_made(&rt, 3, three);
}

#[test]
fn a_chunk_of_no_bytes_is_left_out(rt: HostRuntime) {
    let made = generate(rt.alloc(), 21).expect(&rt, "memory for requests");
    let last = b"POST /21 HTTP/1.1\r\nTransfer-Encoding: chunked\r\n\r\n0\r\n\r\n";
    assert!(rt; made.ends_with(last));
}

/// A connection that was served. Contracts see nothing of it, and it is not let go.
struct Ended {
    connection: Echoed<MemLink>,
}

impl Model for Ended {
    ghost Value = { Unit {0} };

    ghost view = { λ _. tt };
}

/// A connection over so many requests that are made.
fn serve(rt: &(impl Abort + AllocGlobal), count: u32) -> Ended {
    assert!(rt; count <= 1_000);
    let connection = serve_gen(rt.alloc(), count).expect(rt, "memory for the requests");
    Ended { connection }
}

/// Why a connection ended.
fn end_of(ended: &Ended) -> Option<End> {
    ended.connection.end()
}

/// How many requests were read, and how many bytes of their bodies.
fn counts(ended: &Ended) -> (usize, u64) {
    let transcript = ended.connection.transcript();
    (transcript.len(), transcript.payload_len())
}

/// The bytes that the peer was sent.
fn written(ended: &Ended) -> &[u8] {
    ended.connection.link().written()
}

/// The link of a connection goes with it.
fn close(ended: Ended) {
    let Ended { connection } = ended;
    let _ = connection.into_link();
}

/// So many requests are served to a good end: how many were read, how many bytes of their bodies,
/// and how many bytes the peer was sent.
fn counts_of(rt: &(impl Abort + AllocGlobal), count: u32) -> (usize, u64, usize) {
    let ended = serve(rt, count);
    assert_eq!(rt; end_of(&ended), Some(End::Finished));
    let (exchanges, payload) = counts(&ended);
    let sent = written(&ended).len();
    close(ended);
    (exchanges, payload, sent)
}

#[test]
fn three_requests_are_served(rt: HostRuntime) {
    assert_eq!(rt; counts_of(&rt, 3), (3, 5, 327));
}

#[test]
fn no_requests_end_at_once(rt: HostRuntime) {
    assert_eq!(rt; counts_of(&rt, 0), (0, 0, 0));
}

#[test]
fn a_thousand_requests_are_served(rt: HostRuntime) {
    let (exchanges, payload, _) = counts_of(&rt, 1_000);
    assert_eq!(rt; (exchanges, payload), (1_000, 2_002));
}
