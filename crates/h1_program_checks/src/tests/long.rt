//! Long pipelines, and heads of the greatest size.
ghost use Rattle.std.specs.Prelude.{◌<◌};

use super::scripts::{ran, streams_of, written};
use h1_app::{Connection, HttpServer, NoModules};
use h1_echo::EchoApp;
use h1_error::End;
use h1_link::MemLink;
use std::marker::Model;
use std::process::Abort;
use std::sync::Arc;

const REQUEST: &[u8] = b"GET /a HTTP/1.1\r\n\r\n";

const REPLY: &[u8] =
    b"HTTP/1.1 200 OK\r\ncontent-length: 7\r\nDate: Thu, 01 Jan 1970 00:00:00 GMT\r\nConnection: keep-alive\r\n\r\nGET /a\n";

/// Adds these bytes so many times.
fn add(rt: &impl Abort, all: &mut Vec<u8>, bytes: &[u8], count: usize) {
    for _ in 0..count {
        all.extend_from_slice(bytes).expect(rt, "memory");
    }
}

/// These bytes so many times.
fn repeated(rt: &(impl Abort + AllocGlobal), bytes: &[u8], count: usize) -> Vec<u8> {
    let mut all = Vec::new(rt.alloc());
    add(rt, &mut all, bytes, count);
    all
}

/// A connection of the echo application. Contracts see nothing of it.
#[derive(Drop)]
struct Served {
    connection: Connection<MemLink, EchoApp, NoModules, ()>,
}

impl Model for Served {
    ghost Value = { Unit {0} };

    ghost view = { λ _. tt };
}

/// A connection that was given nothing.
fn unserved(rt: &(impl Abort + AllocGlobal)) -> Served {
    let server = HttpServer::new_app(rt.alloc(), EchoApp);
    let server = Arc::new(rt.alloc(), server).expect(rt, "memory");
    let link = MemLink::new(rt.alloc());
    Served {
        connection: Connection::new(rt.alloc(), server, link).expect(rt, "memory"),
    }
}

/// The peer sends these bytes, and the connection is polled.
fn give(rt: &impl Abort, served: &mut Served, bytes: &[u8]) {
    let given = served.connection.with_link(|link| link.give(bytes));
    given.expect(rt, "memory");
    served.connection.poll(0, false);
}

/// The peer sends no more, and the connection is polled.
fn end(served: &mut Served) {
    served.connection.with_link(|link| link.end());
    served.connection.poll(0, false);
}

/// Whether so many requests were read, these bytes written, and the connection finished.
fn is_finished(served: &Served, count: usize, replies: &[u8]) -> bool {
    served.connection.end() == Some(End::Finished)
        && served.connection.transcript().len() == count
        && served.connection.link().written() == replies
}

/// Whether a connection that is given these requests in pieces of this size, with a poll after each,
/// finishes and has sent these replies to so many.
fn is_served(
    rt: &(impl Abort + AllocGlobal),
    requests: &[u8],
    size: usize,
    count: usize,
    replies: &[u8],
) -> bool
    requires { 0 < size }
{
    let mut served = unserved(rt);
    for piece in requests.chunks(size) {
        give(rt, &mut served, piece);
    }
    end(&mut served);
    is_finished(&served, count, replies)
}

#[test]
fn a_pipeline_is_served_whole_in_pieces_of_any_size(rt: HostRuntime) {
    let requests = repeated(&rt, REQUEST, 1_000);
    let replies = repeated(&rt, REPLY, 1_000);
    assert_eq!(rt; replies.len(), 106_000);
    for size in 1..98 {
        assert!(rt; is_served(&rt, &requests, size, 1_000, &replies), "{size}");
    }
}

/// No module, and two that change nothing here.
const MODULES: [&[u8]; 2] = [b"", b"module refuse 1\nmodule refuse 2\n"];

/// A script with the lines of these modules that gives one request whose field `x` has so many bytes,
/// with this text after them, and then polls so often.
fn long_head(
    rt: &(impl Abort + AllocGlobal),
    modules: &[u8],
    count: usize,
    behind: &[u8],
    polls: usize,
) -> Vec<u8> {
    let mut script = repeated(rt, modules, 1);
    add(rt, &mut script, b"give GET /a HTTP/1.1\\r\\nx: ", 1);
    add(rt, &mut script, b"a", count);
    add(rt, &mut script, behind, 1);
    add(rt, &mut script, b"\nend\n", 1);
    add(rt, &mut script, b"poll 0\n", polls);
    script
}

const FRONT: &[u8] = b"poll 0: pending budget\npoll 0: pending budget\npoll 0: pending budget\n\
poll 0: pending budget\npoll 0: finished\nrequest GET /a HTTP/1.1\nfield x: aaa";

const BEHIND: &[u8] =
    b"a\nbody 0\nwrote 106 HTTP/1.1 200 OK\\r\\ncontent-length: 7\\r\\nDate: Thu, 01 Jan 1970 00:00:00 GMT\\r\\nConnection: keep-alive\\r\\n\\r\\nGET /a\\n\n";

#[test]
fn a_head_of_the_greatest_size_is_served(rt: HostRuntime) {
    for modules in MODULES {
        let script = long_head(&rt, modules, 1_048_551, b"\\r\\n\\r\\n", 5);
        let mut streams = streams_of(&rt, &script);
        assert_eq!(rt; ran(&rt, &mut streams, &["script"]), 0);
        assert!(rt; written(&streams).starts_with(FRONT));
        assert!(rt; written(&streams).ends_with(BEHIND));
    }
}

const TOO_LONG: &[u8] = b"poll 0: pending budget\npoll 0: pending budget\n\
poll 0: pending budget\npoll 0: failed 1 InvalidHTTPHeader TooLong\nwrote 0\n";

#[test]
fn a_head_of_one_byte_more_is_too_long(rt: HostRuntime) {
    let cases: [(&[u8], usize, &[u8]); 4] = [
        (MODULES[0], 1_048_552, b"\\r\\n\\r\\n"),
        (MODULES[0], 1_048_556, b""),
        (MODULES[1], 1_048_552, b"\\r\\n\\r\\n"),
        (MODULES[1], 1_048_556, b""),
    ];
    for (modules, count, behind) in cases {
        let script = long_head(&rt, modules, count, behind, 4);
        let mut streams = streams_of(&rt, &script);
        assert_eq!(rt; ran(&rt, &mut streams, &["script"]), 0);
        assert_eq!(rt; written(&streams), TOO_LONG);
    }
}
