//! A bound of the bytes that are gathered of a body.
use crate::tests::REFUSED;
use crate::tests::play::Step::*;
use crate::tests::play::{Row, play, play_all};
use crate::tests::served::{ECHO, Server};
use h1_app::{End, ErrorType, History, Waiting};
use std::process::Abort;

/// A request with a body of five bytes.
const FIVE: &[u8] = b"POST /p HTTP/1.1\r\nContent-Length: 5\r\n\r\nabcde";

/// The same body in two chunks.
const CHUNKS: &[u8] =
    b"POST /p HTTP/1.1\r\nTransfer-Encoding: chunked\r\n\r\n3\r\nabc\r\n2\r\nde\r\n0\r\n\r\n";

/// The reply of `EchoApp` to the body of five bytes.
const REPLY: &[u8] =
    b"HTTP/1.1 200 OK\r\ncontent-length: 13\r\nDate: Thu, 01 Jan 1970 00:00:00 GMT\r\n\
        Connection: keep-alive\r\n\r\nPOST /p\nabcde";

/// Whether exchanges are kept, and a request.
const CASES: &[(History, &[u8])] = &[
    (History::Kept, FIVE),
    (History::Kept, CHUNKS),
    (History::Forgotten, FIVE),
    (History::Forgotten, CHUNKS),
];

fn gathering(history: History, most: u64) -> Server<'static> {
    Server {
        history,
        gather_limit: Some(most),
        ..ECHO
    }
}

fn refuses(rt: &(impl Abort + AllocGlobal), history: History, request: &[u8], most: u64) {
    let row = Row {
        shows: "a body past the bound is refused by name",
        server: gathering(history, most),
        steps: &[
            Give(request),
            NoMore,
            Fails(ErrorType::ContentTooLarge),
            Wrote(REFUSED),
            Exchanges(1),
            Fails(ErrorType::ContentTooLarge),
        ],
    };
    play(rt, &row);
}

fn serves(rt: &(impl Abort + AllocGlobal), history: History, request: &[u8], most: u64) {
    let row = Row {
        shows: "a body that reaches the bound is served",
        server: gathering(history, most),
        steps: &[
            Give(request),
            NoMore,
            Ends(End::Finished),
            Wrote(REPLY),
            Exchanges(1),
        ],
    };
    play(rt, &row);
}

#[test]
fn a_body_past_the_bound_is_refused_by_name(rt: HostRuntime) {
    for (history, request) in CASES {
        refuses(&rt, *history, request, 0);
        refuses(&rt, *history, request, 4);
    }
}

#[test]
fn a_body_that_reaches_the_bound_is_served(rt: HostRuntime) {
    for (history, request) in CASES {
        serves(&rt, *history, request, 5);
        serves(&rt, *history, request, 6);
    }
}

const ROWS: &[Row<'static>] = &[
    Row {
        shows: "what was read before the bound stays",
        server: Server {
            gather_limit: Some(4),
            ..ECHO
        },
        steps: &[
            Give(b"POST /p HTTP/1.1\r\nContent-Length: 5\r\n\r\n"),
            Give(b"abc"),
            Waits(Waiting::Read),
            Counts(0, 0, 3),
            Give(b"d"),
            Waits(Waiting::Read),
            Counts(0, 0, 4),
            Give(b"e"),
            Fails(ErrorType::ContentTooLarge),
            Counts(0, 103, 4),
            Wrote(REFUSED),
        ],
    },
    Row {
        shows: "each request has the bound of its own",
        server: Server {
            history: History::Forgotten,
            gather_limit: Some(5),
            ..ECHO
        },
        steps: &[
            Give(FIVE),
            Give(CHUNKS),
            Give(FIVE),
            NoMore,
            Ends(End::Finished),
            Exchanges(3),
        ],
    },
];

#[test]
fn a_bound_is_of_the_bytes_of_one_request(rt: HostRuntime) {
    play_all(&rt, ROWS);
}
