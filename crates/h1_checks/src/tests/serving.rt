//! Requests, their replies and the end, over a link that is ready and doesn't fail.
use crate::tests::play::Step::*;
use crate::tests::play::{Row, play, play_all};
use crate::tests::served::{App, ECHO, Server};
use crate::tests::{CUT_BODY, REQUEST};
use h1_app::{End, ErrorType, History, Waiting};

/// Two requests, of whose second a byte lacks.
const LACKING: &[u8] = b"GET /a HTTP/1.1\r\n\r\nPOST /b HTTP/1.1\r\nContent-Length: 2\r\n\r\nx";

/// The replies to both once they are whole.
const REPLIES: &[u8] =
    b"HTTP/1.1 200 OK\r\ncontent-length: 7\r\nDate: Thu, 01 Jan 1970 00:00:00 GMT\r\n\
        Connection: keep-alive\r\n\r\nGET /a\n\
        HTTP/1.1 200 OK\r\ncontent-length: 10\r\nDate: Thu, 01 Jan 1970 00:00:00 GMT\r\n\
        Connection: keep-alive\r\n\r\nPOST /b\nxy";

const ROWS: &[Row<'static>] = &[
    Row {
        shows: "the link is shut after a reply that is not kept",
        server: ECHO,
        steps: &[
            Give(b"GET /a HTTP/1.1\r\nConnection: close\r\n"),
            Waits(Waiting::Read),
            IsShut(false),
            Give(b"\r\n"),
            EndsLater(End::NotKept),
            IsShut(true),
            Exchanges(1),
            WroteLen(101),
        ],
    },
    Row {
        shows: "the link stays open where no request came",
        server: ECHO,
        steps: &[NoMore, Ends(End::Finished), IsShut(false)],
    },
    Row {
        shows: "requests in one piece are replied to in order",
        server: ECHO,
        steps: &[
            Give(b"GET /a HTTP/1.1\r\n\r\nGET /b HTTP/1.1\r\n\r\n"),
            NoMore,
            Ends(End::Finished),
            IsShut(false),
            Exchanges(2),
            Counts(0, 106, 0),
            Counts(1, 106, 0),
            WroteLast(b"GET /b\n"),
            WroteLen(212),
            Flushed(212),
        ],
    },
    Row {
        shows: "exchanges that are kept are counted and told",
        server: ECHO,
        steps: &[
            Give(LACKING),
            Waits(Waiting::Read),
            Exchanges(2),
            Counts(0, 106, 0),
            Counts(1, 0, 1),
            Give(b"y"),
            NoMore,
            Ends(End::Finished),
            Exchanges(2),
            Counts(1, 110, 2),
            Wrote(REPLIES),
            WroteLen(216),
        ],
    },
    Row {
        shows: "exchanges that are forgotten are counted and replied to alike",
        server: Server {
            history: History::Forgotten,
            ..ECHO
        },
        steps: &[
            Give(LACKING),
            Waits(Waiting::Read),
            Exchanges(2),
            Counts(0, 0, 0),
            Counts(1, 0, 0),
            Give(b"y"),
            NoMore,
            Ends(End::Finished),
            Exchanges(2),
            Counts(1, 0, 0),
            Wrote(REPLIES),
            WroteLen(216),
        ],
    },
    Row {
        shows: "requests byte by byte are replied to as in one piece",
        server: ECHO,
        steps: &[
            GiveEach(b"GET /a HTTP/1.1\r\n\r\nGET /b HTTP/1.1\r\n\r\n"),
            NoMore,
            Ends(End::Finished),
            Counts(0, 106, 0),
            Counts(1, 106, 0),
            Exchanges(2),
            WroteLen(212),
        ],
    },
    Row {
        shows: "a chunked body ends where the next request begins",
        server: ECHO,
        steps: &[
            Give(
                b"POST /p HTTP/1.1\r\nTransfer-Encoding: chunked\r\n\r\n3\r\nabc\r\n0\r\nX: y\r\n\r\n",
            ),
            Give(REQUEST),
            NoMore,
            Ends(End::Finished),
            Counts(0, 111, 3),
            Counts(1, 106, 0),
        ],
    },
    Row {
        shows: "the last request within the limit closes the connection",
        server: Server {
            limit: Some(2),
            ..ECHO
        },
        steps: &[
            Give(REQUEST),
            Give(REQUEST),
            Give(REQUEST),
            Give(REQUEST),
            Give(REQUEST),
            NoMore,
            Ends(End::NotKept),
            IsShut(true),
            Exchanges(3),
            Counts(0, 106, 0),
            Counts(1, 106, 0),
            Counts(2, 101, 0),
            WroteLen(313),
        ],
    },
    Row {
        shows: "bytes after a request end a connection without pipelining",
        server: ECHO,
        steps: &[
            Give(b"GET /nopipe HTTP/1.1\r\n\r\nGET /a HTTP/1.1\r\n\r\n"),
            NoMore,
            Ends(End::Overread),
            Ends(End::Overread),
            IsShut(false),
            Exchanges(1),
            WroteLen(112),
        ],
    },
    Row {
        shows: "a request after the reply needs no pipelining",
        server: ECHO,
        steps: &[
            Give(b"GET /nopipe HTTP/1.1\r\n\r\n"),
            Waits(Waiting::Read),
            Give(REQUEST),
            NoMore,
            Ends(End::Finished),
            Exchanges(2),
            WroteLen(218),
        ],
    },
    Row {
        shows: "no request is read after a short reply",
        server: ECHO,
        steps: &[
            Give(b"GET /short HTTP/1.1\r\n\r\nGET /a HTTP/1.1\r\n\r\n"),
            NoMore,
            Fails(ErrorType::PrematureBodyEnd),
            IsShut(false),
            Exchanges(1),
            WroteLen(111),
        ],
    },
    Row {
        shows: "a reply without a length is the last",
        server: ECHO,
        steps: &[
            Give(b"GET /until HTTP/1.1\r\n\r\nGET /a HTTP/1.1\r\n\r\n"),
            Ends(End::NotKept),
            IsShut(true),
            Exchanges(1),
            WroteLen(91),
        ],
    },
    Row {
        shows: "a head that becomes whole in a shutdown is the last",
        server: ECHO,
        steps: &[
            Give(b"GET /a HTTP/1.1\r\n\r\nGET /"),
            Waits(Waiting::Read),
            Give(b"a HTTP/1.1\r\n\r\nGET /a HTTP/1.1\r\n\r\n"),
            EndsInShutdown(End::NotKept),
            IsShut(true),
            Exchanges(2),
            Counts(0, 106, 0),
            Counts(1, 101, 0),
        ],
    },
    Row {
        shows: "what is left of a body is drained before the next head",
        server: Server {
            app: App::Refuses(0),
            ..ECHO
        },
        steps: &[
            Give(CUT_BODY),
            Waits(Waiting::Read),
            Exchanges(1),
            Counts(0, 108, 2),
            Give(b"cGET /a HTTP/1.1\r\n\r\n"),
            NoMore,
            Ends(End::Finished),
            Exchanges(2),
            Counts(0, 108, 3),
            Counts(1, 108, 0),
            WroteLen(216),
        ],
    },
];

#[test]
fn requests_are_read_and_replied_to(rt: HostRuntime) {
    play_all(&rt, ROWS);
}

/// A request of 1,048,575 bytes.
const LONG: Row<'static> = Row {
    shows: "long head by bytes",
    server: ECHO,
    steps: &[
        GiveEach(b"GET /a HTTP/1.1\r\nx: "),
        GiveOften(b'a', 1_048_551),
        GiveEach(b"\r\n\r\n"),
        NoMore,
        Ends(End::Finished),
        Exchanges(1),
        WroteLen(106),
    ],
};

#[test]
fn long_head_by_bytes(rt: HostRuntime) {
    play(&rt, &LONG);
}
