//! A link that fails.
use crate::tests::play::Step::*;
use crate::tests::play::{Row, play, play_all};
use crate::tests::served::{App, ECHO, Server};
use crate::tests::{CUT_BODY, REFUSED, REPLY, REQUEST};
use h1_app::{Error, ErrorType, Waiting};
use std::process::Abort;

/// An application that refuses each request at once.
const REFUSES: Server<'static> = Server {
    app: App::Refuses(0),
    ..ECHO
};

const READ_ERROR: Error = Error {
    kind: ErrorType::ReadError,
    retry: false,
};

const ROWS: &[Row<'static>] = &[
    Row {
        shows: "a link that ends inside a drain ends the connection",
        server: REFUSES,
        steps: &[
            Give(CUT_BODY),
            NoMore,
            Fails(ErrorType::ConnectionClosed),
            Counts(0, 108, 2),
        ],
    },
    Row {
        shows: "a read that fails in a head ends the connection",
        server: ECHO,
        steps: &[
            Give(b"GET /a HT"),
            Waits(Waiting::Read),
            ReadFails,
            Fails(ErrorType::ReadError),
            Fails(ErrorType::ReadError),
            Wrote(b""),
            BodyError(0, None),
            IsShut(false),
        ],
    },
    Row {
        shows: "a read that fails in a body ends the connection",
        server: ECHO,
        steps: &[
            Give(CUT_BODY),
            Waits(Waiting::Read),
            ReadFails,
            Fails(ErrorType::ReadError),
            Fails(ErrorType::ReadError),
            Wrote(REFUSED),
            BodyError(0, Some(READ_ERROR)),
            IsShut(false),
        ],
    },
    Row {
        shows: "a drain that fails ends the connection after its reply",
        server: REFUSES,
        steps: &[
            Give(CUT_BODY),
            Waits(Waiting::Read),
            ReadFails,
            Fails(ErrorType::ReadError),
            WroteLen(108),
        ],
    },
];

#[test]
fn a_link_that_fails_ends_the_connection(rt: HostRuntime) {
    play_all(&rt, ROWS);
}

/// A write fails behind these bytes.
fn fail_behind(rt: &(impl Abort + AllocGlobal), sent: &[u8]) {
    let row = Row {
        shows: "a write that fails ends the connection",
        server: ECHO,
        steps: &[
            Give(REQUEST),
            Room(sent.len() as u64),
            Waits(Waiting::Write),
            WriteFails,
            Fails(ErrorType::WriteError),
            Fails(ErrorType::WriteError),
            Wrote(sent),
            IsShut(false),
        ],
    };
    play(rt, &row);
}

#[test]
fn a_write_that_fails_ends_the_connection(rt: HostRuntime) {
    for taken in 0..REPLY.len() {
        fail_behind(&rt, &REPLY[..taken]);
    }
}
