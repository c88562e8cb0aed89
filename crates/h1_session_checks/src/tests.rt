//! Sessions over a link in memory, call by call: each test is a list of steps. All moments are
//! milliseconds. None of the functions here promises anything: an expectation that isn't met ends
//! the test.
mod bodies;
mod calls;
mod exchange;
mod facts;
mod heads;
mod peer;
mod pieces;
mod play;
mod reads;
mod reuse;
mod setting;
mod steps;

use h1_error::ErrorType;
use h1_link::MemLink;
use h1_server::HttpSession;
use std::marker::Model;
use std::process::Abort;

const GET: &[u8] = b"GET / HTTP/1.1\r\n\r\n";

/// A head of 38 bytes, and its body.
const COUNTED: &[u8] = b"POST / HTTP/1.1\r\nContent-Length: 5\r\n\r\nabcde";

/// A head of 47 bytes, and its body.
const CHUNKED: &[u8] = b"POST / HTTP/1.1\r\nTransfer-Encoding: chunked\r\n\r\n0\r\n\r\n";

/// Sun, 06 Nov 1994 08:49:37 GMT.
const NOW: u64 = 784_111_777_000;

/// The last moment of the year 9999.
const LAST: u64 = 253_402_300_799_999;

/// A session over a link in memory. Contracts see nothing of it: a test would carry what they say
/// from call to call, and needs none of it. For short proofs a function makes one long call of the
/// session at most, and what fails ends the test, since an early return drops the session.
#[derive(Drop)]
struct Timed<'a> {
    session: HttpSession<MemLink, u32>,
    /// What the peer is still to send.
    rest: &'a [u8],
    /// The number of the step that is played.
    step: usize,
}

impl<'a> Model for Timed<'a> {
    ghost Value = { Unit {0} };

    ghost view = { λ _. tt };
}

/// A session whose peer is to send these bytes.
fn session_of<'a>(rt: &(impl Abort + AllocGlobal), rest: &'a [u8]) -> Timed<'a> {
    match HttpSession::new(rt.alloc(), MemLink::new(rt.alloc())) {
        Ok(session) => Timed {
            session,
            rest,
            step: 0,
        },
        Err(_) => panic!(rt; "no memory for a session"),
    }
}

/// What a call tells.
#[derive(Clone, Copy, Debug, PartialEq, Eq)]
enum Told {
    /// It waits.
    Waits,
    /// It did what was asked.
    Done,
    /// It did what was asked with so many bytes: those of the head or of the payload that it read,
    /// of the piece that it took, or of all pieces that the reply's body has at its end.
    Gives(usize),
    /// The link can't serve the next request.
    Refused,
    /// No head was begun in time.
    Idle,
    /// The peer closed before a head.
    Closed,
    Fails(ErrorType),
    /// There is no piece that could go on, or none is admitted.
    Nothing,
}

const READ_LATE: Told = Told::Fails(ErrorType::ReadTimedout);

const WRITE_LATE: Told = Told::Fails(ErrorType::WriteTimedout);
