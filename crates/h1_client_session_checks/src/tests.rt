//! Sessions over a link in memory. All moments are milliseconds. None of the functions here
//! promises anything: an expectation that isn't met ends the test.
mod answers;
mod asking;
mod calls;
mod deadlines;
mod exchange;
mod keeping;
mod pooling;
mod probing;
mod releasing;
mod tasks;
mod upgrading;

use h1_client::v1::HttpSession;
use h1_error::ErrorType;
use h1_link::MemLink;
use std::marker::Model;

/// A session over a link in memory, and what it read. Contracts see nothing of it: a test would
/// carry what they say from call to call, and needs none of it. For short proofs a function makes
/// one long call of the session at most, and what fails ends the test, since an early return drops
/// the session.
#[derive(Drop)]
struct Client {
    session: HttpSession<MemLink>,
    /// The statuses that were read, one behind another.
    statuses: Vec<u16>,
    payload: Vec<u8>,
    /// The last refusal.
    fault: Option<Fault>,
}

impl Model for Client {
    ghost Value = { Unit {0} };

    ghost view = { λ _. tt };
}

/// Why a call was refused.
#[derive(Clone, Copy, Debug, PartialEq, Eq)]
struct Fault {
    kind: ErrorType,
    /// Whether the request may be sent again.
    retry: bool,
}

/// What a call tells.
#[derive(Clone, Copy, Debug, PartialEq, Eq)]
enum Told {
    /// It waits.
    Waits,
    /// It did what was asked with so many bytes: those of the head, or of the payload that it read
    /// or took.
    Gives(usize),
    /// There is nothing more.
    Done,
    Fails(ErrorType),
}

/// What came of an exchange.
#[derive(Clone, Copy, Debug, PartialEq, Eq)]
enum End {
    /// The body was read to its end, and the link is kept.
    Kept,
    /// The body was read to its end, and the link isn't kept.
    Closed,
    /// The session waits for its link.
    Waits,
    /// A call was refused for this, with this word on a retry.
    Fails(ErrorType, bool),
}
