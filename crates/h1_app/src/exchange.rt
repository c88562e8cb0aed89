//! Where an exchange stands, and what one step of it comes to.
use crate::Transcript;
use h1_error::{End, Error, Waiting};
use h1_link::Link;
use h1_server::HttpSession;

/// Where the exchange of a connection stands. `J` is the application's job.
#[derive(Drop)]
pub enum Stage<J> {
    /// A head is awaited.
    Head,
    /// The application runs.
    Answer(J),
    /// The reply is there, and its header is to be taken up.
    TakeHeader,
    /// The header is being written.
    Header,
    /// The header is written, and the body is to be taken up.
    TakeBody,
    /// The body is being written.
    Body,
    /// The end of the body is to be written and flushed.
    Finish,
    /// The rest of the request's body is to be read.
    Drain,
    /// The exchange is over, and the next one begins.
    Next,
}

/// What the steps of an exchange work on: the session, the exchanges so far, and the stage at which
/// the last of them stands.
#[derive(Drop)]
pub struct Exchange<L: Link + Drop, J: Drop, C: Drop> {
    pub session: HttpSession<L, C>,
    pub transcript: Transcript,
    pub stage: Stage<J>,
}

/// What one step of an exchange comes to.
#[derive(Clone, Copy, Debug, PartialEq, Eq)]
pub enum Outcome {
    /// The next stage goes on at once.
    Done,
    Waits(Waiting),
    Ends(End),
}
