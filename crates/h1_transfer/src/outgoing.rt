//! Where the writing of a message stands: of a server's reply, or of a client's request.
ghost use Rattle.std.specs.Prelude.{◌≡◌};
ghost use Rattle.h1_transfer.specs.Fresh.{no_reply};

use crate::Owed;
use h1_body::BodyWriter;
use h1_error::Error;
use std::alloc::Global;

/// The write that is in progress: bytes are owed, or after them a flush.
#[derive(Clone, Copy, Debug, PartialEq, Eq)]
pub enum Step {
    Free,
    Head,
    /// A piece of the body, with the count that its call answers.
    Piece(Option<usize>),
    Finish,
}

/// Where the writing of a message stands: of a server's reply, or of a client's request.
#[derive(Drop)]
pub struct Outgoing {
    pub step: Step,
    /// What was taken up and isn't written yet.
    pub owed: Owed,
    pub writer: BodyWriter,
    /// A head was taken up that is not an interim one.
    pub headed: bool,
    /// The refusal that each later write answers.
    pub refused: Option<Error>,
    /// How many bytes of the message were written; it stops at 2^64 - 1.
    pub sent: u64,
    /// The length in bytes of the piece that was handed in last.
    pub handed: usize,
    /// Since when the piece that is being written waits for the link, in milliseconds.
    pub write_since: Option<u64>,
}

impl Outgoing {
    /// Before a message.
    pub fn new(alloc: Global) -> Self
        ensures { result ≡ no_reply }
    {
        Outgoing {
            step: Step::Free,
            owed: Owed::new(alloc),
            writer: BodyWriter::new(),
            headed: false,
            refused: None,
            sent: 0,
            handed: 0,
            write_since: None,
        }
    }

    /// Begins with the next message.
    #[inline(always)]
    pub fn start_over(&mut self)
        ensures { self.new ≡ no_reply }
    {
        self.step = Step::Free;
        self.owed.clear();
        self.writer = BodyWriter::new();
        self.headed = false;
        self.refused = None;
        self.sent = 0;
        self.handed = 0;
        self.write_since = None;
    }
}
