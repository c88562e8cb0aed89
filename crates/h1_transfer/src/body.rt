//! Where the reading of a body stands.
ghost use Rattle.h1_transfer.specs.Fresh.{IsNoBody};

use crate::{Kept, Since};
use h1_body::{BodyReader, Framing};
use h1_error::Error;
use std::alloc::Global;

/// Where the reading of a body stands.
#[derive(Drop)]
pub struct BodyState {
    pub reader: BodyReader,
    /// What was read of it, where a caller keeps that. One that is handed in again brings along what
    /// was read before.
    pub kept: Kept,
    /// The refusal that each later read of the body answers.
    pub refused: Option<Error>,
    /// A read was pending since this was last asked.
    pub waits: bool,
    /// Since when the read in progress waits.
    pub since: Since,
}

impl BodyState {
    /// Before a message.
    pub fn new(alloc: Global) -> Self
        ensures { IsNoBody result }
    {
        BodyState {
            reader: BodyReader::new(Framing::Counted(0)),
            kept: Kept::new(alloc),
            refused: None,
            waits: false,
            since: Since::new(),
        }
    }

    /// Begins with the next message.
    #[inline(always)]
    pub(crate) fn start_over(&mut self)
        ensures { IsNoBody self.new }
    {
        self.reader = BodyReader::new(Framing::Counted(0));
        self.kept.stop();
        self.refused = None;
        self.waits = false;
        self.since = Since::new();
    }
}
