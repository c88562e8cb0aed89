//! A link that gives one response for each request, and keeps no byte.
ghost use Rattle.std.specs.Prelude.{◌≡◌, ◌<◌, length};
ghost use Rattle.h1_link.specs.LinkState.{fresh_state};
ghost use Rattle.h1_link.specs.Steps.{FitsRead};

use h1_link::{FlushStep, Link, ReadStep, Tally, WriteStep};
use std::marker::Model;

/// Gives so many copies of its input, each behind a write, and takes all that is written.
#[derive(Drop)]
pub(crate) struct Flow {
    input: Vec<u8>,
    /// How many bytes of this copy were given.
    at: usize,
    /// How many copies are to be given, with this one.
    copies: usize,
    /// A copy is due, since bytes were written.
    is_due: bool,
    tally: Tally,
}

impl Model for Flow {
    ghost use Rattle.h1_link.specs.LinkState.{LinkState};

    ghost Value = { LinkState };

    ghost view = { λ f. f.tally };
}

impl Flow {
    pub(crate) fn new(input: Vec<u8>, copies: usize) -> Self
        ensures { result ≡ fresh_state }
    {
        Flow {
            input,
            at: 0,
            copies,
            is_due: false,
            tally: Tally::new(),
        }
    }

    /// Gives bytes of this copy, as many as there is room for.
    fn give(&mut self, buf: &mut [u8]) -> ReadStep
        requires { 0 < length buf.old }
        ensures fits { FitsRead buf.new result }
        ensures state { self.new ≡ self.old }
    {
        if !self.is_due || self.copies == 0 || self.input.len() <= self.at {
            return ReadStep::NotReady;
        }
        let rest = &self.input[self.at..];
        let count = rest.len().min(buf.len());
        buf[..count].copy_from_slice(&rest[..count]);
        self.at += count;
        if self.at == self.input.len() {
            self.at = 0;
            self.copies -= 1;
            self.is_due = false;
        }
        ReadStep::Got(count)
    }
}

impl Link for Flow {
    ghost state = { λ flow. flow };

    ghost same_plan = { λ _ _. Unit {0} };

    fn poll_read(&mut self, buf: &mut [u8]) -> ReadStep {
        let step = self.give(buf);
        self.tally.count_read(buf, step);
        step
    }

    fn poll_write(&mut self, piece: &[u8]) -> WriteStep {
        let step = WriteStep::Took(piece.len());
        self.is_due = true;
        self.tally.count_write(piece, step);
        step
    }

    fn poll_flush(&mut self) -> FlushStep {
        self.tally.count_flush(FlushStep::Done);
        FlushStep::Done
    }

    fn shutdown(&mut self) {
        self.tally.count_shutdown();
    }

    ghost plan_itself = { λ _. tt };

    ghost plan_on = { λ _ _ _ _ _. tt };
}
