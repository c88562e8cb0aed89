//! A link that gives fixed bytes and keeps nothing.
ghost use Rattle.std.specs.Prelude.{◌≡◌, ◌<◌, length, take, IfOk, IfErr, Some, false};
ghost use Rattle.h1_link.specs.LinkState.{fresh_state};
ghost use Rattle.h1_link.specs.DummyState.{DummyState, DummyRule, SameBytes, dummy_state_of};
ghost use Rattle.h1_link.specs.DummyState.{bytes_itself, bytes_on, dummy_read_answer};
ghost use Rattle.h1_link.specs.Steps.{FitsRead, FitsWrite, after_read, after_write};
ghost use Rattle.h1_link.specs.Steps.{after_flush, after_shutdown};

use crate::link::{FlushStep, Link, ReadStep, WriteStep};
use crate::memory::ahead::copy_ahead;
use crate::memory::tally::Tally;
use h1_error::{Error, ErrorType};
use std::alloc::Global;
use std::marker::Model;

/// A link whose reads give fixed bytes and then wait for ever, and whose writes take all and keep
/// nothing.
#[derive(Drop)]
pub struct DummyIO {
    bytes: Vec<u8>,
    next: usize,
    tally: Tally,
}

impl Model for DummyIO {
    ghost use Rattle.h1_link.specs.DummyState.{DummyState, DummyRule, dummy_state_of};

    ghost Value = { DummyState };

    ghost view = { λ d. dummy_state_of d.tally d.bytes.items d.next };

    ghost invariant = { λ d. DummyRule (dummy_state_of d.tally d.bytes.items d.next) };
}

impl DummyIO {
    /// A link whose reads give these bytes.
    pub fn new(alloc: Global, read_bytes: &[u8]) -> Result<Self, Error>
        ensures ok { IfOk result (λ link. link ≡ dummy_state_of fresh_state read_bytes.now 0) }
        ensures no_memory { IfErr result (λ error.
            error ≡ record { kind = ErrorType.NoMemory; retry = false }) }
    {
        Ok(DummyIO {
            bytes: Vec::from_slice(alloc, read_bytes)?,
            next: 0,
            tally: Tally::new(),
        })
    }

    /// Tells a proof what holds of every such link.
    pub fn rule(&self)
        ensures { DummyRule self.now }
    {
        let _ = &self.next;
    }
}

impl Link for DummyIO {
    ghost state = { λ link. link.state };

    ghost same_plan = { SameBytes };

    fn poll_read(&mut self, buf: &mut [u8]) -> ReadStep
        requires { 0 < length buf.old }
        ensures fits { FitsRead buf.new result }
        ensures answer { result ≡ dummy_read_answer self.old (length buf.old) }
        ensures state { self.new.state ≡ after_read self.old.state buf.new result }
        ensures plan { SameBytes self.old self.new }
    {
        if self.next == self.bytes.len() {
            self.tally.count_read(buf, ReadStep::NotReady);
            return ReadStep::NotReady;
        }
        let count = copy_ahead(&self.bytes, self.next, buf);
        self.next += count;
        self.tally.count_read(buf, ReadStep::Got(count));
        ReadStep::Got(count)
    }

    fn poll_write(&mut self, piece: &[u8]) -> WriteStep
        ensures fits { FitsWrite piece.now result }
        ensures answer { result ≡ WriteStep.Took (length piece.now) }
        ensures state { self.new.state ≡ after_write self.old.state piece.now result }
        ensures plan { SameBytes self.old self.new }
    {
        let step = WriteStep::Took(piece.len());
        self.tally.count_write(piece, step);
        step
    }

    fn poll_flush(&mut self) -> FlushStep
        ensures answer { result ≡ FlushStep.Done }
        ensures state { self.new.state ≡ after_flush self.old.state result }
        ensures plan { SameBytes self.old self.new }
    {
        self.tally.count_flush(FlushStep::Done);
        FlushStep::Done
    }

    fn shutdown(&mut self) {
        self.tally.count_shutdown();
    }

    ghost plan_itself = { bytes_itself };

    ghost plan_on = { bytes_on };
}
