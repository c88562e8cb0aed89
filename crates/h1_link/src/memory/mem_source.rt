//! A source in memory.
ghost use Rattle.std.specs.Prelude.{◌≡◌, ◌<◌, length, Some, true, false, IfOk, IfErr};
ghost use Rattle.h1_link.specs.MemSource.{MemSourceState, SourceRule, SameSource, new_mem_source};
ghost use Rattle.h1_link.specs.MemSource.{source_answer, mem_after_source_read, source_itself, source_on};
ghost use Rattle.h1_link.specs.SourceState.{FitsBuffer, after_source_read};

use crate::memory::ahead::copy_ahead;
use crate::memory::counts::raise;
use crate::source::{Source, SourceStep};
use h1_error::{Error, ErrorType};
use std::alloc::Global;
use std::marker::Model;

/// A source in memory, which gives the bytes that it was made with and then ends.
#[derive(Drop)]
pub struct MemSource {
    bytes: Vec<u8>,
    next: usize,
    ended: bool,
    fault: bool,
    faults: u64,
}

impl Model for MemSource {
    ghost use Rattle.h1_link.specs.MemSource.{MemSourceState, SourceRule, mem_source_of};

    ghost Value = { MemSourceState };

    ghost view = { λ s. mem_source_of s.bytes.items s.next s.ended s.fault s.faults };

    ghost invariant = { λ s.
        SourceRule (mem_source_of s.bytes.items s.next s.ended s.fault s.faults) };
}

impl MemSource {
    /// A source of these bytes.
    pub fn new(alloc: Global, bytes: &[u8]) -> Result<Self, Error>
        ensures ok { IfOk result (λ source. source ≡ new_mem_source bytes.now) }
        ensures no_memory { IfErr result (λ error.
            error ≡ record { kind = ErrorType.NoMemory; retry = false }) }
    {
        Ok(MemSource {
            bytes: Vec::from_slice(alloc, bytes)?,
            next: 0,
            ended: false,
            fault: false,
            faults: 0,
        })
    }

    /// Lets the next read fail.
    pub fn fail_next(&mut self)
        ensures { self.new ≡ record self.old { fault = true } }
    {
        self.fault = true;
    }

    /// Tells a proof what holds of every source in memory.
    pub fn rule(&self)
        ensures { SourceRule self.now }
    {
        let _ = &self.faults;
    }
}

impl Source for MemSource {
    ghost state = { λ source. source.state };

    ghost same_plan = { SameSource };

    fn read(&mut self, buf: &mut [u8]) -> SourceStep
        requires { 0 < length buf.old }
        ensures fits { FitsBuffer buf.new result }
        ensures answer { result ≡ source_answer self.old (length buf.old) }
        ensures after { self.new ≡ mem_after_source_read self.old buf.new result }
        ensures state { self.new.state ≡ after_source_read self.old.state buf.new result }
        ensures plan { SameSource self.old self.new }
    {
        if self.fault {
            self.fault = false;
            self.faults = raise(self.faults);
            return SourceStep::Failed;
        }
        if self.next == self.bytes.len() {
            self.ended = true;
            return SourceStep::End;
        }
        let count = copy_ahead(&self.bytes, self.next, buf);
        self.next += count;
        SourceStep::Got(count)
    }

    ghost plan_itself = { source_itself };

    ghost plan_on = { source_on };
}
