//! A sink in memory.
ghost use Rattle.std.specs.Prelude.{◌≡◌, ◌⊎◌, length, Some, true, false, not};
ghost use Rattle.h1_link.specs.MemSink.{MemSinkState, mem_sink_of, new_mem_sink, sink_answer};
ghost use Rattle.h1_link.specs.SinkState.{FitsPiece, after_sink_write, after_sink_flush};

use crate::memory::counts::raise;
use crate::sink::{Sink, SinkStep};
use std::alloc::Global;
use std::marker::Model;

/// A sink in memory, which keeps all that it is given.
#[derive(Drop)]
pub struct MemSink {
    written: Vec<u8>,
    flushed: bool,
    fault: bool,
    faults: u64,
}

impl Model for MemSink {
    ghost Value = { MemSinkState };

    ghost view = { λ s. mem_sink_of s.written.items s.flushed s.faults s.fault };
}

impl MemSink {
    /// A sink that took nothing.
    pub fn new(alloc: Global) -> Self
        ensures { result ≡ new_mem_sink }
    {
        MemSink {
            written: Vec::new(alloc),
            flushed: true,
            fault: false,
            faults: 0,
        }
    }

    /// The bytes that writes took.
    pub fn written(&self) -> &[u8]
        ensures { self.now.state.taken ≡ Some result.now }
    {
        &self.written
    }

    /// Whether all that writes took was flushed.
    pub fn is_flushed(&self) -> bool
        ensures { result ≡ self.now.state.flushed }
    {
        self.flushed
    }

    /// Lets the next write or flush fail.
    pub fn fail_next(&mut self)
        ensures { self.new ≡ record self.old { fault = true } }
    {
        self.fault = true;
    }
}

impl Sink for MemSink {
    ghost state = { λ sink. sink.state };

    fn write(&mut self, piece: &[u8]) -> SinkStep
        ensures fits { FitsPiece piece.now result }
        ensures answer { (result ≡ SinkStep.NoMemory)
            ⊎ (result ≡ sink_answer self.old (length piece.now)) }
        ensures state { self.new.state ≡ after_sink_write self.old.state piece.now result }
        ensures met { self.new.fault ≡ false }
    {
        if self.fault {
            self.fault = false;
            self.faults = raise(self.faults);
            return SinkStep::Failed;
        }
        match self.written.extend_from_slice(piece) {
            Ok(()) => {
                if !piece.is_empty() {
                    self.flushed = false;
                }
                SinkStep::Took(piece.len())
            }
            Err(_) => SinkStep::NoMemory,
        }
    }

    fn flush(&mut self) -> bool
        ensures answer { result ≡ not self.old.fault }
        ensures state { self.new.state ≡ after_sink_flush self.old.state result }
        ensures met { self.new.fault ≡ false }
    {
        if self.fault {
            self.fault = false;
            self.faults = raise(self.faults);
            return false;
        }
        self.flushed = true;
        true
    }
}
