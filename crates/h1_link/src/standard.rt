//! The runtime's standard input and output.
ghost use Rattle.std.specs.Prelude.{◌≡◌, None, true, false};

use crate::memory::raise;
use crate::sink::{Sink, SinkStep};
use crate::source::{Source, SourceStep};
use std::io::Read;
use std::marker::Model;

/// The runtime's standard input, which tells no bytes.
#[derive(Drop)]
pub struct StdSource<R: Input> {
    reader: R::Reader,
    ended: bool,
    faults: u64,
}

impl<R: Input> Model for StdSource<R> {
    ghost use Rattle.std.specs.Prelude.{None};
    ghost use Rattle.h1_link.specs.SourceState.{SourceState};

    ghost Value = { SourceState };

    ghost view = { λ s. record { given = None; ended = s.ended; faults = s.faults } };
}

impl<R: Input> StdSource<R> {
    /// The standard input of this runtime.
    pub fn new(rt: &R) -> Self
        ensures { result ≡ record { given = None; ended = false; faults = 0 } }
    {
        StdSource {
            reader: rt.reader(),
            ended: false,
            faults: 0,
        }
    }
}

impl<R: Input> Source for StdSource<R> {
    ghost state = { λ source. source };

    ghost same_plan = { λ _ _. Unit {0} };

    fn read(&mut self, buf: &mut [u8]) -> SourceStep {
        match self.reader.read(buf) {
            Ok(0) => {
                self.ended = true;
                SourceStep::End
            }
            Ok(count) => SourceStep::Got(count),
            Err(_) => {
                self.faults = raise(self.faults);
                SourceStep::Failed
            }
        }
    }

    ghost plan_itself = { λ _. tt };

    ghost plan_on = { λ _ _ _ _ _. tt };
}

/// The runtime's standard output, which tells no bytes.
#[derive(Drop)]
pub struct StdSink<R: Print + Drop> {
    rt: R,
    flushed: bool,
    faults: u64,
}

impl<R: Print + Drop> Model for StdSink<R> {
    ghost use Rattle.std.specs.Prelude.{None};
    ghost use Rattle.h1_link.specs.SinkState.{SinkState};

    ghost Value = { SinkState };

    ghost view = { λ s. record { taken = None; flushed = s.flushed; faults = s.faults } };
}

impl<R: Print + Drop> StdSink<R> {
    /// The standard output of this runtime.
    pub fn new(rt: R) -> Self
        ensures { result ≡ record { taken = None; flushed = true; faults = 0 } }
    {
        StdSink {
            rt,
            flushed: true,
            faults: 0,
        }
    }
}

impl<R: Print + Drop> Sink for StdSink<R> {
    ghost state = { λ sink. sink };

    fn write(&mut self, piece: &[u8]) -> SinkStep {
        match self.rt.write_some(piece) {
            Ok(0) if !piece.is_empty() => {
                self.faults = raise(self.faults);
                SinkStep::Failed
            }
            Ok(0) => SinkStep::Took(0),
            Ok(count) => {
                self.flushed = false;
                SinkStep::Took(count)
            }
            Err(_) => {
                self.faults = raise(self.faults);
                SinkStep::Failed
            }
        }
    }

    fn flush(&mut self) -> bool {
        // The runtime keeps no written byte back.
        self.flushed = true;
        true
    }
}
