//! A sink of bytes.
ghost use Rattle.std.specs.Prelude.{◌≡◌};
ghost use Rattle.h1_link.specs.SinkState.{SinkState, FitsPiece, after_sink_write, after_sink_flush};

/// What a write to a sink answers.
#[derive(Clone, Copy, Debug, PartialEq, Eq, Hash)]
pub enum SinkStep {
    /// That many bytes were taken from the front of the piece. None of a nonempty piece is a fault.
    Took(usize),
    /// The sink failed.
    Failed,
    /// The sink had no memory.
    NoMemory,
}

/// A sink of bytes, which may block. Contracts see it by its `state`: the bytes that it took, where
/// it tells them, whether all of them were flushed, and how many calls failed.
pub trait Sink {
    ghost state: { Self → SinkState };

    /// Hands in a piece, of which a front is taken.
    fn write(&mut self, piece: &[u8]) -> SinkStep
        ensures fits { FitsPiece piece.now result }
        ensures state { state self.new ≡ after_sink_write (state self.old) piece.now result };

    /// Asks that all taken bytes be sent on. False is a fault.
    fn flush(&mut self) -> bool
        ensures state { state self.new ≡ after_sink_flush (state self.old) result };
}
