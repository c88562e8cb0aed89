//! A link: the two-way stream of bytes that a connection runs over (RFC 9112, section 9).
ghost use Rattle.std.specs.Prelude.{◌≡◌, ◌<◌, length};
ghost use Rattle.h1_link.specs.LinkState.{LinkState};
ghost use Rattle.h1_link.specs.Steps.{FitsRead, FitsWrite, after_read, after_write};
ghost use Rattle.h1_link.specs.Steps.{after_flush, after_shutdown};

/// What a read answers.
#[derive(Clone, Copy, Debug, PartialEq, Eq, Hash)]
pub enum ReadStep {
    /// That many bytes stand at the front of the buffer; at least one.
    Got(usize),
    /// The peer sends no further byte.
    End,
    /// No byte is there yet.
    NotReady,
    /// The link failed.
    Failed,
    /// The link had no memory.
    NoMemory,
}

/// What a write answers.
#[derive(Clone, Copy, Debug, PartialEq, Eq, Hash)]
pub enum WriteStep {
    /// That many bytes were taken from the front of the piece. None of a nonempty piece is a fault.
    Took(usize),
    /// No byte can be taken yet.
    NotReady,
    /// The link failed.
    Failed,
    /// The link had no memory.
    NoMemory,
}

/// What a flush answers.
#[derive(Clone, Copy, Debug, PartialEq, Eq, Hash)]
pub enum FlushStep {
    /// All that was taken is on its way.
    Done,
    /// The flush isn't finished yet.
    NotReady,
    /// The link failed.
    Failed,
}

/// A two-way stream of bytes that never blocks.
///
/// Contracts see a link by its `state`: the bytes that it gave and took, where it tells them, and
/// counts that never fall. Each call adds one to `moves` where it moved a byte, and else one to
/// `others`; faults and waits are counted besides. A shutdown is marked, and the mark stays.
///
/// What the link's owner has set, as bytes put ahead of a link in memory,
/// every call of the trait leaves as it is; `same_plan` says so of two moments.
pub trait Link {
    ghost state: { Self → LinkState };

    ghost same_plan: { Self → Self → Type 0 };

    /// Reads into a buffer that has room.
    fn poll_read(&mut self, buf: &mut [u8]) -> ReadStep
        requires { 0 < length buf.old }
        ensures fits { FitsRead buf.new result }
        ensures state { state self.new ≡ after_read (state self.old) buf.new result }
        ensures plan { same_plan self.old self.new };

    /// Hands in a piece, of which a front is taken.
    fn poll_write(&mut self, piece: &[u8]) -> WriteStep
        ensures fits { FitsWrite piece.now result }
        ensures state { state self.new ≡ after_write (state self.old) piece.now result }
        ensures plan { same_plan self.old self.new };

    /// Asks that all taken bytes be sent.
    fn poll_flush(&mut self) -> FlushStep
        ensures state { state self.new ≡ after_flush (state self.old) result }
        ensures plan { same_plan self.old self.new };

    /// Closes the stream for both sides, once what was taken is sent as far as that can be waited
    /// for.
    ///
    /// The owner of a link whose connection is over calls it, whatever the end was. Where a
    /// connection isn't kept alive its session has called it by then; it may be called again, and a
    /// further call closes nothing further.
    fn shutdown(&mut self)
        ensures state { state self.new ≡ after_shutdown (state self.old) }
        ensures plan { same_plan self.old self.new };

    ghost plan_itself: { (link : Self) → same_plan link link };

    ghost plan_on: { (a b c : Self) → same_plan a b → same_plan b c → same_plan a c };
}
