//! A source of bytes that is read to its end.
ghost use Rattle.std.specs.Prelude.{◌≡◌, ◌<◌, length};
ghost use Rattle.h1_link.specs.SourceState.{SourceState, FitsBuffer, after_source_read};

/// What a read of a source answers.
#[derive(Clone, Copy, Debug, PartialEq, Eq, Hash)]
pub enum SourceStep {
    /// That many bytes stand at the front of the buffer. None is an end.
    Got(usize),
    /// The source has no further byte.
    End,
    /// The source failed.
    Failed,
}

/// A source of bytes, which may block.
///
/// Contracts see it by its `state`. What its owner has set stays in each call, which `same_plan`
/// says of two moments.
pub trait Source {
    ghost state: { Self → SourceState };

    ghost same_plan: { Self → Self → Type 0 };

    /// Reads into a buffer that has room.
    fn read(&mut self, buf: &mut [u8]) -> SourceStep
        requires { 0 < length buf.old }
        ensures fits { FitsBuffer buf.new result }
        ensures state { state self.new ≡ after_source_read (state self.old) buf.new result }
        ensures plan { same_plan self.old self.new };

    ghost plan_itself: { (source : Self) → same_plan source source };

    ghost plan_on: { (a b c : Self) → same_plan a b → same_plan b c → same_plan a c };
}
