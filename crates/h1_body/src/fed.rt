//! What a reader of bodies answers (RFC 9112, section 6).
ghost use Rattle.std.specs.Prelude.{◌≡◌};
ghost use Rattle.h1_body.specs.Feeds.{fed_of};

use bytes::Bytes;
use std::ops::Range;

/// What one call of a reader made of a piece of bytes.
#[derive(Debug, PartialEq, Drop)]
pub struct Fed {
    /// Where the payload stands in the piece. It ends where the bytes used end.
    pub payload: Range<usize>,
    /// How many bytes of the piece belong to the body.
    pub used: usize,
    /// The state of all bytes used so far.
    pub state: FeedState,
}

impl Fed {
    /// All bytes through the end of the payload were used.
    pub(crate) fn of(start: usize, end: usize, state: FeedState) -> Self
        ensures { result ≡ fed_of start end state }
    {
        Fed {
            payload: start..end,
            used: end,
            state,
        }
    }
}

/// What was taken of a body out of received bytes.
#[derive(Debug, Drop)]
pub struct Taken {
    /// The payload, or None where no byte of it came.
    pub payload: Option<Bytes>,
    /// The state of all bytes used so far.
    pub state: FeedState,
}

/// How far a body has come.
#[derive(Clone, Copy, Debug, PartialEq, Eq, Hash)]
pub enum FeedState {
    /// The body isn't at its end.
    More,
    /// The body is at its end.
    Done,
    /// The bytes used begin no body.
    Broken,
}
