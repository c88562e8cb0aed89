//! How far the body of a subrequest's response is written.
ghost use Rattle.std.specs.Prelude.{◌≡◌, ◌+◌, ◌^◌, ◌-◌, ◌<◌, min};
ghost use Rattle.h1_subrequest.specs.Writing.{cut, done_passing, header_mode, is_final, mode_of};

use crate::passing::Passing;
use crate::upgrade::completes;
use bytes::Bytes;
use h1_body::{Framing, is_head_only, reply_framing};
use h1_head::{HttpTask, RequestHeader, ResponseHeader, is_interim};

/// How far a body is written. The last number is how many bytes of payload were put.
#[derive(Clone, Copy, Debug, PartialEq, Eq, Hash)]
pub enum BodyMode {
    /// No header was put yet, or only those behind which another comes.
    ToSelect,
    /// The first number is the length.
    ContentLength(usize, usize),
    /// The end of the sender ends the body.
    UntilClose(usize),
    /// The body was ended.
    Complete(usize),
}

impl BodyMode {
    /// A body of this framing that is not begun.
    fn of(framing: Framing) -> BodyMode
        ensures { result ≡ mode_of framing }
    {
        match framing {
            Framing::Counted(n) => BodyMode::ContentLength(n as usize, 0),
            Framing::Chunked | Framing::UntilClose => BodyMode::UntilClose(0),
        }
    }

    /// Behind a header of the response to this request.
    pub(crate) fn behind(self, request: &RequestHeader, header: &ResponseHeader) -> BodyMode
        ensures { result ≡ header_mode request.now header.now self }
    {
        if completes(request, header) {
            BodyMode::UntilClose(0)
        } else if is_final(header) {
            BodyMode::of(reply_framing(is_head_only(request.method()), header))
        } else {
            self
        }
    }

    /// What passes of a piece of payload, unless it is dropped, and how far the body is then.
    pub(crate) fn cut(self, mut piece: Bytes) -> Option<(Bytes, BodyMode)>
        ensures { result ≡ cut self piece }
    {
        match self {
            BodyMode::ContentLength(n, count) => {
                if count >= n {
                    return None;
                }
                let used = piece.len().min(n - count);
                piece.truncate(n - count);
                Some((piece, BodyMode::ContentLength(n, count + used)))
            }
            BodyMode::UntilClose(count) => {
                let count = count.saturating_add(piece.len());
                Some((piece, BodyMode::UntilClose(count)))
            }
            BodyMode::ToSelect | BodyMode::Complete(_) => None,
        }
    }

    /// What becomes of the body's end. It is dropped where no body is begun, where the body was
    /// ended, and where it is short of its length.
    pub(crate) fn done(self) -> Passing
        ensures { result ≡ done_passing self }
    {
        match self {
            BodyMode::ContentLength(n, count) if count < n => {
                Passing::Drops(BodyMode::Complete(count))
            }
            BodyMode::ContentLength(_, count) | BodyMode::UntilClose(count) => {
                Passing::Passes(HttpTask::Done, BodyMode::Complete(count))
            }
            BodyMode::ToSelect | BodyMode::Complete(_) => Passing::Drops(self),
        }
    }
}

/// Whether the body comes behind this header.
fn is_final(header: &ResponseHeader) -> bool
    ensures { result ≡ is_final header.now }
{
    !(is_interim(header.status()) || header.status() == 101)
}
