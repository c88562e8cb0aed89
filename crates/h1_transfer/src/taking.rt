//! Taking payload out of the bytes that are received (RFC 9112, sections 6 and 7.1).
ghost use Rattle.std.specs.Prelude.{None};
ghost use Rattle.h1_transfer.specs.Taking.{TakesBody, IsJudged};

use crate::Kept;
use bytes::{Bytes, BytesMut};
use h1_body::{BodyReader, FeedState, Taken};
use h1_error::{Error, ErrorType};
use h1_head::Room;

/// What the bytes that are received give of a body.
#[derive(Drop)]
pub enum TakeStep {
    /// Payload, which is not empty. It keeps the block alive that it was received in, unless it is
    /// short and the first that is held: then it is a copy.
    Piece(Bytes),
    /// The body is at its end.
    Done,
    /// The bytes used begin no body.
    Broken,
    /// All received bytes are used, and the body goes on.
    Lacks,
    /// What comes next of the body goes past the limit of the payload that is kept of it. No byte is
    /// used.
    TooLarge,
}

/// Uses received bytes up to the end of a run of payload, the end of the body or the end of the
/// bytes.
#[tactic(auto, using(crate::proofs::BodyLemmas::uses_nothing))]
#[inline(always)]
pub fn take(
    received: &mut BytesMut,
    reader: &mut BodyReader,
    kept: &mut Kept,
    room: &mut Room,
) -> Result<TakeStep, Error>
    ensures { TakesBody received.old.items received.new.items reader.old reader.new kept.old
        kept.new result }
{
    // A body at its end takes no byte, so none is looked at.
    match reader.state() {
        FeedState::More => {}
        FeedState::Done => return Ok(TakeStep::Done),
        FeedState::Broken => return Ok(TakeStep::Broken),
    }
    match kept.take_payload(received, reader, room) {
        Ok(taken) => Ok(judge(taken)),
        Err(error) => match error.kind {
            ErrorType::ContentTooLarge => Ok(TakeStep::TooLarge),
            _ => Err(error),
        },
    }
}

/// What came of what was taken.
#[inline(always)]
fn judge(taken: Taken) -> TakeStep
    ensures { IsJudged taken.state taken.payload result }
{
    match taken.payload {
        Some(piece) => TakeStep::Piece(piece),
        None => stopped(taken.state),
    }
}

/// What came of a state where no payload came.
#[inline(always)]
fn stopped(state: FeedState) -> TakeStep
    ensures { IsJudged state None result }
{
    match state {
        FeedState::More => TakeStep::Lacks,
        FeedState::Done => TakeStep::Done,
        FeedState::Broken => TakeStep::Broken,
    }
}
