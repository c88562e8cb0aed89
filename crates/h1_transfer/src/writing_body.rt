//! Taking up the pieces and the end of a body (RFC 9112, sections 6 and 7).
ghost use Rattle.std.specs.Prelude.{◌≡◌, None, Some};
ghost use Rattle.h1_transfer.specs.BodyWrites.{piece_count, IsEndStep, TakesUpPiece, TakesUpEnd};

use crate::{Outgoing, Step};
use bytes::Bytes;
use h1_body::BodyWriter;
use h1_error::Error;

/// Takes up the piece that is handed in, and says how much of it is taken, or None where none is
/// admitted any more.
#[inline(always)]
pub fn take_piece(outgoing: &mut Outgoing, buf: &mut Option<Bytes>) -> Option<usize>
    ensures out { buf.new ≡ None }
    ensures count { result ≡ piece_count outgoing.old buf.old }
    ensures takes { TakesUpPiece outgoing.old outgoing.new buf.old }
{
    let Some(payload) = buf.take() else {
        return count_at(outgoing.step);
    };
    let count = taken_count(&outgoing.writer, payload.as_slice());
    outgoing.handed = payload.len();
    let Ok(owed) = outgoing.writer.piece(payload) else {
        unreachable!()
    };
    outgoing.owed.put(owed);
    outgoing.step = Step::Piece(count);
    count
}

/// The count of the piece that is being written.
fn count_at(step: Step) -> Option<usize>
    ensures { (outgoing : Outgoing) → outgoing.step ≡ step → result ≡ piece_count outgoing None }
{
    match step {
        Step::Piece(count) => count,
        Step::Free => None,
        Step::Head => None,
        Step::Finish => None,
    }
}

/// How much of a piece is taken, or None where none is admitted any more.
fn taken_count(writer: &BodyWriter, payload: &[u8]) -> Option<usize>
    ensures { (outgoing : Outgoing) → outgoing.writer ≡ writer.now
        → result ≡ piece_count outgoing (Some payload.now) }
{
    if writer.framing().is_some() && !writer.finished() {
        Some(writer.taken_len(payload))
    } else {
        None
    }
}

/// What became of the end of a body.
#[derive(Clone, Copy, Debug, PartialEq, Eq)]
pub enum EndTaken {
    /// No body was begun, or it was ended before.
    Nothing,
    /// The end is being written already.
    GoesOn,
    /// The end is taken up.
    Starts,
}

/// Takes up the end of the body. A body that is short of its length is refused and ended.
#[inline(always)]
pub fn take_end(outgoing: &mut Outgoing) -> Result<EndTaken, Error>
    requires { IsEndStep outgoing.old.step }
    ensures { TakesUpEnd outgoing.old outgoing.new result }
{
    if outgoing.step == Step::Finish {
        return Ok(EndTaken::GoesOn);
    }
    if outgoing.writer.framing().is_none() || outgoing.writer.is_ended() {
        return Ok(EndTaken::Nothing);
    }
    let owed = outgoing.writer.finish()?;
    outgoing.owed.put(owed);
    outgoing.step = Step::Finish;
    Ok(EndTaken::Starts)
}
