//! What a read of a body answers, and what is noted of it (RFC 9112, sections 6 and 8).
ghost use Rattle.std.specs.Prelude.{◌≡◌, ℕ, List, Some, None, Err};
ghost use Rattle.futures.specs.declared.task.Poll.TheVariants.{Ready};
ghost use Rattle.h1_link.specs.LinkState.{LinkState};
ghost use Rattle.h1_transfer.specs.BodyAnswers.{PartAnswer, RestAnswer, error_of};
ghost use Rattle.h1_transfer.specs.Deadline.{IsTimed};
ghost use Rattle.h1_transfer.specs.ReadWaits.{noted_part, noted_rest, part_behind, rest_behind, went_with, went_until};
ghost use Rattle.h1_link.specs.Counts.{Rose};
ghost use Rattle.h1_transfer.specs.Calls.{Called, is_part, is_done, succeeds, fault_of_read, fault_of_stop, read_fault_of};
ghost use Rattle.h1_error.specs.declared.error.ErrorType.TheVariants as kind;
ghost use Rattle.h1_transfer.specs.declared.reading_body.BodyRead.TheVariants.{Stopped};
ghost use Rattle.h1_transfer.specs.declared.reading_body.BodyStop.TheVariants as why;
ghost use Rattle.h1_transfer.specs.Decoding.{BodyCause, StopCause, payload_of};

use crate::{BodyRead, BodyState, BodyStop, Deadline, DrainLimits, Went};
use bytes::Bytes;
use futures::task::Poll;
use h1_error::{Error, ErrorType};

/// Refuses with an error of this kind, which every later call answers again.
pub fn refuse<T>(refused: &mut Option<Error>, kind: ErrorType) -> Poll<Result<T, Error>>
    ensures kept { refused.new ≡ Some (error_of kind) }
    ensures answer { result ≡ Ready (Err (error_of kind)) }
{
    let error = Error::from(kind);
    *refused = Some(error);
    Poll::Ready(Err(error))
}

/// What a read of a part of the body answers, which moved bytes, or didn't; a read that waits is noted.
/// For a caller that keeps the payload a body whose read was out of memory has failed.
#[inline(always)]
pub(crate) fn part(
    body: &mut BodyState,
    read: BodyRead,
    moved: bool,
    deadline: Deadline,
) -> Poll<Result<Option<Bytes>, Error>>
    requires { body.old.refused ≡ None }
    ensures notes { (body.new.reader ≡ body.old.reader) × (body.new.kept ≡ body.old.kept)
        × (body.new.since ≡ part_behind (went_with read) deadline moved body.old.since) }
    ensures answer { (before now : LinkState) (received : List ℕ) (left : ℕ)
        → BodyCause before now body.old.kept body.old.reader received left read
        → PartAnswer before now body.old.waits body.new received (payload_of read) left result
        × IsTimed (noted_part (Rose before.read_waits now.read_waits) deadline moved body.old.since
        body.new.since) left result }
    ensures starved { result ≡ Ready (Err (error_of kind.NoMemory)) → read ≡ Stopped why.NoMemory }
    ensures calls { (before now : LinkState) → Called before now (is_part read) (fault_of_read read)
        → Called before now (succeeds result) (read_fault_of result) }
{
    let late = body.since.judge_part(went_with(&read), moved, deadline);
    let stop = match read {
        BodyRead::Piece(bytes) => return Poll::Ready(Ok(Some(bytes))),
        BodyRead::Stopped(stop) => stop,
    };
    match stop {
        BodyStop::Done => Poll::Ready(Ok(None)),
        BodyStop::Broken => refuse(&mut body.refused, ErrorType::InvalidBody),
        BodyStop::Cut => refuse(&mut body.refused, ErrorType::ConnectionClosed),
        BodyStop::NotReady if late => {
            body.waits = true;
            refuse(&mut body.refused, ErrorType::ReadTimedout)
        }
        BodyStop::NotReady | BodyStop::Spent => {
            body.waits = true;
            Poll::Pending
        }
        BodyStop::Failed => refuse(&mut body.refused, ErrorType::ReadError),
        BodyStop::TooLarge => refuse(&mut body.refused, ErrorType::ContentTooLarge),
        BodyStop::NoMemory => {
            let error = Error::from(ErrorType::NoMemory);
            if body.kept.is_some() {
                body.refused = Some(error);
            }
            Poll::Ready(Err(error))
        }
    }
}

/// What a read of the rest of the body answers, which moved bytes, or didn't.
#[inline(always)]
pub(crate) fn rest(
    body: &mut BodyState,
    stop: BodyStop,
    moved: bool,
    limits: DrainLimits,
) -> Poll<Result<(), Error>>
    requires { body.old.refused ≡ None }
    ensures notes { body.new ≡ record body.old {
      refused = body.new.refused;
      since = rest_behind (went_until stop) limits moved body.old.since;
    } }
    ensures answer { (before now : LinkState) (received : List ℕ) (left : ℕ)
        → StopCause before now body.old.kept body.old.reader received left stop
        → RestAnswer before now body.new received left result
        × IsTimed (noted_rest (Rose before.read_waits now.read_waits) limits moved body.old.since
        body.new.since) left result }
    ensures starved { result ≡ Ready (Err (error_of kind.NoMemory)) → stop ≡ why.NoMemory }
    ensures calls { (before now : LinkState) → Called before now (is_done stop) (fault_of_stop stop)
        → Called before now (succeeds result) (read_fault_of result) }
{
    let late = body.since.judge_rest(went_until(stop), moved, limits);
    match stop {
        BodyStop::Done => Poll::Ready(Ok(())),
        BodyStop::Broken => refuse(&mut body.refused, ErrorType::InvalidBody),
        BodyStop::Cut => refuse(&mut body.refused, ErrorType::ConnectionClosed),
        BodyStop::NotReady if late => refuse(&mut body.refused, ErrorType::ReadTimedout),
        BodyStop::NotReady | BodyStop::Spent => Poll::Pending,
        BodyStop::Failed => refuse(&mut body.refused, ErrorType::ReadError),
        BodyStop::TooLarge => refuse(&mut body.refused, ErrorType::ContentTooLarge),
        BodyStop::NoMemory => Poll::Ready(Err(Error::from(ErrorType::NoMemory))),
    }
}

/// How a read of a part of a body went that came to this.
fn went_with(read: &BodyRead) -> Went
    ensures { result ≡ went_with read.now }
{
    match read {
        BodyRead::Piece(_) => Went::Done,
        BodyRead::Stopped(stop) => went_until(*stop),
    }
}

/// How a read of a body went that stopped so.
fn went_until(stop: BodyStop) -> Went
    ensures { result ≡ went_until stop }
{
    match stop {
        BodyStop::Done => Went::Done,
        BodyStop::NotReady => Went::Waited,
        _ => Went::Stopped,
    }
}
