//! Delivering the write that is in progress: sending what is owed, and flushing it.
ghost use Rattle.std.specs.Prelude.{◌≡◌, ◌&&◌, nat_lt, [], None, Some};
ghost use Rattle.h1_transfer.specs.Moved.{Moved, Sent};
ghost use Rattle.h1_transfer.specs.Writes.{IsSameBody, IsSameMessage};
ghost use Rattle.h1_transfer.specs.Writing.{DeliveryAnswer, FlushCause, sent_after, with_count};
ghost use Rattle.h1_transfer.specs.Calls.{Called, is_unflushed, succeeds, write_fault_of, fault_of_flush};
ghost use Rattle.h1_transfer.specs.BodyAnswers.{error_of};
ghost use Rattle.h1_transfer.specs.Deadline.{IsTimed, went_so};
ghost use Rattle.h1_transfer.specs.PieceWrites.{PieceAnswer, noted_piece};
ghost use Rattle.h1_transfer.specs.declared.outgoing.Step.TheVariants.{Free, Piece};

use crate::sending::{Sending, send};
use crate::{Deadline, Outgoing, Step, Went};
use futures::task::Poll;
use h1_error::{Error, ErrorType};
use h1_link::{FlushStep, Link};

/// What a write asks for.
#[derive(Clone, Copy, Debug, PartialEq, Eq)]
pub enum Delivery {
    /// The link takes all bytes.
    Sent,
    /// The link takes all bytes and flushes them.
    Flushed,
}

/// Goes on with the piece of a body that is being written, which may wait for the link so long, and
/// says this count once all of it is written.
#[inline(always)]
pub fn deliver_piece<L: Link>(
    link: &mut L,
    outgoing: &mut Outgoing,
    count: Option<usize>,
    deadline: Deadline,
    budget: &mut u32,
) -> Poll<Result<Option<usize>, Error>>
    requires piece { outgoing.old.step ≡ Piece count }
    requires unrefused { outgoing.old.refused ≡ None }
    ensures sent { Sent (L.state link.old)
        (L.state link.new) outgoing.old.owed outgoing.new.owed budget.old budget.new }
    ensures same { IsSameBody outgoing.old outgoing.new × (outgoing.new.sent
        ≡ sent_after outgoing.old.sent outgoing.old.owed outgoing.new.owed) }
    ensures answer { PieceAnswer (L.state link.old) (L.state link.new) outgoing.new count
        budget.new result }
    ensures timed { IsTimed (noted_piece (L.state link.old) (L.state link.new) outgoing.old
        outgoing.new deadline (nat_lt budget.new budget.old)) budget.new result }
    ensures calls { Called (L.state link.old) (L.state link.new) (succeeds result)
        (write_fault_of result) }
    ensures plan { L.same_plan link.old link.new }
{
    let allowed = *budget;
    let answer = deliver(link, outgoing, Delivery::Sent, budget);
    let went = went_so(&answer, *budget);
    if deadline.judge(went, *budget < allowed, &mut outgoing.write_since) {
        return Poll::Ready(Err(refuse(outgoing, ErrorType::WriteTimedout)));
    }
    with_count(answer, count)
}

/// How a write with this answer went, where so many calls are left.
fn went_so(answer: &Poll<Result<(), Error>>, left: u32) -> Went
    ensures { result ≡ went_so answer.now left }
{
    match answer {
        Poll::Ready(Ok(())) => Went::Done,
        Poll::Pending if 0 < left => Went::Waited,
        _ => Went::Stopped,
    }
}

/// Goes on with the write that is in progress, and ends it where all of it is delivered.
#[inline(always)]
pub fn deliver<L: Link>(
    link: &mut L,
    outgoing: &mut Outgoing,
    how: Delivery,
    budget: &mut u32,
) -> Poll<Result<(), Error>>
    ensures sent { Sent (L.state link.old)
        (L.state link.new) outgoing.old.owed outgoing.new.owed budget.old budget.new }
    ensures same { IsSameMessage outgoing.old outgoing.new }
    ensures counted { outgoing.new.sent
        ≡ sent_after outgoing.old.sent outgoing.old.owed outgoing.new.owed }
    ensures answer { DeliveryAnswer how outgoing.old.refused (L.state link.old)
        (L.state link.new) outgoing.new outgoing.old.step budget.new result }
    ensures calls { Called (L.state link.old) (L.state link.new)
        (is_unflushed how && succeeds result) (write_fault_of result) }
    ensures plan { L.same_plan link.old link.new }
{
    match send(link, &mut outgoing.owed, &mut outgoing.sent, budget) {
        Sending::All => {}
        Sending::NotReady => return Poll::Pending,
        Sending::Spent => return Poll::Pending,
        Sending::Failed => return Poll::Ready(Err(refuse(outgoing, ErrorType::WriteError))),
        Sending::NoMemory => return Poll::Ready(Err(Error::from(ErrorType::NoMemory))),
    }
    match flush(link, how) {
        FlushStep::Done => {
            outgoing.step = Step::Free;
            Poll::Ready(Ok(()))
        }
        FlushStep::NotReady => Poll::Pending,
        FlushStep::Failed => Poll::Ready(Err(refuse(outgoing, ErrorType::WriteError))),
    }
}

/// Flushes the link where that is asked for.
fn flush<L: Link>(link: &mut L, how: Delivery) -> FlushStep
    ensures moved { Moved (L.state link.old) (L.state link.new) [] [] 0 }
    ensures unread { (L.state link.new).read_waits ≡ (L.state link.old).read_waits }
    ensures cause { FlushCause how (L.state link.old) (L.state link.new) result }
    ensures calls { Called (L.state link.old) (L.state link.new) (is_unflushed how)
        (fault_of_flush result) }
    ensures plan { L.same_plan link.old link.new }
{
    match how {
        Delivery::Sent => FlushStep::Done,
        Delivery::Flushed => link.poll_flush(),
    }
}

/// Ends the write that is in progress with an error of this kind, which each later write answers.
fn refuse(outgoing: &mut Outgoing, kind: ErrorType) -> Error
    ensures error { result ≡ error_of kind }
    ensures refused { outgoing.new ≡ record outgoing.old { step = Free; refused = Some result } }
{
    let error = Error::from(kind);
    outgoing.step = Step::Free;
    outgoing.refused = Some(error);
    error
}

/// The answer of a write that says a count once it is delivered.
pub fn with_count(
    answer: Poll<Result<(), Error>>,
    count: Option<usize>,
) -> Poll<Result<Option<usize>, Error>>
    ensures { result ≡ with_count answer count }
{
    match answer {
        Poll::Ready(Ok(())) => Poll::Ready(Ok(count)),
        Poll::Ready(Err(error)) => Poll::Ready(Err(error)),
        Poll::Pending => Poll::Pending,
    }
}
