//! Writing a message: its head, the pieces of its body and its end.
ghost use Rattle.std.specs.Prelude.{◌≡◌, [], IfSome, IfNone, None, true, false};
ghost use Rattle.futures.specs.declared.task.Poll.TheVariants.{Ready};

use super::Transfer;
use crate::budget::{allowance_of, budget_left};
use crate::delivering::{Delivery, deliver, deliver_piece, with_count};
use crate::writing_body::{EndTaken, take_end, take_piece};
use crate::{Deadline, Step};
use bytes::Bytes;
use futures::task::Poll;
use h1_body::Framing;
use h1_error::Error;
use h1_head::HeadBuffer;
use h1_link::Link;

impl<L: Link + Drop> Transfer<L> {
    ghost use Rattle.h1_body.specs.Writer.{begun};
    ghost use Rattle.h1_body.specs.declared.framing.Framing.TheVariants.{UntilClose};
    ghost use Rattle.h1_transfer.specs.BodyWrites.{IsPieceStep, IsEndStep};
    ghost use Rattle.h1_transfer.specs.Calls.{Called, succeeds, is_unflushed, write_fault_of};
    ghost use Rattle.h1_transfer.specs.TransferView.{itself};
    ghost use Rattle.h1_transfer.specs.Writes.{Delivers};
    ghost use Rattle.h1_transfer.specs.PieceWrites.{WritesPiece};
    ghost use Rattle.h1_transfer.specs.EndWrites.{EndCall, stage_of};
    ghost use Rattle.h1_transfer.specs.declared.outgoing.Step.TheVariants.{Free, Head};
    ghost use Rattle.std.specs.Prelude.{◌&&◌};

    /// The buffer for the bytes of a head, with nothing in it: that of the head before.
    pub fn head_buffer(&mut self) -> HeadBuffer
        requires free { self.old.outgoing.step ≡ Free }
        requires unrefused { self.old.outgoing.refused ≡ None }
        ensures empty { result ≡ [] }
        ensures same { self.new ≡ self.old }
    {
        self.outgoing.owed.take_buffer()
    }

    /// Takes up a head, whose body has this framing.
    #[inline(always)]
    pub fn take_up_head(&mut self, head: HeadBuffer, framing: Framing)
        requires free { self.old.outgoing.step ≡ Free }
        requires unrefused { self.old.outgoing.refused ≡ None }
        ensures takes { self.new
            ≡ record self.old {
              outgoing = record self.old.outgoing {
                owed = head;
                writer = begun framing;
                headed = true;
                step = Head;
              };
            } }
        ensures settled { self.old.outgoing.owed ≡ [] }
    {
        self.outgoing.owed.put_head(head);
        self.outgoing.writer.begin(framing);
        self.outgoing.headed = true;
        self.outgoing.step = Step::Head;
    }

    /// Lets what is written of the body from here on pass as it is, until the link is closed, as
    /// behind a change of the protocol (RFC 9110, section 7.8). The count of its payload begins anew.
    pub fn pass_on(&mut self)
        ensures { self.new
            ≡ record self.old {
              outgoing = record self.old.outgoing { writer = begun UntilClose };
            } }
    {
        self.outgoing.writer.begin(Framing::UntilClose);
    }

    /// Goes on with the write that is in progress.
    #[inline(always)]
    pub fn poll_deliver(&mut self, how: Delivery) -> Poll<Result<(), Error>>
        ensures delivers { Delivers L.state how self.old self.new result }
        ensures calls { Called (L.state self.old.link) (L.state self.new.link)
            (is_unflushed how && succeeds result) (write_fault_of result) }
        ensures plan { L.same_plan self.old.link self.new.link }
    {
        let mut left = allowance_of(self.budget);
        let answer = deliver(&mut self.link, &mut self.outgoing, how, &mut left);
        self.budget = budget_left(self.budget, left);
        answer
    }

    /// Writes a piece of the body (RFC 9112, section 6), and says how much of it was taken, or None
    /// where none is admitted any more. A piece that waited too long is refused, and each later
    /// write with it.
    #[inline(always)]
    pub fn poll_write_body(
        &mut self,
        buf: &mut Option<Bytes>,
        deadline: Deadline,
    ) -> Poll<Result<Option<usize>, Error>>
        requires free { IsPieceStep buf.old self.old.outgoing.step }
        ensures again { IfSome self.old.outgoing.refused (λ error. (result ≡ Ready (Err error))
            × (self.new ≡ self.old) × (buf.new ≡ buf.old)) }
        ensures writes { IfNone self.old.outgoing.refused
            (WritesPiece L.state itself deadline self.old self.new buf.old buf.new result) }
        ensures calls { Called (L.state self.old.link) (L.state self.new.link) (succeeds result)
            (write_fault_of result) }
        ensures plan { L.same_plan self.old.link self.new.link }
    {
        if let Some(error) = self.outgoing.refused {
            return Poll::Ready(Err(error));
        }
        let count = take_piece(&mut self.outgoing, buf);
        let mut left = allowance_of(self.budget);
        let (link, outgoing) = (&mut self.link, &mut self.outgoing);
        let answer = deliver_piece(link, outgoing, count, deadline, &mut left);
        self.budget = budget_left(self.budget, left);
        answer
    }

    /// Writes the end of the body and flushes it, and says how much payload was taken in all, or
    /// None where no body was begun or it was finished before.
    #[inline(always)]
    pub fn poll_finish_body(&mut self) -> Poll<Result<Option<usize>, Error>>
        requires free { IsEndStep self.old.outgoing.step }
        ensures again { IfSome self.old.outgoing.refused (λ error. (result ≡ Ready (Err error))
            × (self.new ≡ self.old)) }
        ensures writes { IfNone self.old.outgoing.refused
            (EndCall L.state itself self.old self.new result (stage_of self.old.outgoing)) }
        ensures calls { Called (L.state self.old.link) (L.state self.new.link) false
            (write_fault_of result) }
        ensures plan { L.same_plan self.old.link self.new.link }
    {
        if let Some(error) = self.outgoing.refused {
            return Poll::Ready(Err(error));
        }
        let end = match take_end(&mut self.outgoing) {
            Ok(end) => end,
            Err(error) => return Poll::Ready(Err(error)),
        };
        if let EndTaken::Nothing = end {
            return Poll::Ready(Ok(None));
        }
        let written = self.outgoing.writer.written() as usize;
        with_count(self.poll_deliver(Delivery::Flushed), Some(written))
    }
}
