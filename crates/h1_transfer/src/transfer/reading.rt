//! Reading a message: its head and its body.
ghost use Rattle.std.specs.Prelude.{◌≡◌, ◌<◌, ◌^◌, length, IfSome, IfNone, Err};
ghost use Rattle.futures.specs.declared.task.Poll.TheVariants.{Ready};

use super::Transfer;
use crate::answering::{part, rest};
use crate::budget::{allowance_of, budget_left};
use crate::head::Head;
use crate::reading_body::{drain_body, read_body};
use crate::reading_head::{HeadRead, judge_head, read_head};
use crate::receiving::{Filled, fill};
use crate::{Deadline, DrainLimits};
use bytes::Bytes;
use futures::task::Poll;
use h1_cut::HeadSearch;
use h1_error::Error;
use h1_link::Link;

impl<L: Link + Drop> Transfer<L> {
    ghost use Rattle.h1_transfer.specs.Calls.{Called, succeeds, is_got, read_fault_of, fault_of_fill};
    ghost use Rattle.h1_transfer.specs.Payload.{ReadsPayload, DrainsBody};
    ghost use Rattle.h1_transfer.specs.Heads.{ReadsHead, is_whole_head, fault_of_head};
    ghost use Rattle.h1_transfer.specs.Receiving.{FillsBy};
    ghost use Rattle.h1_cut.specs.Search.{HasLooked};
    ghost use Rattle.h1_head.specs.declared.limits.TheConstants.{MAX_HEADER_SIZE};
    ghost use Rattle.h1_transfer.specs.TransferView.{itself};

    /// Reads the link once, after what is received. No budget is asked.
    pub fn fill(&mut self) -> Filled
        ensures fills { FillsBy (L.state self.old.link)
            (L.state self.new.link) self.old.received self.new.received result }
        ensures rest { self.new ≡ record self.old {
          link = self.new.link;
          received = self.new.received;
        } }
        ensures calls { Called (L.state self.old.link) (L.state self.new.link) (is_got result)
            (fault_of_fill result) }
        ensures plan { L.same_plan self.old.link self.new.link }
    {
        fill(&mut self.link, &mut self.received)
    }

    /// Reads until a head is whole, is refused or can't go on, and puts a whole one in its place.
    /// Its bytes stay among those received. A read that waited too long is late. Where no head is
    /// whole, what stands in the place has no meaning.
    #[inline(always)]
    pub fn read_head<H: Head>(
        &mut self,
        search: &mut HeadSearch,
        found: &mut H,
        deadline: Deadline,
    ) -> HeadRead
        requires looked { HasLooked MAX_HEADER_SIZE search.old self.old.received }
        ensures reads { ReadsHead L.state H.is_at H.refuses H.lacks deadline self.old self.new
            found.new result }
        ensures looked { HasLooked MAX_HEADER_SIZE search.new self.new.received }
        ensures calls { Called (L.state self.old.link) (L.state self.new.link)
            (is_whole_head result) (fault_of_head result) }
        ensures plan { L.same_plan self.old.link self.new.link }
    {
        let allowed = allowance_of(self.budget);
        let mut left = allowed;
        let read = read_head(
            self.alloc,
            &mut self.link,
            &mut self.received,
            search,
            &mut self.room,
            &mut left,
            found,
        );
        self.budget = budget_left(self.budget, left);
        judge_head(read, left < allowed, deadline, &mut self.body.since.read)
    }

    /// Reads payload of the body; None is its end (RFC 9112, section 6). A refusal is answered
    /// again; out of memory only while payload is kept. A piece may keep the block alive that it
    /// was received in. A read that waited too long is refused, and so is a body that goes on past
    /// the limit of what is kept (RFC 9110, section 15.5.14).
    #[inline(always)]
    pub fn poll_read_body_bytes(&mut self, deadline: Deadline) -> Poll<Result<Option<Bytes>, Error>>
        ensures again { IfSome self.old.body.refused (λ error. (result ≡ Ready (Err error))
            × (self.new ≡ self.old)) }
        ensures reads { IfNone self.old.body.refused
            (ReadsPayload L.state itself deadline self.old self.new result) }
        ensures calls { Called (L.state self.old.link) (L.state self.new.link) (succeeds result)
            (read_fault_of result) }
        ensures plan { L.same_plan self.old.link self.new.link }
        ensures bound { length self.new.received < 2 ^ 63 }
    {
        // What is received is bounded by its buffer, now and after the read.
        let _received = self.received.len();
        if let Some(error) = self.body.refused {
            return Poll::Ready(Err(error));
        }
        let allowed = allowance_of(self.budget);
        let mut left = allowed;
        let read = read_body(
            &mut self.link,
            &mut self.received,
            &mut self.body.reader,
            &mut self.body.kept,
            &mut self.room,
            &mut self.came,
            &mut left,
        );
        let _left_over = self.received.len();
        self.budget = budget_left(self.budget, left);
        part(&mut self.body, read, left < allowed, deadline)
    }

    /// Reads the rest of the body. A read that waited too long is refused, and so is one that waits
    /// when the time for all of the rest is over; that is counted from its first wait on.
    #[inline(always)]
    pub fn poll_drain(&mut self, limits: DrainLimits) -> Poll<Result<(), Error>>
        ensures again { IfSome self.old.body.refused (λ error. (result ≡ Ready (Err error))
            × (self.new ≡ self.old)) }
        ensures drains { IfNone self.old.body.refused
            (DrainsBody L.state itself limits self.old self.new result) }
        ensures calls { Called (L.state self.old.link) (L.state self.new.link) (succeeds result)
            (read_fault_of result) }
        ensures plan { L.same_plan self.old.link self.new.link }
    {
        if let Some(error) = self.body.refused {
            return Poll::Ready(Err(error));
        }
        let allowed = allowance_of(self.budget);
        let mut left = allowed;
        let stop = drain_body(
            &mut self.link,
            &mut self.received,
            &mut self.body.reader,
            &mut self.body.kept,
            &mut self.room,
            &mut self.came,
            &mut left,
        );
        self.budget = budget_left(self.budget, left);
        rest(&mut self.body, stop, left < allowed, limits)
    }
}
