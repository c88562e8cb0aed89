//! Writing a reply: its head, its body and its end.
ghost use Rattle.std.specs.Prelude.{◌≡◌, ◌<◌, ◌≤◌, ◌/◌, IsSome, IfSome, IfNone, None, Some, true, false, option_map};
ghost use Rattle.h1_error.specs.declared.moment.TheConstants.{YEAR_10000};
ghost use Rattle.futures.specs.declared.task.Poll.TheVariants.{Ready};
ghost use Rattle.h1_head.specs.Date.{IsDateAt};

use super::HttpSession;
use crate::persistence::keep_flag;
use crate::taking_up::{head_delivery, is_passed_over, keep_after, take_header};
use crate::times::piece_deadline;
use bytes::Bytes;
use futures::task::Poll;
use h1_error::Error;
use h1_head::ResponseHeader;
use h1_link::Link;

impl<L: Link + Drop, C: Drop> HttpSession<L, C> {
    ghost use Rattle.h1_transfer.specs.Calls.{Called, succeeds, write_fault_of};
    ghost use Rattle.h1_server.specs.Replies.{HeaderCall, is_passed_over, WritesPiece, EndCall, stage_of, IsHeaderStep, kept_by};
    ghost use Rattle.h1_transfer.specs.BodyWrites.{IsPieceStep, IsEndStep};

    /// The value of Date at a moment, in milliseconds since 1970. It is printed once for a second.
    pub fn date(&mut self, now: u64) -> [u8; 29]
        requires { now < YEAR_10000 }
        ensures date { IsDateAt (now / 1000) result }
        ensures same { self.new ≡ self.old }
    {
        self.dates.get_date(now)
    }

    /// Writes a final header, with its date and whether the connection is kept (RFC 9112,
    /// sections 4 and 9). After a final header nothing is written.
    #[inline(always)]
    pub fn poll_write_response_header(
        &mut self,
        header: &mut Option<ResponseHeader>,
        now: u64,
    ) -> Poll<Result<(), Error>>
        requires request { IsSome self.old.request }
        requires free { IsHeaderStep header.old self.old.reply.step }
        requires is_final { IfSome header.old (λ view. 200 ≤ view.status) }
        requires moment { now < YEAR_10000 }
        ensures again { IfSome self.old.reply.refused (λ error. (result ≡ Ready (Err error))
            × (self.new ≡ self.old) × (header.new ≡ header.old)) }
        ensures writes { IfNone self.old.reply.refused
            (IfSome self.old.request
            (λ request. HeaderCall L.state self.old self.new request header.old header.new now
            result (is_passed_over header.old self.old.reply.headed))) }
        ensures calls { Called (L.state self.old.link) (L.state self.new.link) false
            (write_fault_of result) }
        ensures plan { L.same_plan self.old.link self.new.link }
    {
        if let Some(error) = self.transfer.outgoing().refused {
            return Poll::Ready(Err(error));
        }
        let answer = self.poll_write_response_header_ref(header.as_ref(), now);
        if self.is_headed() {
            *header = None;
        }
        answer
    }

    /// The same with a header that stays with its owner. It was taken up where a final header was
    /// taken up then and not before. With None the header that was taken up goes on.
    #[inline(always)]
    pub fn poll_write_response_header_ref(
        &mut self,
        resp: Option<&ResponseHeader>,
        now: u64,
    ) -> Poll<Result<(), Error>>
        requires request { IsSome self.old.request }
        requires free { IsHeaderStep (option_map (λ head. head.now) resp) self.old.reply.step }
        requires is_final { IfSome (option_map (λ head. head.now) resp)
            (λ view. 200 ≤ view.status) }
        requires moment { now < YEAR_10000 }
        ensures again { IfSome self.old.reply.refused (λ error. (result ≡ Ready (Err error))
            × (self.new ≡ self.old)) }
        ensures writes { let header = option_map (λ head. head.now) resp.entry in
            IfNone self.old.reply.refused (IfSome self.old.request
            (λ request. HeaderCall L.state self.old self.new request header
            (kept_by header self.new.reply.headed) now result
            (is_passed_over header self.old.reply.headed))) }
        ensures calls { Called (L.state self.old.link) (L.state self.new.link) false
            (write_fault_of result) }
        ensures plan { L.same_plan self.old.link self.new.link }
    {
        if let Some(error) = self.transfer.outgoing().refused {
            return Poll::Ready(Err(error));
        }
        if is_passed_over(resp, self.transfer.outgoing().headed) {
            return Poll::Ready(Ok(()));
        }
        let request = &self.asked.place.request;
        let flag = keep_flag(request.wish, self.settings, self.transfer.body());
        let keep = keep_after(resp, self.keep, flag);
        let dates = &mut self.dates;
        if let Err(error) = take_header(&mut self.transfer, request, keep, resp, now, dates) {
            return Poll::Ready(Err(error));
        }
        self.keep = keep;
        let how = head_delivery(&self.transfer.outgoing().writer);
        self.transfer.poll_deliver(how)
    }

    /// Writes a piece of the reply's body (RFC 9112, section 6), and says how much of it was
    /// taken, or None where none is admitted any more. A piece that waits too long without bytes
    /// taken is refused: as long as the write timeout, or as the minimum send rate allows.
    #[inline(always)]
    pub fn poll_write_body(
        &mut self,
        buf: &mut Option<Bytes>,
        now: u64,
    ) -> Poll<Result<Option<usize>, Error>>
        requires headed { self.old.reply.headed ≡ true }
        requires free { IsPieceStep buf.old self.old.reply.step }
        ensures again { IfSome self.old.reply.refused (λ error. (result ≡ Ready (Err error))
            × (self.new ≡ self.old) × (buf.new ≡ buf.old)) }
        ensures writes { IfNone self.old.reply.refused
            (WritesPiece L.state now self.old self.new buf.old buf.new result) }
        ensures calls { Called (L.state self.old.link) (L.state self.new.link) (succeeds result)
            (write_fault_of result) }
        ensures plan { L.same_plan self.old.link self.new.link }
    {
        let deadline = piece_deadline(self.settings.times, now, self.transfer.outgoing(), buf);
        self.transfer.poll_write_body(buf, deadline)
    }

    /// Writes the end of the reply's body and flushes it, and says how much payload was taken in
    /// all, or None where no body was begun or it was finished before.
    #[inline(always)]
    pub fn poll_finish_body(&mut self, now: u64) -> Poll<Result<Option<usize>, Error>>
        requires free { IsEndStep self.old.reply.step }
        ensures again { IfSome self.old.reply.refused (λ error. (result ≡ Ready (Err error))
            × (self.new ≡ self.old)) }
        ensures writes { IfNone self.old.reply.refused
            (EndCall L.state self.old self.new result (stage_of self.old.reply)) }
        ensures calls { Called (L.state self.old.link) (L.state self.new.link) false
            (write_fault_of result) }
        ensures plan { L.same_plan self.old.link self.new.link }
    {
        self.transfer.poll_finish_body()
    }
}
