//! Writing a request: its head, the pieces of its body and its end (RFC 9112, sections 3 to 7).
ghost use Rattle.std.specs.Prelude.{◌≡◌, IsSome};
ghost use Rattle.h1_client.specs.Upgrading.{EndsWithRequest, ends_both, passes};

use super::HttpSession;
use crate::judging::{first_refusal, is_over, is_spent, piece_len};
use bytes::Bytes;
use futures::task::Poll;
use h1_body::{BodyWriter, Framing};
use h1_error::Error;
use h1_head::RequestHeader;
use h1_link::Link;
use h1_transfer::{CALL_BUDGET, Delivery, Transfer, allowance_of};

impl<L: Link + Drop> HttpSession<L> {
    ghost use Rattle.h1_client.specs.Asking.{IsAskStep};
    ghost use Rattle.h1_client.specs.Calls.{EndWrite, HeadWrite, PieceWrite};
    ghost use Rattle.h1_client.specs.ClientView.{request_of};
    ghost use Rattle.h1_client.specs.Upgrading.{upgraded};
    ghost use Rattle.h1_transfer.specs.BodyWrites.{IsPieceStep, IsEndStep};

    /// Writes the head of the request and flushes it, and says how many bytes it has. The head is
    /// handed in before a request is begun, and is taken out of its place; while the answer is
    /// pending the call is made again with the same place, at a moment in milliseconds. One that
    /// can't stand on a request line stays with its caller (`BadRequestLine`). One that waits
    /// longer than the write timeout is refused (`WriteTimedout`), and so is each later call. No
    /// line is added: a Host is the caller's (RFC 9112, section 3.2).
    pub fn poll_write_request_header(
        &mut self,
        req: &mut Option<RequestHeader>,
        now: u64,
    ) -> Poll<Result<usize, Error>>
        requires { IsAskStep req.old (request_of self.old) self.old.transfer.outgoing.step }
        ensures { HeadWrite L.state L.same_plan now self.old self.new req.old req.new result }
    {
        self.transfer.set_budget(Some(CALL_BUDGET));
        self.spent = false;
        if let Some(error) = first_refusal(self.asked.late, self.transfer.outgoing().refused) {
            return Poll::Ready(Err(error));
        }
        if let Err(error) = self.asked.take_up(&mut self.transfer, req) {
            return Poll::Ready(Err(error));
        }
        let told = self.transfer.poll_deliver(Delivery::Flushed);
        let left = allowance_of(self.transfer.budget());
        let deadline = self.settings.write_deadline(now);
        let answer = self.asked.judge(told, left, deadline);
        self.spent = is_spent(&answer, self.transfer.budget());
        answer
    }

    /// Writes a piece of the request's body (RFC 9112, section 6), and says how much of it was
    /// taken, or None where none is admitted any more. The piece is taken out of its place; while
    /// the answer is pending the call is made again with the same place. A piece that waits longer
    /// than the write timeout is refused, and so is each later write.
    pub fn poll_write_body(
        &mut self,
        buf: &mut Option<Bytes>,
        now: u64,
    ) -> Poll<Result<Option<usize>, Error>>
        requires begun { IsSome (request_of self.old) }
        requires free { IsPieceStep buf.old self.old.transfer.outgoing.step }
        ensures { PieceWrite L.state L.same_plan now self.old self.new buf.old buf.new result }
    {
        let _length = piece_len(buf);
        self.transfer.set_budget(Some(CALL_BUDGET));
        let deadline = self.settings.write_deadline(now);
        let answer = self.transfer.poll_write_body(buf, deadline);
        self.spent = is_spent(&answer, self.transfer.budget());
        answer
    }

    /// Lets the request's body pass as it is from here on, where the connection goes on with
    /// another protocol (RFC 9110, section 7.8). Where it doesn't, or the body passes so already,
    /// nothing changes. The count of its payload begins anew; a write that is in progress goes on.
    pub fn maybe_upgrade_body_writer(&mut self)
        ensures { self.new ≡ upgraded self.old }
    {
        if self.was_upgraded() && !passes(&self.transfer.outgoing().writer) {
            self.transfer.pass_on();
        }
    }

    /// Writes the end of the request's body and flushes it, and says how much payload was taken in
    /// all, or None where it was finished before. A request without a body has an end too. A body
    /// that is short of its length is refused (`PrematureBodyEnd`). With one that passed as it is
    /// the body of the response ends too, and what comes of it is no longer read.
    pub fn poll_finish_body(&mut self, now: u64) -> Poll<Result<Option<usize>, Error>>
        requires begun { IsSome (request_of self.old) }
        requires free { IsEndStep self.old.transfer.outgoing.step }
        ensures { EndWrite L.state L.same_plan self.old self.new result }
    {
        self.transfer.set_budget(Some(CALL_BUDGET));
        let answer = self.transfer.poll_finish_body();
        end_response(&mut self.transfer, &answer);
        self.spent = is_spent(&answer, self.transfer.budget());
        answer
    }
}

/// Whether what is written of the body passes as it is, and the body goes on.
fn passes(writer: &BodyWriter) -> bool
    ensures { result ≡ passes writer.now }
{
    writer.is_until_close() && !writer.is_ended()
}

/// Ends the body of the response where a call with this answer is the end of both bodies.
fn end_response<L: Link + Drop>(
    transfer: &mut Transfer<L>,
    answer: &Poll<Result<Option<usize>, Error>>,
)
    ensures { EndsWithRequest (ends_both transfer.old answer.now) transfer.old transfer.new }
{
    if ends_both(transfer, answer) {
        transfer.begin_body(Framing::Counted(0));
    }
}

/// Whether the request's body passed as it is, and has ended, and the response's body goes on.
fn ends_both<L: Link + Drop>(
    transfer: &Transfer<L>,
    answer: &Poll<Result<Option<usize>, Error>>,
) -> bool
    ensures { result ≡ ends_both transfer.now answer.now }
{
    match answer {
        Poll::Ready(Ok(_)) => {
            let writer = &transfer.outgoing().writer;
            writer.is_until_close() && writer.is_ended() && !is_over(transfer.body())
        }
        Poll::Ready(Err(_)) => false,
        Poll::Pending => false,
    }
}
