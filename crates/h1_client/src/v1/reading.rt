//! Reading the responses to a request: their heads, and the body of the final one (RFC 9112,
//! sections 4, 6 and 8).
ghost use Rattle.std.specs.Prelude.{◌≡◌, IsSome, None};
ghost use Rattle.std.specs.Borrow.{sem};
ghost use Rattle.h1_client.specs.Lending.{shown};
ghost use Rattle.h1_client.specs.Reading.{CopyAnswer, IsCopied, IsThere};
ghost use Rattle.h1_client.specs.ReadingBody.{payload_behind};

use super::HttpSession;
use crate::judging::{at_link_end, is_spent};
use crate::response_place::ResponsePlace;
use bytes::Bytes;
use futures::task::Poll;
use h1_error::Error;
use h1_head::{ResponseHead, ResponseHeader};
use h1_link::Link;
use h1_transfer::CALL_BUDGET;

impl<L: Link + Drop> HttpSession<L> {
    ghost use Rattle.h1_client.specs.Calls.{HeadCopy, HeadReading};
    ghost use Rattle.h1_client.specs.ClientView.{request_of, response_of};
    ghost use Rattle.h1_client.specs.Lending.{LendsPart};
    ghost use Rattle.h1_client.specs.ReadingBody.{PartCall};

    /// Reads the head of the next response, and says how many bytes it has: once a request is
    /// begun, and until `has_final_head`. The head of an interim response is passed over by the
    /// next call (RFC 9110, section 15.2). The moment is milliseconds. Every refusal but want of
    /// memory is answered again, with no link call.
    pub fn poll_read_response(&mut self, now: u64) -> Poll<Result<usize, Error>>
        requires begun { IsSome (request_of self.old) }
        requires wants { response_of self.old ≡ None }
        ensures { HeadReading L.state L.same_plan now self.old self.new result }
    {
        self.transfer.set_budget(Some(CALL_BUDGET));
        self.spent = false;
        if let Some(error) = self.answered.refused {
            return Poll::Ready(Err(error));
        }
        let (search, found) = (&mut self.answered.search, &mut self.place);
        let deadline = self.settings.read_deadline(now);
        let read = self.transfer.read_head(search, found, deadline);
        let (transfer, request) = (&mut self.transfer, &self.asked.request);
        let tolerant = self.settings.tolerant;
        let answer = self
            .answered
            .judge(transfer, request, tolerant, found, read);
        self.spent = is_spent(&answer, self.transfer.budget());
        answer
    }

    /// The same, and a copy of the head. Where memory ran out for the copy the head was read.
    pub fn poll_read_resp_header_parts(&mut self, now: u64) -> Poll<Result<ResponseHeader, Error>>
        requires begun { IsSome (request_of self.old) }
        requires wants { response_of self.old ≡ None }
        ensures { HeadCopy L.state L.same_plan now self.old self.new result }
    {
        let told = self.poll_read_response(now);
        copy_of(&self.answered.last, told)
    }

    /// Reads payload of the final response's body; None is its end (RFC 9112, section 6). A refusal
    /// is answered again, with no link call.
    pub fn poll_read_body_bytes(&mut self, now: u64) -> Poll<Result<Option<Bytes>, Error>>
        requires begun { IsSome (request_of self.old) }
        requires read { IsSome (response_of self.old) }
        ensures { PartCall L.state L.same_plan now self.old self.new result }
    {
        self.transfer.set_budget(Some(CALL_BUDGET));
        let deadline = self.settings.read_deadline(now);
        let told = self.transfer.poll_read_body_bytes(deadline);
        let answer = at_link_end(&self.asked.request, &self.answered.last, told);
        self.payload_read = payload_behind(self.payload_read, &answer);
        self.spent = is_spent(&answer, self.transfer.budget());
        answer
    }

    /// Reads payload as `poll_read_body_bytes` does, and lends it in place of handing it out. The
    /// session holds what it lent until the next call of this kind.
    pub fn poll_read_body_ref(&mut self, now: u64) -> Poll<Result<Option<&[u8]>, Error>>
        requires begun { IsSome (request_of self.old) }
        requires read { IsSome (response_of self.old) }
        ensures* lends { sem 𝓛 (LendsPart L.row L.Link now self.entry result) }
    {
        // What was lent before may hold the block that this call reads into.
        self.lent = Poll::Pending;
        self.lent = self.poll_read_body_bytes(now);
        shown(&self.lent)
    }
}

/// How much payload was read behind a call with this answer.
fn payload_behind(count: u64, answer: &Poll<Result<Option<Bytes>, Error>>) -> u64
    ensures { result ≡ payload_behind count answer.now }
{
    match answer {
        Poll::Ready(Ok(Some(piece))) => count.saturating_add(piece.len() as u64),
        _ => count,
    }
}

/// The answer with its payload lent.
fn shown(answer: &Poll<Result<Option<Bytes>, Error>>) -> Poll<Result<Option<&[u8]>, Error>>
    ensures { shown result ≡ answer.now }
{
    match answer {
        Poll::Ready(Ok(Some(piece))) => Poll::Ready(Ok(Some(piece.as_slice()))),
        Poll::Ready(Ok(None)) => Poll::Ready(Ok(None)),
        Poll::Ready(Err(error)) => Poll::Ready(Err(*error)),
        Poll::Pending => Poll::Pending,
    }
}

/// The answer of a read of a head with a copy of the head that was read last.
fn copy_of(
    last: &ResponsePlace,
    told: Poll<Result<usize, Error>>,
) -> Poll<Result<ResponseHeader, Error>>
    requires { IsThere told last.now }
    ensures { CopyAnswer told last.now result }
{
    match told {
        Poll::Ready(Ok(_)) => match last.get() {
            Some(last) => copied(last),
            None => unreachable!(),
        },
        Poll::Ready(Err(error)) => Poll::Ready(Err(error)),
        Poll::Pending => Poll::Pending,
    }
}

/// The answer with a copy of this head.
fn copied(last: &ResponseHead) -> Poll<Result<ResponseHeader, Error>>
    ensures { IsCopied last.now result }
{
    match last.header.copy() {
        Ok(copy) => Poll::Ready(Ok(copy)),
        Err(error) => Poll::Ready(Err(error)),
    }
}
