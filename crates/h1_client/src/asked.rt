//! The request that a session asks with, and the taking up of its head (RFC 9112, section 3).
ghost use Rattle.std.specs.Prelude.{◌≡◌, None, false};
ghost use Rattle.h1_client.specs.Asking.{IsAskStep, JudgesAsk, PutsHead, TakesUp, ask_answer};
ghost use Rattle.h1_transfer.specs.Deadline.{went_so};

use crate::framing::request_framing;
use futures::task::Poll;
use h1_error::{Error, ErrorType, HeadFault};
use h1_head::{HeadBuffer, RequestHeader, push_request_head};
use h1_link::Link;
use h1_transfer::{CALL_BUDGET, Deadline, Transfer, Went};
use std::mem;

/// The request that a session asks with.
#[derive(Drop)]
pub(crate) struct Asked {
    pub request: Option<RequestHeader>,
    /// How many bytes its head has.
    pub length: usize,
    /// Since when its head waits for the link, in milliseconds.
    pub since: Option<u64>,
    /// The refusal of its head, which waited too long.
    pub late: Option<Error>,
}

impl Asked {
    /// Before a request.
    pub fn new() -> Self
        ensures { result ≡ record { request = None; length = 0; since = None; late = None } }
    {
        Asked {
            request: None,
            length: 0,
            since: None,
            late: None,
        }
    }

    /// Takes up the head that is handed in. Where it can't be written all stays as it is.
    pub fn take_up<L: Link + Drop>(
        &mut self,
        transfer: &mut Transfer<L>,
        head: &mut Option<RequestHeader>,
    ) -> Result<(), Error>
        requires at { IsAskStep head.old self.old.request transfer.old.outgoing.step }
        requires unrefused { transfer.old.outgoing.refused ≡ None }
        ensures takes { TakesUp transfer.old transfer.new self.old self.new head.old head.new
            result }
    {
        let Some(asking) = head else {
            return Ok(());
        };
        let mut bytes = transfer.head_buffer();
        put_head(asking, &mut bytes)?;
        let framing = request_framing(asking);
        self.length = bytes.len();
        transfer.take_up_head(bytes, framing);
        mem::swap(&mut self.request, head);
        Ok(())
    }

    /// Judges a call that sent what is owed of the head, and stopped with so many link calls left.
    /// One that waits too long is refused, and so is each later one.
    pub fn judge(
        &mut self,
        told: Poll<Result<(), Error>>,
        left: u32,
        deadline: Deadline,
    ) -> Poll<Result<usize, Error>>
        ensures { JudgesAsk self.old self.new told left deadline result }
    {
        let went = went_so(&told, left);
        if deadline.judge(went, left < CALL_BUDGET, &mut self.since) {
            let error = Error::from(ErrorType::WriteTimedout);
            self.late = Some(error);
            return Poll::Ready(Err(error));
        }
        with_length(told, self.length)
    }
}

/// Puts the bytes of a request head behind those of a buffer.
fn put_head(head: &RequestHeader, out: &mut HeadBuffer) -> Result<(), Error>
    ensures { PutsHead head.now out.old out.new result }
{
    if push_request_head(head, out)? {
        Ok(())
    } else {
        Err(Error::from(ErrorType::InvalidHTTPHeader(HeadFault::BadRequestLine)))
    }
}

/// How a write with this answer went, where so many calls are left.
fn went_so(told: &Poll<Result<(), Error>>, left: u32) -> Went
    ensures { result ≡ went_so told.now left }
{
    match told {
        Poll::Ready(Ok(())) => Went::Done,
        Poll::Ready(Err(_)) => Went::Stopped,
        Poll::Pending if 0 < left => Went::Waited,
        Poll::Pending => Went::Stopped,
    }
}

/// The answer of a call that is in time.
fn with_length(told: Poll<Result<(), Error>>, length: usize) -> Poll<Result<usize, Error>>
    ensures { result ≡ ask_answer false length told }
{
    match told {
        Poll::Ready(Ok(())) => Poll::Ready(Ok(length)),
        Poll::Ready(Err(error)) => Poll::Ready(Err(error)),
        Poll::Pending => Poll::Pending,
    }
}
