//! Reading a request: its head and its body.
ghost use Rattle.std.specs.Prelude.{◌≡◌, ◌<◌, ◌^◌, length, IsSome, IfSome, IfNone, None, Err, false};
ghost use Rattle.futures.specs.declared.task.Poll.TheVariants.{Ready};
ghost use Rattle.h1_transfer.specs.Calls.{read_fault_of};
ghost use Rattle.h1_transfer.specs.Heads.{fault_of_stop};
ghost use Rattle.h1_server.specs.Calls.{is_head};
ghost use Rattle.h1_server.specs.Persistence.{is_nothing};
ghost use Rattle.h1_server.specs.Payload.{limit_behind};
ghost use Rattle.h1_server.specs.Requests.{StopsFor};

use super::HttpSession;
use crate::settings::wished;
use crate::times::{body_deadline, head_limit};
use crate::{NoRequest, ReadRequest};
use bytes::Bytes;
use futures::task::Poll;
use h1_error::{Error, ErrorType};
use h1_link::Link;
use h1_transfer::{Deadline, HeadRead, HeadStop, refuse};

/// What a call answers that read no head, where no byte is received, or some are.
fn stop_for(
    refused: &mut Option<Error>,
    stop: HeadStop,
    none: bool,
) -> Poll<Result<ReadRequest, Error>>
    ensures answer { StopsFor none refused.old refused.new stop result }
    ensures told { (is_head result ≡ false) × (read_fault_of result ≡ fault_of_stop stop) }
{
    match stop {
        HeadStop::Refused(fault) => refuse(refused, ErrorType::InvalidHTTPHeader(fault)),
        HeadStop::Closed => Poll::Ready(Ok(ReadRequest::None(NoRequest::Closed))),
        HeadStop::Cut => refuse(refused, ErrorType::ConnectionClosed),
        HeadStop::NotReady | HeadStop::Spent => Poll::Pending,
        HeadStop::Late if none => Poll::Ready(Ok(ReadRequest::None(NoRequest::IdleTimeout))),
        HeadStop::Late => refuse(refused, ErrorType::ReadTimedout),
        HeadStop::Failed => refuse(refused, ErrorType::ReadError),
        HeadStop::NoMemory => Poll::Ready(Err(Error::from(ErrorType::NoMemory))),
    }
}

/// Notes the limit of a read of the body that timed out.
#[inline(always)]
fn note_limit(
    noted: &mut Option<u64>,
    limit: Option<u64>,
    answer: &Poll<Result<Option<Bytes>, Error>>,
)
    ensures { noted.new ≡ limit_behind limit noted.old answer.now }
{
    if let Poll::Ready(Err(error)) = answer {
        if error.kind == ErrorType::ReadTimedout {
            *noted = limit;
        }
    }
}

/// Whether no byte is there.
fn is_nothing(bytes: &[u8]) -> bool
    ensures { result ≡ is_nothing bytes.now }
{
    bytes.is_empty()
}

impl<L: Link + Drop, C: Drop> HttpSession<L, C> {
    ghost use Rattle.h1_server.specs.Requests.{ReadsRequest};
    ghost use Rattle.h1_server.specs.Payload.{ReadsPayload, limit_behind};
    ghost use Rattle.h1_server.specs.Limit.{shown};
    ghost use Rattle.h1_server.specs.Calls.{is_head};
    ghost use Rattle.h1_transfer.specs.Calls.{Called, succeeds, read_fault_of};

    /// Reads the head of the request (RFC 9112, sections 2.2 and 3). Bytes that were received
    /// before are parsed before any read. Where the time of keep-alive is over, or the read timeout
    /// with keep-alive off, there is no request if no byte of one was received, and else it is
    /// refused.
    #[inline(always)]
    pub fn poll_read_request(&mut self, now: u64) -> Poll<Result<ReadRequest, Error>>
        requires { self.old.request ≡ None }
        ensures again { IfSome self.old.refused (λ error. (result ≡ Ready (Err error))
            × (self.new ≡ self.old)) }
        ensures reads { IfNone self.old.refused (ReadsRequest L.state now self.old self.new result) }
        ensures calls { Called (L.state self.old.link) (L.state self.new.link) (is_head result)
            (read_fault_of result) }
        ensures plan { L.same_plan self.old.link self.new.link }
    {
        if let Some(error) = self.asked.refused {
            return Poll::Ready(Err(error));
        }
        let asked = &mut self.asked;
        let deadline = Deadline {
            moment: now,
            limit: head_limit(&self.settings),
        };
        let read = self
            .transfer
            .read_head(&mut asked.search, &mut asked.place, deadline);
        match read {
            HeadRead::Whole(used) => {
                self.asked.is_read = true;
                let request = &self.asked.place.request;
                self.transfer.skip(used);
                self.transfer.begin_body(request.framing);
                self.settings.set_keepalive(wished(request.wish));
                Poll::Ready(Ok(ReadRequest::Head(request.raw.len())))
            }
            HeadRead::Stopped(stop) => {
                let none = is_nothing(self.transfer.received());
                stop_for(&mut self.asked.refused, stop, none)
            }
        }
    }

    /// Reads payload of the request's body; None is its end (RFC 9112, section 6). A refusal is
    /// answered again; out of memory only while payload is kept. A read that waits without bytes as
    /// long as the read timeout is refused, and so is a body that goes on past the limit of the
    /// payload that is kept (RFC 9110, section 15.5.14).
    pub fn poll_read_body_bytes(&mut self, now: u64) -> Poll<Result<Option<Bytes>, Error>>
        requires { IsSome self.old.request }
        ensures again { IfSome self.old.body.refused (λ error. (result ≡ Ready (Err error))
            × (self.new ≡ self.old)) }
        ensures reads { IfNone self.old.body.refused
            (ReadsPayload L.state now self.old self.new result) }
        ensures limit { IfNone self.old.body.refused (self.new.read_limit
            ≡ limit_behind (shown self.old.settings.times.read) self.old.read_limit result) }
        ensures calls { Called (L.state self.old.link) (L.state self.new.link) (succeeds result)
            (read_fault_of result) }
        ensures plan { L.same_plan self.old.link self.new.link }
        ensures bound { length self.new.received < 2 ^ 63 }
    {
        let deadline = body_deadline(self.settings.times, now);
        let refused = self.transfer.body().refused;
        match refused {
            // A refusal that is answered again keeps its limit.
            Some(_) => self.transfer.poll_read_body_bytes(deadline),
            None => {
                let answer = self.transfer.poll_read_body_bytes(deadline);
                note_limit(&mut self.read_limit, deadline.limit, &answer);
                answer
            }
        }
    }
}
