//! A client's session by the calls that don't tell the version of its protocol.
ghost use Rattle.std.specs.Prelude.{◌≡◌, IsSome, None};
ghost use Rattle.std.specs.Option.{option_copied};
ghost use Rattle.h1_link.specs.Steps.{after_shutdown};
ghost use Rattle.h1_client.specs.Sessions.{plain};

use crate::v1;
use bytes::Bytes;
use futures::task::Poll;
use h1_error::Error;
use h1_head::{RequestHeader, ResponseHeader};
use h1_link::Link;

/// A client's session over a link.
#[derive(Drop)]
pub enum HttpSession<L: Link + Drop> {
    /// One of HTTP/1 (RFC 9112).
    H1(v1::HttpSession<L>),
}

impl<L: Link + Drop> HttpSession<L> {
    ghost use Rattle.std.specs.Prelude.{Some, option_map};
    ghost use Rattle.h1_client.specs.Asking.{IsAskStep};
    ghost use Rattle.h1_client.specs.Calls.{EndWrite, HeadReading, HeadWrite, PieceWrite};
    ghost use Rattle.h1_client.specs.ClientView.{request_of, response_of};
    ghost use Rattle.h1_client.specs.ReadingBody.{PartCall};
    ghost use Rattle.h1_client.specs.Reusing.{is_body_done};
    ghost use Rattle.h1_client.specs.Sessions.{Plainly, v1_of};
    ghost use Rattle.h1_transfer.specs.BodyWrites.{IsEndStep, IsPieceStep};

    /// The session, where it is one of HTTP/1.
    pub fn as_http1(&self) -> Option<&v1::HttpSession<L>>
        ensures { option_copied result ≡ Some (v1_of self.now) }
    {
        match self {
            HttpSession::H1(session) => Some(session),
        }
    }

    /// Writes the head of the request and flushes it, as `v1::HttpSession` does.
    pub fn poll_write_request_header(
        &mut self,
        req: &mut Option<RequestHeader>,
        now: u64,
    ) -> Poll<Result<(), Error>>
        requires { IsAskStep req.old (request_of (v1_of self.old))
            (v1_of self.old).transfer.outgoing.step }
        ensures { Plainly (HeadWrite L.state L.same_plan now (v1_of self.old) (v1_of self.new)
            req.old req.new) result }
    {
        plain(self.write_header(req, now))
    }

    /// Writes a piece of the request's body, as `poll_write_body` does. Whether it is the last is
    /// told by `poll_finish_request_body` alone.
    pub fn poll_write_request_body(
        &mut self,
        buf: &mut Option<Bytes>,
        end: bool,
        now: u64,
    ) -> Poll<Result<(), Error>>
        requires begun { IsSome (request_of (v1_of self.old)) }
        requires free { IsPieceStep buf.old (v1_of self.old).transfer.outgoing.step }
        ensures { Plainly (PieceWrite L.state L.same_plan now (v1_of self.old) (v1_of self.new)
            buf.old buf.new) result }
    {
        let _ = end;
        plain(self.write_piece(buf, now))
    }

    /// Writes the end of the request's body and flushes it, as `poll_finish_body` does.
    pub fn poll_finish_request_body(&mut self, now: u64) -> Poll<Result<(), Error>>
        requires begun { IsSome (request_of (v1_of self.old)) }
        requires free { IsEndStep (v1_of self.old).transfer.outgoing.step }
        ensures { Plainly (EndWrite L.state L.same_plan (v1_of self.old) (v1_of self.new)) result }
    {
        plain(self.write_end(now))
    }

    /// Reads the head of the next response, as `poll_read_response` does.
    pub fn poll_read_response_header(&mut self, now: u64) -> Poll<Result<(), Error>>
        requires begun { IsSome (request_of (v1_of self.old)) }
        requires wants { response_of (v1_of self.old) ≡ None }
        ensures { Plainly (HeadReading L.state L.same_plan now (v1_of self.old)
            (v1_of self.new)) result }
    {
        plain(self.read_header(now))
    }

    /// Reads payload of the final response's body, as `poll_read_body_bytes` does.
    pub fn poll_read_response_body(&mut self, now: u64) -> Poll<Result<Option<Bytes>, Error>>
        requires begun { IsSome (request_of (v1_of self.old)) }
        requires read { IsSome (response_of (v1_of self.old)) }
        ensures { PartCall L.state L.same_plan now (v1_of self.old) (v1_of self.new) result }
    {
        match self {
            HttpSession::H1(session) => session.poll_read_body_bytes(now),
        }
    }

    /// Whether the body of the final response ended or failed.
    pub fn response_done(&mut self) -> bool
        requires { IsSome (response_of (v1_of self.old)) }
        ensures value { result ≡ is_body_done (v1_of self.old) }
        ensures same { self.new ≡ self.old }
    {
        match self {
            HttpSession::H1(session) => session.is_body_done(),
        }
    }

    /// The head of a response that was read last.
    pub fn response_header(&self) -> Option<&ResponseHeader>
        ensures { option_copied result
            ≡ option_map (λ last. last.header) (v1_of self.now).answered.last }
    {
        match self {
            HttpSession::H1(session) => session.resp_header(),
        }
    }

    /// Sets how many milliseconds a read may wait without bytes; None is without a limit.
    pub fn set_read_timeout(&mut self, timeout: Option<u64>)
        ensures { v1_of self.new ≡ record (v1_of self.old) {
          settings = record (v1_of self.old).settings { read_timeout = timeout };
        } }
    {
        match self {
            HttpSession::H1(session) => session.set_read_timeout(timeout),
        }
    }

    /// Sets how many milliseconds a write may wait without bytes; None is without a limit.
    pub fn set_write_timeout(&mut self, timeout: Option<u64>)
        ensures { v1_of self.new ≡ record (v1_of self.old) {
          settings = record (v1_of self.old).settings { write_timeout = timeout };
        } }
    {
        match self {
            HttpSession::H1(session) => session.set_write_timeout(timeout),
        }
    }

    /// Closes the link for both sides.
    pub fn shutdown(&mut self)
        ensures state { L.state (v1_of self.new).transfer.link
            ≡ after_shutdown (L.state (v1_of self.old).transfer.link) }
        ensures rest { v1_of self.new ≡ record (v1_of self.old) {
          transfer = record (v1_of self.old).transfer { link = (v1_of self.new).transfer.link };
        } }
        ensures plan { L.same_plan (v1_of self.old).transfer.link (v1_of self.new).transfer.link }
    {
        match self {
            HttpSession::H1(session) => session.shutdown(),
        }
    }

    fn write_header(
        &mut self,
        req: &mut Option<RequestHeader>,
        now: u64,
    ) -> Poll<Result<usize, Error>>
        requires { IsAskStep req.old (request_of (v1_of self.old))
            (v1_of self.old).transfer.outgoing.step }
        ensures { HeadWrite L.state L.same_plan now (v1_of self.old) (v1_of self.new) req.old
            req.new result }
    {
        match self {
            HttpSession::H1(session) => session.poll_write_request_header(req, now),
        }
    }

    fn write_piece(
        &mut self,
        buf: &mut Option<Bytes>,
        now: u64,
    ) -> Poll<Result<Option<usize>, Error>>
        requires begun { IsSome (request_of (v1_of self.old)) }
        requires free { IsPieceStep buf.old (v1_of self.old).transfer.outgoing.step }
        ensures { PieceWrite L.state L.same_plan now (v1_of self.old) (v1_of self.new) buf.old
            buf.new result }
    {
        match self {
            HttpSession::H1(session) => session.poll_write_body(buf, now),
        }
    }

    fn write_end(&mut self, now: u64) -> Poll<Result<Option<usize>, Error>>
        requires begun { IsSome (request_of (v1_of self.old)) }
        requires free { IsEndStep (v1_of self.old).transfer.outgoing.step }
        ensures { EndWrite L.state L.same_plan (v1_of self.old) (v1_of self.new) result }
    {
        match self {
            HttpSession::H1(session) => session.poll_finish_body(now),
        }
    }

    fn read_header(&mut self, now: u64) -> Poll<Result<usize, Error>>
        requires begun { IsSome (request_of (v1_of self.old)) }
        requires wants { response_of (v1_of self.old) ≡ None }
        ensures { HeadReading L.state L.same_plan now (v1_of self.old) (v1_of self.new) result }
    {
        match self {
            HttpSession::H1(session) => session.poll_read_response(now),
        }
    }
}

/// The answer without its number.
fn plain<T: Drop>(told: Poll<Result<T, Error>>) -> Poll<Result<(), Error>>
    ensures { result ≡ plain told }
{
    match told {
        Poll::Ready(Ok(_)) => Poll::Ready(Ok(())),
        Poll::Ready(Err(error)) => Poll::Ready(Err(error)),
        Poll::Pending => Poll::Pending,
    }
}
