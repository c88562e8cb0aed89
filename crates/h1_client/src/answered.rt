//! The responses that a session reads, and the use of their heads (RFC 9112, section 4; RFC 9110,
//! section 15.2).
ghost use Rattle.std.specs.Prelude.{◌≡◌, ◌≤◌, [], IfSome, IsSome, None, is_some, length};
ghost use Rattle.h1_cut.specs.Search.{HasLooked};
ghost use Rattle.h1_head.specs.declared.limits.TheConstants.{MAX_HEADER_SIZE};
ghost use Rattle.h1_transfer.specs.Calls.{no_fault, read_fault_of};
ghost use Rattle.h1_transfer.specs.Heads.{fault_of_head, fault_of_stop};
ghost use Rattle.h1_client.specs.Reading.{IsInPlace, JudgesHead, Refuses, StopsFor, TakesHead, stop_error};
ghost use Rattle.h1_client.specs.Responses.{final_of, has_bad_length};

use crate::framing::{framing_to, has_bad_length};
use crate::response_place::ResponsePlace;
use futures::task::Poll;
use h1_cut::HeadSearch;
use h1_error::{Error, ErrorType, HeadFault};
use h1_head::{RequestHeader, is_interim};
use h1_link::Link;
use h1_transfer::{HeadRead, HeadStop, Transfer};
use std::mem;

/// The responses that a session reads.
#[derive(Drop)]
pub(crate) struct Answered {
    pub search: HeadSearch,
    /// The head that was read last.
    pub last: ResponsePlace,
    /// The refusal that each later read of a head answers.
    pub refused: Option<Error>,
}

impl Answered {
    /// Before the first response.
    pub fn new() -> Self
        ensures searched { HasLooked MAX_HEADER_SIZE result.search [] }
        ensures none { (result.last ≡ None) × (result.refused ≡ None) }
    {
        Answered {
            search: HeadSearch::new(),
            last: ResponsePlace::new(),
            refused: None,
        }
    }

    /// Whether the head of the final response was read.
    pub fn is_final(&self) -> bool
        ensures { result ≡ is_some (final_of self.now.last) }
    {
        match self.last.get() {
            Some(last) => !is_interim(last.header.status()),
            None => false,
        }
    }

    /// What a call answers that found a head, or none.
    pub fn judge<L: Link + Drop>(
        &mut self,
        transfer: &mut Transfer<L>,
        request: &Option<RequestHeader>,
        tolerant: bool,
        found: &mut ResponsePlace,
        read: HeadRead,
    ) -> Poll<Result<usize, Error>>
        requires begun { IsSome request.now }
        requires place { IsInPlace transfer.old.received found.old read }
        requires looked { HasLooked MAX_HEADER_SIZE self.old.search transfer.old.received }
        ensures takes { TakesHead tolerant transfer.old transfer.new self.old self.new request.now
            found.old read result }
        ensures link { transfer.new.link ≡ transfer.old.link }
        ensures told { read_fault_of result ≡ fault_of_head read }
    {
        let used = match read {
            HeadRead::Stopped(stop) => return self.stop(stop),
            HeadRead::Whole(used) => used,
        };
        let Some(request) = request else {
            unreachable!()
        };
        self.take(transfer, request, tolerant, found, used)
    }

    /// Uses the head of a response to this request, which takes so many of the received bytes. One
    /// whose length is stated wrongly is refused.
    fn take<L: Link + Drop>(
        &mut self,
        transfer: &mut Transfer<L>,
        request: &RequestHeader,
        tolerant: bool,
        found: &mut ResponsePlace,
        used: usize,
    ) -> Poll<Result<usize, Error>>
        requires head { IsSome found.old }
        requires within { used ≤ length transfer.old.received }
        requires looked { HasLooked MAX_HEADER_SIZE self.old.search transfer.old.received }
        ensures judges { IfSome found.old (λ head. JudgesHead transfer.old transfer.new self.old
            self.new request.now head used (has_bad_length tolerant head.header.fields) result) }
        ensures link { transfer.new.link ≡ transfer.old.link }
        ensures told { read_fault_of result ≡ no_fault }
    {
        let Some(head) = found.get() else {
            unreachable!()
        };
        if has_bad_length(tolerant, head.header.fields()) {
            return self.refuse(
                ErrorType::InvalidHTTPHeader(HeadFault::BadContentLength),
                false,
            );
        }
        let framing = framing_to(request, &head.header);
        transfer.skip(used);
        transfer.begin_body(framing);
        self.search = HeadSearch::new();
        mem::swap(&mut self.last, found);
        Poll::Ready(Ok(used))
    }

    /// What a call answers that read no head.
    fn stop(&mut self, stop: HeadStop) -> Poll<Result<usize, Error>>
        ensures answer { StopsFor self.old.refused self.new.refused stop result }
        ensures rest { self.new ≡ record self.old { refused = self.new.refused } }
        ensures told { read_fault_of result ≡ fault_of_stop stop }
    {
        match stop {
            HeadStop::Refused(fault) => self.refuse(ErrorType::InvalidHTTPHeader(fault), false),
            HeadStop::Closed | HeadStop::Cut => self.refuse(ErrorType::ConnectionClosed, true),
            HeadStop::NotReady | HeadStop::Spent => Poll::Pending,
            HeadStop::Late => self.refuse(ErrorType::ReadTimedout, false),
            HeadStop::Failed => self.refuse(ErrorType::ReadError, true),
            HeadStop::NoMemory => Poll::Ready(Err(Error::from(ErrorType::NoMemory))),
        }
    }

    /// Refuses for good.
    fn refuse(&mut self, kind: ErrorType, retry: bool) -> Poll<Result<usize, Error>>
        ensures refuses { Refuses self.new.refused (stop_error kind retry) result }
        ensures rest { self.new ≡ record self.old { refused = self.new.refused } }
    {
        let error = Error { kind, retry };
        self.refused = Some(error);
        Poll::Ready(Err(error))
    }
}
