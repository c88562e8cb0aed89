//! The session: one exchange at a time over a link, call by call.
ghost use Rattle.std.specs.Prelude.{◌≡◌, ◌↔◌, [], IsTrue, IsSome, IfSome, None, Some, true, false, is_some, length, ◌≤◌, MatchOption, IsOkAnd};
ghost use Rattle.std.specs.Option.{option_copied};
ghost use Rattle.h1_body.specs.Payload.{no_payload};
ghost use Rattle.h1_transfer.specs.Decoding.{held_of, noted_of};
ghost use Rattle.h1_link.specs.Steps.{after_shutdown};
ghost use Rattle.h1_link.specs.Later.{KeepsBytes};
ghost use Rattle.std.specs.Fn.{FnOnceTakesAtMut, FnOnceReturnsAtMut};
ghost use Rattle.h1_server.specs.Keepalive.{keepalive_set, keepalive_timeout};

use crate::persistence::is_at_end;
use crate::request_state::RequestState;
use crate::{Request, Settings, Step};
use h1_body::{Gathering, Payload};
use h1_error::Error;
use h1_head::{CacheableDate, RequestHeader, Room};
use h1_link::Link;
use h1_transfer::Transfer;
use std::alloc::Global;
use std::marker::Model;

mod heads;
mod keeping;
mod replies;
mod requests;
mod reusing;
mod timing;

/// A server's session over a link, for one request and its reply at a time.
#[derive(Drop)]
pub struct HttpSession<L: Link + Drop, C: Drop> {
    pub(crate) transfer: Transfer<L>,
    pub(crate) asked: RequestState,
    pub(crate) settings: Settings,
    /// The flag of the final header that was taken up.
    pub(crate) keep: bool,
    reusable: bool,
    context: Option<C>,
    /// The date that was printed last, which replies of the same second share.
    dates: CacheableDate,
    /// The read timeout that was in force at the read of the body that timed out.
    read_limit: Option<u64>,
}

impl<L: Link + Drop, C: Drop> Model for HttpSession<L, C> {
    ghost use Rattle.h1_server.specs.SessionView.{SessionView, IsSearched, request_in};

    ghost Value = { SessionView L C };

    ghost view = { λ s. record {
      link = s.transfer.link;
      received = s.transfer.received;
      request = request_in s.asked;
      refused = s.asked.refused;
      body = s.transfer.body;
      reply = s.transfer.outgoing;
      keep = s.keep;
      settings = s.settings;
      budget = s.transfer.budget;
      reusable = s.reusable;
      context = s.context;
      read_limit = s.read_limit;
    } };

    ghost invariant = { λ s. IsSearched (request_in s.asked) s.asked.search s.transfer.received };
}

impl<L: Link + Drop, C: Drop> HttpSession<L, C> {
    ghost use Rattle.std.specs.Borrow.{sem};
    ghost use Rattle.h1_server.specs.Heads.{LendsHeader};
    ghost use Rattle.h1_server.specs.SessionView.{IsNewSession};
    ghost use Rattle.h1_transfer.specs.declared.outgoing.Step.TheVariants.{Free};
    ghost use Rattle.h1_server.specs.Persistence.{is_whole};
    ghost use Rattle.h1_body.specs.Reader.{reads};

    /// A session over a link. Keep-alive is off until a head is read.
    pub fn new(alloc: Global, link: L) -> Result<Self, Error>
        ensures { IsOkAnd result (IsNewSession link) }
    {
        Ok(HttpSession {
            transfer: Transfer::new(alloc, link),
            asked: RequestState::new(alloc),
            settings: Settings::new(),
            keep: false,
            reusable: false,
            context: None,
            dates: CacheableDate::new(0),
            read_limit: None,
        })
    }

    /// Whether the head of the request was read.
    pub fn has_request(&self) -> bool
        ensures { result ≡ is_some self.now.request }
    {
        self.asked.is_read
    }

    /// The request, once its head was read.
    pub fn request(&self) -> Option<&Request>
        ensures { MatchOption result (self.now.request ≡ None)
            (λ request. self.now.request ≡ Some request.now) }
    {
        self.asked.get()
    }

    /// The head of the request.
    pub fn req_header(&self) -> &RequestHeader
        requires { IsSome self.now.request }
        ensures { IfSome self.now.request (λ request. result.now ≡ request.header) }
    {
        &self.asked.place.request.header
    }

    /// The head of the request, to be changed. What else was read of the request stays.
    #[inline(always)]
    pub fn req_header_mut(&mut self) -> &mut RequestHeader
        requires { IsSome self.old.request }
        ensures* lends { sem 𝓛 (LendsHeader L.row C.row L.Link self.entry result) }
        ensures value { IfSome self.old.request (λ request. result.now ≡ request.header) }
    {
        &mut self.asked.place.request.header
    }

    /// Which write is in progress, and may be made again with nothing handed in.
    pub fn step(&self) -> Step
        ensures { result ≡ self.now.reply.step }
    {
        self.transfer.outgoing().step
    }

    /// Whether no write is in progress.
    pub fn is_free(&self) -> bool
        ensures { IsTrue result ↔ (self.now.reply.step ≡ Free) }
    {
        self.transfer.outgoing().step == Step::Free
    }

    /// Turns keep-alive off, or sets the deadline of the next head in seconds, of which 0 is none. A
    /// request that doesn't wish it isn't kept all the same (`will_keepalive`).
    pub fn set_server_keepalive(&mut self, seconds: Option<u64>)
        ensures { self.new
            ≡ record self.old { settings = keepalive_set self.old.settings seconds } }
    {
        self.settings.set_keepalive(seconds);
    }

    /// The deadline of the next head in seconds, of which 0 is none; None where keep-alive was set off.
    pub fn get_keepalive_timeout(&self) -> Option<u64>
        ensures { result ≡ keepalive_timeout self.now.settings }
    {
        if self.settings.keep_off {
            None
        } else {
            Some(self.settings.keepalive)
        }
    }

    /// Whether bytes after the request begin the next one.
    pub fn pipelining_enabled(&self) -> bool
        ensures { result ≡ self.now.settings.pipelining }
    {
        self.settings.pipelining
    }

    pub fn set_pipelining_enabled(&mut self, enabled: bool)
        ensures { self.new
            ≡ record self.old { settings = record self.old.settings { pipelining = enabled } } }
    {
        self.settings.pipelining = enabled;
    }

    /// Sets how many link calls that move bytes all calls together may make from here on; with
    /// None each call has a budget of its own.
    pub fn set_poll_budget(&mut self, budget: Option<u32>)
        ensures { self.new ≡ record self.old { budget = budget } }
    {
        self.transfer.set_budget(budget);
    }

    pub fn poll_budget(&self) -> Option<u32>
        ensures { result ≡ self.now.budget }
    {
        self.transfer.budget()
    }

    /// From here on all payload that is read is noted in this, which is lent until it is given back,
    /// and a body whose reading was out of memory, or that goes on past its limit, has failed.
    #[inline(always)]
    pub fn lend_payload(&mut self, payload: &mut Payload)
        ensures kept { self.new
            ≡ record self.old { body = record self.old.body { kept = Some payload.old } } }
        ensures left { payload.new ≡ no_payload payload.old.gathering }
    {
        self.transfer.lend_payload(payload);
    }

    /// The same with payload of which nothing was read yet.
    #[inline(always)]
    pub fn begin_payload(&mut self, gathering: Gathering)
        ensures { self.new
            ≡ record self.old
            { body = record self.old.body { kept = Some (no_payload gathering) } } }
    {
        self.transfer.begin_payload(gathering);
    }

    /// Notes no payload from here on, and drops what was noted.
    #[inline(always)]
    pub fn drop_payload(&mut self)
        ensures { self.new ≡ record self.old { body = record self.old.body { kept = None } } }
    {
        self.transfer.drop_payload();
    }

    /// All payload that was noted, where it is held. Otherwise it was handed out in pieces alone.
    #[inline(always)]
    pub fn held_payload(&self) -> Option<&[u8]>
        ensures { option_copied result ≡ held_of self.now.body.kept }
    {
        self.transfer.held_payload()
    }

    /// How many bytes of payload were noted: never more than its limit.
    #[inline(always)]
    pub fn payload_len(&self) -> u64
        ensures value { result ≡ length (noted_of self.now.body.kept) }
        ensures within { IfSome self.now.body.kept
            (λ kept. length kept.bytes ≤ kept.gathering.limit) }
    {
        self.transfer.payload_len()
    }

    /// Gives the payload that was noted back to its place, and notes none from here on.
    #[inline(always)]
    pub fn give_payload_back(&mut self, payload: &mut Payload)
        requires { IsSome self.old.body.kept }
        ensures given { Some payload.new ≡ self.old.body.kept }
        ensures rest { self.new ≡ record self.old { body = record self.old.body { kept = None } } }
    {
        self.transfer.give_payload_back(payload);
    }

    /// Lends a room for the body of a reply, with nothing in it. Bodies that are made in it share
    /// blocks of memory with one another and with the heads of requests. Until it is given back
    /// another stands in.
    pub fn take_room(&mut self) -> Room
        ensures empty { result ≡ [] }
        ensures same { self.new ≡ self.old }
    {
        self.transfer.take_room()
    }

    /// Gives the room back.
    pub fn put_room(&mut self, room: Room)
        ensures { self.new ≡ self.old }
    {
        self.transfer.put_room(room);
    }

    /// Whether a read of the body was pending since this was last asked.
    pub fn take_waits(&mut self) -> bool
        ensures asked { result ≡ self.old.body.waits }
        ensures rest { self.new
            ≡ record self.old { body = record self.old.body { waits = false } } }
    {
        self.transfer.take_waits()
    }

    /// Whether a final header was taken up.
    pub fn is_headed(&self) -> bool
        ensures { result ≡ self.now.reply.headed }
    {
        self.transfer.outgoing().headed
    }

    /// The flag of the final header that was taken up.
    pub fn reply_keeps(&self) -> bool
        ensures { result ≡ self.now.keep }
    {
        self.keep
    }

    /// How many bytes of the reply were written; it stops at 2^64 - 1.
    pub fn written_bytes(&self) -> u64
        ensures { result ≡ self.now.reply.sent }
    {
        self.transfer.outgoing().sent
    }

    /// What is set on the session.
    pub fn settings(&self) -> &Settings
        ensures { result.now ≡ self.now.settings }
    {
        &self.settings
    }

    /// The refusal that each later read of the body answers.
    pub fn body_error(&self) -> Option<Error>
        ensures { result ≡ self.now.body.refused }
    {
        self.transfer.body().refused
    }

    /// The read timeout that was in force at the read of the body that timed out, where one did and
    /// had one.
    pub fn read_limit(&self) -> Option<u64>
        ensures { result ≡ self.now.read_limit }
    {
        self.read_limit
    }

    /// Whether the request's body was read to its end.
    pub fn is_body_read(&self) -> bool
        ensures { result ≡ is_whole (reads self.now.body.reader []) }
    {
        is_at_end(&self.transfer.body().reader)
    }

    /// Closes the link for both sides.
    pub fn shutdown(&mut self)
        ensures state { L.state self.new.link ≡ after_shutdown (L.state self.old.link) }
        ensures rest { self.new ≡ record self.old { link = self.new.link } }
        ensures plan { L.same_plan self.old.link self.new.link }
    {
        self.transfer.shutdown();
    }

    pub fn into_inner(self) -> L
        ensures { result ≡ self.link }
    {
        self.transfer.into_link()
    }

    pub fn link(&self) -> &L
        ensures { result.now ≡ self.now.link }
    {
        self.transfer.link()
    }

    /// Calls a function on the link, which may move none of its bytes.
    pub fn with_link<T, F: FnOnce(&mut L) -> T>(&mut self, f: F) -> T
        requires may { FnOnceTakesAtMut F.FnOnce f self.old.link }
        requires keeps { (answer : T) (link : L)
            → FnOnceReturnsAtMut F.FnOnce f self.old.link answer link
            → KeepsBytes (L.state self.old.link) (L.state link) }
        ensures called { FnOnceReturnsAtMut F.FnOnce f self.old.link result self.new.link }
        ensures rest { self.new ≡ record self.old { link = self.new.link } }
        ensures keeps { KeepsBytes (L.state self.old.link) (L.state self.new.link) }
    {
        self.transfer.with_link(f)
    }
}
