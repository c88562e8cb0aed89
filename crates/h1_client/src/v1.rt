//! A client's session over a link, for one request and the responses to it (RFC 9112).
ghost use Rattle.std.specs.Prelude.{◌≡◌, ◌&&◌, IsSome, is_some, not};
ghost use Rattle.std.specs.Fn.{FnOnceTakesAtMut, FnOnceReturnsAtMut};
ghost use Rattle.h1_link.specs.Later.{KeepsBytes};
ghost use Rattle.h1_link.specs.Steps.{after_shutdown};

use crate::answered::Answered;
use crate::asked::Asked;
use crate::judging::is_at_end;
use crate::response_place::ResponsePlace;
use crate::{Keepalive, Peer, Settings};
use bytes::Bytes;
use futures::task::Poll;
use h1_error::Error;
use h1_link::Link;
use h1_transfer::{BodyState, Outgoing, Transfer};
use std::alloc::Global;
use std::marker::Model;

mod heads;
mod reading;
mod reusing;
mod tasks;
mod writing;

/// A client's session over a link.
#[derive(Drop)]
pub struct HttpSession<L: Link + Drop> {
    transfer: Transfer<L>,
    asked: Asked,
    answered: Answered,
    keepalive: Keepalive,
    settings: Settings,
    /// How many bytes of payload were read; it stops at 2^64 - 1.
    payload_read: u64,
    /// The answer whose payload is lent, which no contract sees.
    lent: Poll<Result<Option<Bytes>, Error>>,
    /// The last call stopped because its link calls that moved bytes were as many as it may make.
    spent: bool,
    /// The place that the head of a response is read into, which no contract sees.
    place: ResponsePlace,
}

impl<L: Link + Drop> Model for HttpSession<L> {
    ghost use Rattle.h1_client.specs.ClientView.{ClientView};
    ghost use Rattle.h1_client.specs.Responses.{final_of};
    ghost use Rattle.h1_client.specs.Sound.{Sound};

    ghost Value = { ClientView L };

    ghost view = { λ s. record {
      transfer = s.transfer;
      asked = s.asked;
      answered = s.answered;
      keepalive = s.keepalive;
      settings = s.settings;
      payload_read = s.payload_read;
      spent = s.spent;
    } };

    ghost invariant = { λ s. Sound (L.state s.transfer.link) s.transfer.received s.answered.search
        s.asked.request (final_of s.answered.last) s.transfer.body.reader s.transfer.outgoing
        s.keepalive };
}

impl<L: Link + Drop> HttpSession<L> {
    ghost use Rattle.h1_client.specs.ClientView.{IsNewSession, request_of, response_of};
    ghost use Rattle.h1_client.specs.Reusing.{is_body_done};
    ghost use Rattle.h1_client.specs.Served.{IsServed};
    ghost use Rattle.h1_client.specs.Settings.{new_settings, peer_settings};

    /// A session over a link that served whole exchanges and nothing else, as a new one did.
    pub fn new(alloc: Global, link: L) -> Self
        requires { IsServed (L.state link) }
        ensures { IsNewSession link new_settings result }
    {
        HttpSession::with_place(alloc, link, Settings::new(), ResponsePlace::new())
    }

    /// The same with what is set on the session, and with what the session before left.
    #[inline(always)]
    pub(crate) fn with_place(
        alloc: Global,
        link: L,
        settings: Settings,
        place: ResponsePlace,
    ) -> Self
        requires { IsServed (L.state link) }
        ensures { IsNewSession link settings result }
    {
        let mut place = place;
        let mut transfer = Transfer::new(alloc, link);
        place.swap_memory(&mut transfer);
        HttpSession {
            transfer,
            asked: Asked::new(),
            answered: Answered::new(),
            keepalive: Keepalive::Off,
            settings,
            payload_read: 0,
            lent: Poll::Pending,
            spent: false,
            place,
        }
    }

    /// The same with the key of the peer that the link leads to, and with what the peer tolerates.
    pub fn new_with_options(alloc: Global, link: L, peer: &Peer) -> Self
        requires { IsServed (L.state link) }
        ensures { IsNewSession link (peer_settings peer.now) result }
    {
        let settings = Settings::with_peer(peer);
        HttpSession::with_place(alloc, link, settings, ResponsePlace::new())
    }

    /// Whether the head of a request was taken up.
    pub fn has_request_begun(&self) -> bool
        ensures { result ≡ is_some (request_of self.now) }
    {
        self.asked.request.is_some()
    }

    /// Whether a request is begun, and its final response isn't.
    pub fn wants_head(&self) -> bool
        ensures { result ≡ (is_some (request_of self.now) && not (is_some (response_of self.now))) }
    {
        self.asked.request.is_some() && !self.has_final_head()
    }

    /// Whether the head of the final response was read.
    pub fn has_final_head(&self) -> bool
        ensures { result ≡ is_some (response_of self.now) }
    {
        self.answered.is_final()
    }

    /// The message that is written.
    pub fn outgoing(&self) -> &Outgoing
        ensures { result.now ≡ self.now.transfer.outgoing }
    {
        self.transfer.outgoing()
    }

    /// The body that is read.
    pub fn body(&self) -> &BodyState
        ensures { result.now ≡ self.now.transfer.body }
    {
        self.transfer.body()
    }

    /// The bytes that are received and not used.
    pub fn received(&self) -> &[u8]
        ensures { result.now ≡ self.now.transfer.received }
    {
        self.transfer.received()
    }

    /// What is set on the session.
    pub fn settings(&self) -> &Settings
        ensures { result.now ≡ self.now.settings }
    {
        &self.settings
    }

    /// Sets how many milliseconds a read may wait without bytes; None is without a limit.
    pub fn set_read_timeout(&mut self, timeout: Option<u64>)
        ensures { self.new
            ≡ record self.old { settings = record self.old.settings { read_timeout = timeout } } }
    {
        self.settings.read_timeout = timeout;
    }

    /// Sets how many milliseconds a write may wait without bytes; None is without a limit.
    pub fn set_write_timeout(&mut self, timeout: Option<u64>)
        ensures { self.new
            ≡ record self.old { settings = record self.old.settings { write_timeout = timeout } } }
    {
        self.settings.write_timeout = timeout;
    }

    /// Whether a response with one value of Content-Length that is no number is read until the link
    /// ends, and not refused.
    pub fn set_allow_h1_response_invalid_content_length(&mut self, on: bool)
        ensures { self.new
            ≡ record self.old { settings = record self.old.settings { tolerant = on } } }
    {
        self.settings.tolerant = on;
    }

    /// Whether the last call stopped because its link calls that moved bytes were as many as it may
    /// make.
    pub fn budget_spent(&self) -> bool
        ensures { result ≡ self.now.spent }
    {
        self.spent
    }

    /// Whether the body of the final response ended or failed.
    pub fn is_body_done(&self) -> bool
        requires { IsSome (response_of self.now) }
        ensures { result ≡ is_body_done self.now }
    {
        let body = self.transfer.body();
        is_at_end(&body.reader) || body.refused.is_some()
    }

    /// How many bytes of payload were read of the final response's body. The count stands still at
    /// its type's end.
    pub fn body_bytes_received(&self) -> u64
        ensures { result ≡ self.now.payload_read }
    {
        self.payload_read
    }

    /// Closes the link for both sides.
    pub fn shutdown(&mut self)
        ensures state { L.state self.new.transfer.link
            ≡ after_shutdown (L.state self.old.transfer.link) }
        ensures rest { self.new ≡ record self.old {
          transfer = record self.old.transfer { link = self.new.transfer.link };
        } }
        ensures plan { L.same_plan self.old.transfer.link self.new.transfer.link }
    {
        self.transfer.shutdown();
    }

    pub fn link(&self) -> &L
        ensures { result.now ≡ self.now.transfer.link }
    {
        self.transfer.link()
    }

    /// Calls a function on the link, which may move none of its bytes.
    pub fn with_link<T, F: FnOnce(&mut L) -> T>(&mut self, f: F) -> T
        requires may { FnOnceTakesAtMut F.FnOnce f self.old.transfer.link }
        requires keeps { (answer : T) (link : L)
            → FnOnceReturnsAtMut F.FnOnce f self.old.transfer.link answer link
            → KeepsBytes (L.state self.old.transfer.link) (L.state link) }
        ensures called { FnOnceReturnsAtMut F.FnOnce f self.old.transfer.link result
            self.new.transfer.link }
        ensures rest { self.new ≡ record self.old {
          transfer = record self.old.transfer { link = self.new.transfer.link };
        } }
    {
        self.transfer.with_link(f)
    }

    pub fn into_inner(self) -> L
        ensures { result ≡ self.transfer.link }
    {
        self.transfer.into_link()
    }
}
