//! What is set for a connection that persists, and what stands of its request.
ghost use Rattle.std.specs.Prelude.{◌≡◌, [], is_some, IsSome, IfSome, None};
ghost use Rattle.h1_server.specs.Payload.{is_empty_framing};

use super::HttpSession;
use crate::persistence::is_at_end;
use crate::settings::wished;
use bytes::BytesMut;
use h1_body::Framing;
use h1_head::HeadSearch;
use h1_link::Link;

impl<L: Link + Drop, C: Drop> HttpSession<L, C> {
    ghost use Rattle.h1_server.specs.Keepalive.{keepalive_set, wished};
    ghost use Rattle.h1_server.specs.Persistence.{is_body_done};
    ghost use Rattle.h1_server.specs.Payload.{is_empty_framing};
    ghost use Rattle.h1_server.specs.Reuse.{prefix_of};

    /// Turns keep-alive on without a deadline where the request wishes it, else off.
    pub fn respect_keepalive(&mut self)
        requires { IsSome self.old.request }
        ensures { IfSome self.old.request
            (λ request. self.new
            ≡ record self.old
            { settings = keepalive_set self.old.settings (wished request.wish) }) }
    {
        self.settings
            .set_keepalive(wished(self.asked.place.request.wish));
    }

    /// Sets how many requests more may be served after this one; None is no limit.
    pub fn set_keepalive_reuses_remaining(&mut self, reuses: Option<u32>)
        ensures { self.new
            ≡ record self.old { settings = record self.old.settings { reuses = reuses } } }
    {
        self.settings.reuses = reuses;
    }

    pub fn get_keepalive_reuses_remaining(&self) -> Option<u32>
        ensures { result ≡ self.now.settings.reuses }
    {
        self.settings.reuses
    }

    /// Sets whether a header that is taken up before the request's body ends closes the connection.
    pub fn set_close_on_response_before_downstream_finish(&mut self, closing: bool)
        ensures { self.new
            ≡ record self.old { settings = record self.old.settings { closing = closing } } }
    {
        self.settings.closing = closing;
    }

    /// Puts bytes before what the link gives: they are parsed before any read.
    pub fn set_pipelined_prefix(&mut self, prefix: BytesMut)
        requires { (self.old.request ≡ None) × (self.old.received ≡ []) }
        ensures { self.new ≡ record self.old { received = prefix.items } }
    {
        self.transfer.set_received(prefix);
        self.asked.search = HeadSearch::new();
    }

    /// Whether bytes were received that aren't used yet.
    pub fn has_prefix(&self) -> bool
        ensures { result ≡ is_some (prefix_of self.now.received) }
    {
        !self.transfer.received().is_empty()
    }

    /// Keeps a value of the caller's with the connection, or none.
    pub fn set_connection_user_context(&mut self, context: Option<C>)
        ensures { self.new ≡ record self.old { context = context } }
    {
        self.context = context;
    }

    /// Hands out what the caller kept with the connection.
    pub fn take_connection_user_context(&mut self) -> Option<C>
        ensures taken { result ≡ self.old.context }
        ensures rest { self.new ≡ record self.old { context = None } }
    {
        self.context.take()
    }

    /// Whether the request's body was read to its end, or can't be read on.
    pub fn is_body_done(&mut self) -> bool
        requires { IsSome self.old.request }
        ensures answer { result ≡ is_body_done self.old.body }
        ensures same { self.new ≡ self.old }
    {
        is_at_end(&self.transfer.body().reader) || self.transfer.body().refused.is_some()
    }

    /// Whether the request has no body.
    pub fn is_body_empty(&mut self) -> bool
        requires { IsSome self.old.request }
        ensures answer { IfSome self.old.request
            (λ request. result ≡ is_empty_framing request.framing) }
        ensures same { self.new ≡ self.old }
    {
        is_empty_framing(self.asked.place.request.framing)
    }
}

fn is_empty_framing(framing: Framing) -> bool
    ensures { result ≡ is_empty_framing framing }
{
    match framing {
        Framing::Counted(length) => length == 0,
        Framing::Chunked | Framing::UntilClose => false,
    }
}
