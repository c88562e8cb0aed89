//! When a connection persists after a reply (RFC 9112, section 9.3).
ghost use Rattle.std.specs.Prelude.{◌≡◌, []};
ghost use Rattle.std.specs.Option.{option_copied};
ghost use Rattle.h1_body.specs.Reader.{reads};
ghost use Rattle.h1_server.specs.Persistence.{keep_flag, has_reuses, is_body_whole, is_whole, grants, stays_open, is_replied, may_follow};

use crate::{BodyState, HttpSession, Outgoing, Request, Settings};
use h1_body::{BodyReader, FeedState};
use h1_link::Link;

/// The flag of a final header.
pub(crate) fn keep_flag(wish: bool, settings: Settings, body: &BodyState) -> bool
    ensures { result ≡ keep_flag wish settings body.now }
{
    wish && !settings.keep_off
        && has_reuses(settings.reuses)
        && (is_body_whole(body) || (!settings.closing && body.refused.is_none()))
}

impl<L: Link + Drop, C: Drop> HttpSession<L, C> {
    ghost use Rattle.h1_server.specs.Persistence.{keeps_alive, may_go_on};

    /// Whether the connection persists after this request (RFC 9112, section 9.3).
    pub fn will_keepalive(&self) -> bool
        ensures { result ≡ keeps_alive self.now }
    {
        !self.settings.keep_off
            && has_reuses(self.settings.reuses)
            && grants(self.asked.get())
            && self.transfer.body().refused.is_none()
            && stays_open(self.keep, self.transfer.outgoing())
    }

    /// Whether the connection persists, and the reply to this request is whole.
    #[inline(always)]
    pub(crate) fn may_go_on(&self) -> bool
        ensures { result ≡ may_go_on self.now }
    {
        self.will_keepalive() && is_replied(self.transfer.outgoing())
    }
}

/// Whether a further request may be served.
fn has_reuses(reuses: Option<u32>) -> bool
    ensures { result ≡ has_reuses reuses }
{
    match reuses {
        Some(left) => left > 0,
        None => true,
    }
}

/// The wish of the request, once its head was read.
fn grants(request: Option<&Request>) -> bool
    ensures { result ≡ grants (option_copied request.entry) }
{
    match request {
        Some(request) => request.wish,
        None => true,
    }
}

/// Whether the reply lets the connection go on, as far as it was taken up.
fn stays_open(keep: bool, reply: &Outgoing) -> bool
    ensures { result ≡ stays_open keep reply.now }
{
    !reply.headed || (keep && !reply.writer.is_until_close())
}

/// Whether a final reply was written to its end, with all bytes that it states, and no write was
/// refused.
fn is_replied(reply: &Outgoing) -> bool
    ensures { result ≡ is_replied reply.now }
{
    reply.headed && reply.refused.is_none() && reply.writer.finished() && !reply.writer.is_short()
}

/// Whether the next request may stand after these bytes.
pub(crate) fn may_follow(pipelining: bool, received: &[u8]) -> bool
    ensures { result ≡ may_follow pipelining received.now }
{
    pipelining || received.is_empty()
}

/// Whether the request's body was read to its end, and nothing failed in it.
fn is_body_whole(body: &BodyState) -> bool
    ensures { result ≡ is_body_whole body.now }
{
    is_at_end(&body.reader) && body.refused.is_none()
}

/// Whether a body was read to its end.
pub(crate) fn is_at_end(reader: &BodyReader) -> bool
    ensures { result ≡ is_whole (reads reader.now []) }
{
    match reader.state() {
        FeedState::Done => true,
        FeedState::More => false,
        FeedState::Broken => false,
    }
}
