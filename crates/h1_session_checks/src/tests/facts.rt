//! What a session says of itself, and what went over its link.
use super::Timed;
use super::calls::is_new;
use h1_server::{Limit, Settings, Times};

/// What a session says of itself.
#[derive(Clone, Copy)]
pub enum Fact {
    ReadTimeout(Option<u64>),
    DrainTimeout(Option<u64>),
    WriteTimeout(Option<u64>),
    /// The least rate of a piece, of which 0 is none.
    Rate(usize),
    /// How many seconds a head is awaited.
    Keepalive(Option<u64>),
    /// Whether the header of the reply says that the connection is kept.
    ReplyKeeps(bool),
    /// Whether the connection is kept behind this request.
    Kept(bool),
    /// Whether bytes were received behind the request.
    Prefixed(bool),
    /// What was kept with the connection. It is handed out once.
    Context(Option<u32>),
    /// A request with this target was read.
    Target(&'static [u8]),
    /// Nothing was read of a request, and so many may follow it. What is set is what a request has
    /// behind one that has pipelining on.
    Anew(Option<u32>),
    /// The link may serve no other request, and was shut.
    Ended,
}

/// What went over a link.
#[derive(Clone, Copy)]
pub enum Traffic {
    /// How many bytes the link gave.
    Gave(usize),
    /// The bytes that the link gave.
    Given(&'static [u8]),
    /// How many bytes of the reply were written.
    Wrote(u64),
    /// The bytes that the link took.
    Written(&'static [u8]),
    /// All that was written of the reply was flushed.
    Flushed,
}

/// Whether a session says this.
pub(crate) fn holds(timed: &mut Timed, fact: Fact) -> bool {
    match fact {
        Fact::ReadTimeout(timeout) => timed.session.get_read_timeout() == timeout,
        Fact::DrainTimeout(timeout) => timed.session.get_total_drain_timeout() == timeout,
        Fact::WriteTimeout(timeout) => timed.session.get_write_timeout() == timeout,
        Fact::Rate(rate) => timed.session.settings().times.min_send_rate == rate,
        Fact::Keepalive(seconds) => timed.session.get_keepalive_timeout() == seconds,
        Fact::ReplyKeeps(keeps) => timed.session.reply_keeps() == keeps,
        Fact::Kept(kept) => timed.session.will_keepalive() == kept,
        Fact::Prefixed(prefixed) => timed.session.has_prefix() == prefixed,
        Fact::Context(context) => timed.session.take_connection_user_context() == context,
        Fact::Target(target) => is_asked_for(timed, target),
        Fact::Anew(reuses) => is_new(timed) && *timed.session.settings() == next_settings(reuses),
        Fact::Ended => !timed.session.is_reusable() && timed.session.link().is_shut(),
    }
}

/// Whether this went over the link.
pub(crate) fn went(timed: &Timed, traffic: Traffic) -> bool {
    match traffic {
        Traffic::Gave(count) => timed.session.link().given().len() == count,
        Traffic::Given(bytes) => timed.session.link().given() == bytes,
        Traffic::Wrote(count) => timed.session.written_bytes() == count,
        Traffic::Written(bytes) => timed.session.link().written() == bytes,
        Traffic::Flushed => timed.session.link().flushed() == timed.session.written_bytes(),
    }
}

/// Whether a request with this target was read.
fn is_asked_for(timed: &Timed, target: &[u8]) -> bool {
    timed.session.has_request() && timed.session.req_header().raw_path() == target
}

/// What is set for a request behind one that has pipelining on, where so many more may follow.
fn next_settings(reuses: Option<u32>) -> Settings {
    Settings {
        keep_off: false,
        keepalive: 0,
        closing: true,
        pipelining: true,
        reuses,
        times: Times {
            read: Limit::new(Some(60_000)),
            drain: Limit::new(None),
            write: Limit::new(None),
            min_send_rate: 0,
        },
    }
}
