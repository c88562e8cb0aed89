//! How long the reads and writes of a session may wait. All times are milliseconds.
ghost use Rattle.std.specs.Prelude.{◌≡◌, ◌<◌};
ghost use Rattle.h1_server.specs.Times.{body_deadline, drain_limits, head_limit, new_times, piece_deadline, piece_limit, rate_time};

use crate::{Limit, Outgoing, Settings};
use bytes::Bytes;
use h1_transfer::{Deadline, DrainLimits};

/// How long a read of a head or of a body may wait, where nothing else is set.
pub const READ_TIMEOUT: u64 = 60_000;

/// How long the reads and writes of a session may wait without moving bytes.
#[derive(Clone, Copy, Debug, PartialEq, Eq)]
pub struct Times {
    /// A read of the body, or of a head where keep-alive is off.
    pub read: Limit,
    /// Reading the rest of the body in all, from its first wait on.
    pub drain: Limit,
    /// A write of a piece of the body, where no rate is set.
    pub write: Limit,
    /// How many bytes a second are written at least; 0 is none.
    pub min_send_rate: usize,
}

impl Times {
    /// Reads may wait a minute, and nothing else has a limit.
    pub(crate) fn new() -> Self
        ensures { result ≡ new_times }
    {
        Times {
            read: Limit::new(Some(READ_TIMEOUT)),
            drain: Limit::new(None),
            write: Limit::new(None),
            min_send_rate: 0,
        }
    }
}

/// How long the read of a head may wait: the time of keep-alive, of which 0 is no limit, or the read
/// timeout where keep-alive is off.
pub(crate) fn head_limit(settings: &Settings) -> Option<u64>
    ensures { result ≡ head_limit settings.now }
{
    if settings.keep_off {
        settings.times.read.get()
    } else if settings.keepalive == 0 {
        None
    } else {
        Some(settings.keepalive.saturating_mul(1000))
    }
}

/// How long reading a part of the body may wait.
pub(crate) fn body_deadline(times: Times, moment: u64) -> Deadline
    ensures { result ≡ body_deadline times moment }
{
    Deadline {
        moment,
        limit: times.read.get(),
    }
}

/// How long reading the rest of the body may wait.
pub(crate) fn drain_limits(times: Times, moment: u64) -> DrainLimits
    ensures { result ≡ drain_limits times moment }
{
    DrainLimits {
        moment,
        read: times.read.get(),
        total: times.drain.get(),
    }
}

/// How long the write of the piece that is handed in may wait, or of the one that goes on.
pub(crate) fn piece_deadline(
    times: Times,
    moment: u64,
    reply: &Outgoing,
    piece: &Option<Bytes>,
) -> Deadline
    ensures { result ≡ piece_deadline times moment reply.now piece.now }
{
    let len = match piece {
        Some(piece) => piece.len(),
        None => reply.handed,
    };
    Deadline {
        moment,
        limit: piece_limit(times, len),
    }
}

/// How long the write of a piece of this length may wait.
fn piece_limit(times: Times, len: usize) -> Option<u64>
    ensures { result ≡ piece_limit times len }
{
    match times.min_send_rate {
        0 => times.write.get(),
        rate => Some(rate_time(len, rate)),
    }
}

/// The time that a piece of this length takes at a rate in bytes a second, which is at least a
/// second; it stops at 2^64 - 1.
fn rate_time(len: usize, rate: usize) -> u64
    requires { 0 < rate }
    ensures { result ≡ rate_time len rate }
{
    let time = len.max(rate) as u128 * 1000 / rate as u128;
    time.min(u64::MAX as u128) as u64
}
