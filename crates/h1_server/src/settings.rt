//! What a caller sets on a session.
ghost use Rattle.std.specs.Prelude.{◌≡◌};
ghost use Rattle.h1_server.specs.Keepalive.{keepalive_set, new_settings, wished};
ghost use Rattle.h1_server.specs.Reuse.{next_settings, one_less};

use crate::Times;

/// How a session treats its connection.
#[derive(Clone, Copy, Debug, PartialEq, Eq)]
pub struct Settings {
    /// The deadline of the next head in seconds where keep-alive is on; 0 is none.
    pub keepalive: u64,
    /// Nothing may follow the reply.
    pub keep_off: bool,
    /// A header that is taken up before the request's body ends closes the connection.
    pub closing: bool,
    /// Bytes after the request begin the next one.
    pub pipelining: bool,
    /// How many requests more may be served after this one; None is no limit.
    pub reuses: Option<u32>,
    /// How long its reads and writes may wait.
    pub times: Times,
}

/// Keep-alive without a deadline where the request wishes it, and off where it doesn't.
pub(crate) fn wished(wish: bool) -> Option<u64>
    ensures { result ≡ wished wish }
{
    if wish { Some(0) } else { None }
}

/// One request fewer may follow, where there is a limit.
pub fn one_less(reuses: Option<u32>) -> Option<u32>
    ensures { result ≡ one_less reuses }
{
    match reuses {
        None => None,
        Some(left) => Some(left.saturating_sub(1)),
    }
}

impl Settings {
    /// Turns keep-alive off, or on with a deadline.
    #[inline(always)]
    pub(crate) fn set_keepalive(&mut self, seconds: Option<u64>)
        ensures { self.new ≡ keepalive_set self.old seconds }
    {
        match seconds {
            None => self.keep_off = true,
            Some(seconds) => {
                self.keep_off = false;
                self.keepalive = seconds;
            }
        }
    }

    /// Leaves what stays set from one request to the next.
    #[inline(always)]
    pub(crate) fn start_over(&mut self)
        ensures { self.new ≡ next_settings self.old }
    {
        self.closing = true;
        self.reuses = one_less(self.reuses);
        self.times = Times::new();
    }

    /// Keep-alive is off, a reply before the request's end closes, and nothing is pipelined.
    pub(crate) fn new() -> Self
        ensures { result ≡ new_settings }
    {
        Settings {
            keep_off: true,
            keepalive: 0,
            closing: true,
            pipelining: false,
            reuses: None,
            times: Times::new(),
        }
    }
}
