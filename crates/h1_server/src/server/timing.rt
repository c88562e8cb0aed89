//! How long the reads and writes of a session may wait. All times are milliseconds; None is without
//! a limit.
ghost use Rattle.std.specs.Prelude.{◌≡◌, unwrap_or};
ghost use Rattle.h1_server.specs.SessionView.{times_set};
ghost use Rattle.h1_server.specs.Limit.{limited, shown};

use super::HttpSession;
use crate::Limit;
use h1_link::Link;

impl<L: Link + Drop, C: Drop> HttpSession<L, C> {
    /// Sets how long a read of the body may wait without reading bytes, and a read of a head where
    /// keep-alive is off.
    pub fn set_read_timeout(&mut self, timeout: Option<u64>)
        ensures { self.new ≡ times_set self.old (record self.old.settings.times { read = limited timeout }) }
    {
        self.settings.times.read = Limit::new(timeout);
    }

    pub fn get_read_timeout(&self) -> Option<u64>
        ensures { result ≡ shown self.now.settings.times.read }
    {
        self.settings.times.read.get()
    }

    /// Sets how long reading the rest of the body may take in all, from its first wait on.
    pub fn set_total_drain_timeout(&mut self, timeout: Option<u64>)
        ensures { self.new ≡ times_set self.old (record self.old.settings.times { drain = limited timeout }) }
    {
        self.settings.times.drain = Limit::new(timeout);
    }

    pub fn get_total_drain_timeout(&self) -> Option<u64>
        ensures { result ≡ shown self.now.settings.times.drain }
    {
        self.settings.times.drain.get()
    }

    /// Sets how long the write of a piece of the body may wait without writing bytes, where no
    /// rate is set.
    pub fn set_write_timeout(&mut self, timeout: Option<u64>)
        ensures { self.new ≡ times_set self.old (record self.old.settings.times { write = limited timeout }) }
    {
        self.settings.times.write = Limit::new(timeout);
    }

    pub fn get_write_timeout(&self) -> Option<u64>
        ensures { result ≡ shown self.now.settings.times.write }
    {
        self.settings.times.write.get()
    }

    /// Sets how many bytes a second are written of a piece at least, in place of the write timeout:
    /// a piece may wait as long as it takes at this rate, and a second where it is shorter. A rate
    /// of 0 is none.
    pub fn set_min_send_rate(&mut self, rate: Option<usize>)
        ensures { self.new ≡ times_set self.old
            (record self.old.settings.times { min_send_rate = unwrap_or rate 0 }) }
    {
        self.settings.times.min_send_rate = rate.unwrap_or(0);
    }
}
