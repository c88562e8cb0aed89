//! Since when the reading of a message waits. All times are milliseconds.
ghost use Rattle.std.specs.Prelude.{◌≡◌, ◌&&◌};
ghost use Rattle.h1_transfer.specs.Deadline.{is_over, is_waiting};
ghost use Rattle.h1_transfer.specs.ReadWaits.{is_drain_over, no_wait, part_behind, part_wait, rest_behind};

use crate::{Deadline, Went};

/// Since when the reading of a message waits for its link.
#[derive(Clone, Copy, Debug, PartialEq, Eq)]
pub struct Since {
    /// Since when the read in progress waits: that of a head, of the body or of its rest.
    pub read: Option<u64>,
    /// When a read of the body's rest waited first. While it is there, the rest is read.
    pub drain: Option<u64>,
}

/// How long the reading of a body's rest may wait: without reading bytes, and in all from its first
/// wait on.
#[derive(Clone, Copy, Debug, PartialEq, Eq)]
pub struct DrainLimits {
    pub moment: u64,
    pub read: Option<u64>,
    pub total: Option<u64>,
}

impl Since {
    /// Nothing waits.
    #[inline(always)]
    pub fn new() -> Self
        ensures { result ≡ no_wait }
    {
        Since {
            read: None,
            drain: None,
        }
    }

    /// Judges a read of a part of the body. What a read of the rest noted is dropped.
    #[inline(always)]
    pub fn judge_part(&mut self, went: Went, moved: bool, deadline: Deadline) -> bool
        ensures noted { self.new ≡ part_behind went deadline moved self.old }
        ensures judged { result ≡ (is_waiting went && is_over (part_wait deadline moved self.old)) }
    {
        match went {
            Went::Done => {
                *self = Since::new();
                false
            }
            went => self.judge_part_stop(went, moved, deadline),
        }
    }

    // The same of a read that stopped before it did what was asked.
    #[cold]
    fn judge_part_stop(&mut self, went: Went, moved: bool, deadline: Deadline) -> bool
        ensures noted { self.new ≡ part_behind went deadline moved self.old }
        ensures judged { result ≡ (is_waiting went && is_over (part_wait deadline moved self.old)) }
    {
        if self.drain.is_some() {
            *self = Since::new();
        }
        deadline.judge(went, moved, &mut self.read)
    }

    /// Judges a read of the rest of the body. What a read of a part noted is dropped.
    #[inline(always)]
    pub fn judge_rest(&mut self, went: Went, moved: bool, limits: DrainLimits) -> bool
        ensures noted { self.new ≡ rest_behind went limits moved self.old }
        ensures judged { result ≡ (is_waiting went && is_drain_over limits moved self.old) }
    {
        match went {
            Went::Done => {
                *self = Since::new();
                false
            }
            went => self.judge_rest_stop(went, moved, limits),
        }
    }

    // The same of a read that stopped before it did what was asked.
    #[cold]
    fn judge_rest_stop(&mut self, went: Went, moved: bool, limits: DrainLimits) -> bool
        ensures noted { self.new ≡ rest_behind went limits moved self.old }
        ensures judged { result ≡ (is_waiting went && is_drain_over limits moved self.old) }
    {
        if self.drain.is_none() {
            self.read = None;
        }
        let moment = limits.moment;
        let read = Deadline {
            moment,
            limit: limits.read,
        };
        let total = Deadline {
            moment,
            limit: limits.total,
        };
        let read_late = read.judge(went, moved, &mut self.read);
        // The time in all goes on whatever bytes are read.
        let total_late = total.judge(went, false, &mut self.drain);
        read_late || total_late
    }
}
