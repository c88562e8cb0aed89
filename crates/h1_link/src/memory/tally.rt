//! What a link that keeps no byte gave and took.
ghost use Rattle.std.specs.Prelude.{◌≡◌};
ghost use Rattle.h1_link.specs.LinkState.{fresh_state};
ghost use Rattle.h1_link.specs.Steps.{FitsRead, FitsWrite, after_read, after_write};
ghost use Rattle.h1_link.specs.Steps.{after_flush, after_shutdown};

use crate::link::{FlushStep, ReadStep, WriteStep};
use crate::memory::counts::{Counts, raise_by};
use crate::tap::Tap;
use std::marker::Model;

/// The counts of a link, and the bytes that it gave and took, of which memory holds none. Contracts
/// see them as the link's state.
#[derive(Drop)]
pub struct Tally {
    given: Tap,
    written: Tap,
    counts: Counts,
    ended: bool,
    bytes_in: u64,
    bytes_out: u64,
    flushed: u64,
    shut: bool,
    shut_at: u64,
}

impl Model for Tally {
    ghost use Rattle.std.specs.Prelude.{Some};
    ghost use Rattle.h1_link.specs.LinkState.{LinkState};

    ghost Value = { LinkState };

    ghost view = { λ t. record {
      given = Some t.given;
      written = Some t.written;
      ended = t.ended;
      read_faults = t.counts.read_faults;
      write_faults = t.counts.write_faults;
      read_waits = t.counts.read_waits;
      write_waits = t.counts.write_waits;
      bytes_in = t.bytes_in;
      bytes_out = t.bytes_out;
      moves = t.counts.moves;
      others = t.counts.others;
      flushed = t.flushed;
      shut = t.shut;
      shut_at = t.shut_at;
    } };
}

impl Tally {
    /// The state before the first call.
    pub fn new() -> Self
        ensures { result ≡ fresh_state }
    {
        Tally {
            given: Tap::new(),
            written: Tap::new(),
            counts: Counts::NONE,
            ended: false,
            bytes_in: 0,
            bytes_out: 0,
            flushed: 0,
            shut: false,
            shut_at: 0,
        }
    }

    /// Whether the link was shut down.
    pub fn is_shut(&self) -> bool
        ensures { result ≡ self.now.shut }
    {
        self.shut
    }

    /// A read into this buffer answered this.
    pub fn count_read(&mut self, buf: &[u8], step: ReadStep)
        requires { FitsRead buf.now step }
        ensures { self.new ≡ after_read self.old buf.now step }
    {
        match step {
            ReadStep::Got(count) => {
                self.given.pass(&buf[..count]);
                self.bytes_in = raise_by(self.bytes_in, count as u64);
                self.counts.count_move();
            }
            ReadStep::End => {
                self.ended = true;
                self.counts.count_other();
            }
            ReadStep::NotReady => self.counts.count_read_wait(),
            ReadStep::Failed => self.counts.count_read_fault(),
            ReadStep::NoMemory => self.counts.count_other(),
        }
    }

    /// A write of this piece answered this.
    pub fn count_write(&mut self, piece: &[u8], step: WriteStep)
        requires { FitsWrite piece.now step }
        ensures { self.new ≡ after_write self.old piece.now step }
    {
        match step {
            WriteStep::Took(0) if piece.is_empty() => self.counts.count_other(),
            WriteStep::Took(0) => self.counts.count_write_fault(),
            WriteStep::Took(count) => {
                self.written.pass(&piece[..count]);
                self.bytes_out = raise_by(self.bytes_out, count as u64);
                self.counts.count_move();
            }
            WriteStep::NotReady => self.counts.count_write_wait(),
            WriteStep::Failed => self.counts.count_write_fault(),
            WriteStep::NoMemory => self.counts.count_other(),
        }
    }

    /// A flush answered this.
    pub fn count_flush(&mut self, step: FlushStep)
        ensures { self.new ≡ after_flush self.old step }
    {
        match step {
            FlushStep::Done => {
                self.flushed = self.flushed.max(self.bytes_out);
                self.counts.count_other();
            }
            FlushStep::NotReady => self.counts.count_write_wait(),
            FlushStep::Failed => self.counts.count_write_fault(),
        }
    }

    /// The link was shut down.
    pub fn count_shutdown(&mut self)
        ensures { self.new ≡ after_shutdown self.old }
    {
        self.shut = true;
        self.shut_at = self.flushed;
        self.counts.count_other();
    }
}
