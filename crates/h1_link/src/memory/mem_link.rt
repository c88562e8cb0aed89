//! A link in memory: its owner puts bytes ahead, and reads back what was written.
ghost use Rattle.std.specs.Prelude.{◌≡◌, ◌<◌, ◌⊎◌, [], ◌++◌, length, unwrap_or, OnOk, OnErr, IfErr, Some, None, true, false};
ghost use Rattle.h1_link.specs.MemState.{MemState, mem_state_of, new_mem_state};
ghost use Rattle.h1_link.specs.MemRule.{Rule};
ghost use Rattle.h1_link.specs.MemPlan.{SamePlan, plan_itself, plan_on};
ghost use Rattle.h1_link.specs.MemSteps.{read_answer, write_answer, flush_answer};
ghost use Rattle.h1_link.specs.MemSteps.{mem_after_read, mem_after_write, mem_after_flush};
ghost use Rattle.h1_link.specs.Steps.{FitsRead, FitsWrite, after_read, after_write};
ghost use Rattle.h1_link.specs.Steps.{after_flush, after_shutdown};

use crate::link::{FlushStep, Link, ReadStep, WriteStep};
use crate::memory::Gate;
use crate::memory::ahead::copy_ahead;
use crate::memory::counts::{Counts, raise};
use crate::memory::inlet::Inlet;
use crate::memory::outlet::Outlet;
use h1_error::{Error, ErrorType};
use std::alloc::Global;
use std::marker::Model;

/// A link in memory.
///
/// Reads hand out what was put ahead, and wait where nothing is. Writes keep all that they are
/// given, until the owner sets a limit.
#[derive(Drop)]
pub struct MemLink {
    inlet: Inlet,
    outlet: Outlet,
    counts: Counts,
    shut: bool,
}

impl Model for MemLink {
    ghost Value = { MemState };

    ghost view = { λ m. mem_state_of m.inlet m.outlet m.counts m.shut };

    ghost invariant = { λ m. Rule (mem_state_of m.inlet m.outlet m.counts m.shut) };
}

impl MemLink {
    /// A link with nothing ahead that takes everything.
    pub fn new(alloc: Global) -> Self
        ensures { result ≡ new_mem_state }
    {
        MemLink {
            inlet: Inlet {
                put: Vec::new(alloc),
                next: 0,
                end_at: None,
                ended: false,
                fault: false,
                noted: 0,
            },
            outlet: Outlet {
                written: Vec::new(alloc),
                flushed: 0,
                shut_at: 0,
                gate: Gate::Open,
                fault: false,
                noted: 0,
                unready: 0,
            },
            counts: Counts::NONE,
            shut: false,
        }
    }

    /// Puts these bytes after those that are ahead.
    pub fn give(&mut self, bytes: &[u8]) -> Result<(), Error>
        ensures ok { OnOk result (self.new ≡ record self.old {
          put = self.old.put ++ bytes.now;
          reads_noted = self.old.state.read_waits;
        }) }
        ensures no_memory { IfErr result (λ error.
            error ≡ record { kind = ErrorType.NoMemory; retry = false }) }
        ensures err { OnErr result (self.new ≡ self.old) }
    {
        self.inlet.put.extend_from_slice(bytes)?;
        self.inlet.noted = self.counts.read_waits;
        Ok(())
    }

    /// Ends the link after what is ahead. A second call adds nothing.
    pub fn end(&mut self)
        ensures { self.new ≡ record self.old {
          end_at = Some (unwrap_or self.old.end_at (length self.old.put));
          reads_noted = self.old.state.read_waits;
        } }
    {
        let end_at = self.inlet.end_at.unwrap_or(self.inlet.put.len());
        self.inlet.end_at = Some(end_at);
        self.inlet.noted = self.counts.read_waits;
    }

    /// Takes that many bytes more, and then lets writes wait.
    pub fn room(&mut self, n: u64)
        ensures { self.new ≡ record self.old {
          gate = Gate.Room n;
          writes_noted = self.old.state.write_waits;
        } }
    {
        self.outlet.gate = Gate::Room(n);
        self.outlet.noted = self.counts.write_waits;
    }

    /// Lets every write and flush wait.
    pub fn block(&mut self)
        ensures { self.new ≡ record self.old {
          gate = Gate.Blocked;
          writes_noted = self.old.state.write_waits;
        } }
    {
        self.outlet.gate = Gate::Blocked;
        self.outlet.noted = self.counts.write_waits;
    }

    /// Lets the next read fail.
    pub fn fail_next_read(&mut self)
        ensures { self.new ≡ record self.old { read_fault = true } }
    {
        self.inlet.fault = true;
    }

    /// Lets the next write fail.
    pub fn fail_next_write(&mut self)
        ensures { self.new ≡ record self.old { write_fault = true } }
    {
        self.outlet.fault = true;
    }

    /// The bytes that reads handed out.
    pub fn given(&self) -> &[u8]
        ensures { self.now.state.given ≡ Some result.now }
    {
        &self.inlet.put[..self.inlet.next]
    }

    /// The bytes that writes took.
    pub fn written(&self) -> &[u8]
        ensures { self.now.state.written ≡ Some result.now }
    {
        &self.outlet.written
    }

    /// How many of the written bytes a flush sent on.
    pub fn flushed(&self) -> u64
        ensures { result ≡ self.now.state.flushed }
    {
        self.outlet.flushed as u64
    }

    /// Whether the link was shut down.
    pub fn is_shut(&self) -> bool
        ensures { result ≡ self.now.state.shut }
    {
        self.shut
    }

    /// Tells a proof what holds of every link in memory.
    pub fn rule(&self)
        ensures { Rule self.now }
    {
        let _ = &self.counts;
    }
}

impl Link for MemLink {
    ghost state = { λ link. link.state };

    ghost same_plan = { SamePlan };

    fn poll_read(&mut self, buf: &mut [u8]) -> ReadStep
        requires { 0 < length buf.old }
        ensures fits { FitsRead buf.new result }
        ensures answer { result ≡ read_answer self.old (length buf.old) }
        ensures after { self.new ≡ mem_after_read self.old buf.new result }
        ensures state { self.new.state ≡ after_read self.old.state buf.new result }
        ensures plan { SamePlan self.old self.new }
    {
        if self.inlet.fault {
            self.inlet.fault = false;
            self.counts.count_read_fault();
            return ReadStep::Failed;
        }
        if self.inlet.next == self.inlet.put.len() {
            match self.inlet.end_at {
                Some(_) => {
                    self.inlet.ended = true;
                    self.counts.count_other();
                    return ReadStep::End;
                }
                None => {
                    self.counts.count_read_wait();
                    return ReadStep::NotReady;
                }
            }
        }
        let count = copy_ahead(&self.inlet.put, self.inlet.next, buf);
        self.inlet.next += count;
        self.counts.count_move();
        ReadStep::Got(count)
    }

    #[inline(always)]
    fn poll_write(&mut self, piece: &[u8]) -> WriteStep
        ensures fits { FitsWrite piece.now result }
        ensures answer { (result ≡ WriteStep.NoMemory)
            ⊎ (result ≡ write_answer self.old (length piece.now)) }
        ensures after { self.new ≡ mem_after_write self.old piece.now result }
        ensures state { self.new.state ≡ after_write self.old.state piece.now result }
        ensures plan { SamePlan self.old self.new }
    {
        if self.outlet.fault {
            self.outlet.fault = false;
            self.counts.count_write_fault();
            return WriteStep::Failed;
        }
        let Some(count) = self.outlet.gate.room_for(piece.len()) else {
            self.counts.count_write_wait();
            return WriteStep::NotReady;
        };
        if self
            .outlet
            .written
            .extend_from_slice(&piece[..count])
            .is_err()
        {
            self.counts.count_other();
            return WriteStep::NoMemory;
        }
        self.outlet.gate = self.outlet.gate.after(count);
        if count == 0 {
            self.counts.count_other();
        } else {
            self.counts.count_move();
        }
        WriteStep::Took(count)
    }

    fn poll_flush(&mut self) -> FlushStep
        ensures answer { result ≡ flush_answer self.old }
        ensures after { self.new ≡ mem_after_flush self.old result }
        ensures state { self.new.state ≡ after_flush self.old.state result }
        ensures plan { SamePlan self.old self.new }
    {
        if self.outlet.gate == Gate::Blocked {
            self.counts.count_write_wait();
            self.outlet.unready = raise(self.outlet.unready);
            return FlushStep::NotReady;
        }
        self.outlet.flushed = self.outlet.written.len();
        self.counts.count_other();
        FlushStep::Done
    }

    fn shutdown(&mut self)
        ensures after { self.new ≡ record self.old { state = after_shutdown self.old.state } }
        ensures state { self.new.state ≡ after_shutdown self.old.state }
        ensures plan { SamePlan self.old self.new }
    {
        self.shut = true;
        self.outlet.shut_at = self.outlet.flushed;
        self.counts.count_other();
    }

    ghost plan_itself = { plan_itself };

    ghost plan_on = { plan_on };
}
