//! A dialer in memory.
ghost use Rattle.std.specs.Prelude.{◌≡◌, [], ◌∷◌, ◌++◌, OnOk, OnErr, IfErr, false};
ghost use Rattle.h1_link.specs.DialerState.{HandsOutFresh, after_dial};
ghost use Rattle.h1_link.specs.MemDialer.{mem_dialer_of, dial_answer, dials_left, SameDials};
ghost use Rattle.h1_link.specs.MemDialer.{dials_itself, dials_on};

use crate::dialer::{DialStep, Dialer};
use crate::link::Link;
use crate::memory::raise;
use h1_error::{Error, ErrorType};
use std::alloc::Global;
use std::collections::VecDeque;
use std::marker::Model;

/// A dialer in memory, which answers what was planned, in order, and fails after the last.
#[derive(Drop)]
pub struct MemDialer<L: Link + Drop> {
    planned: VecDeque<DialStep<L>>,
    faults: u64,
    waits: u64,
}

impl<L: Link + Drop> Model for MemDialer<L> {
    ghost use Rattle.h1_link.specs.MemDialer.{MemDialerState, mem_dialer_of, AllFresh};

    ghost Value = { MemDialerState L };

    ghost view = { λ d. mem_dialer_of d.faults d.waits d.planned.items };

    ghost invariant = { λ d. AllFresh L.state d.planned.items };
}

impl<L: Link + Drop> MemDialer<L> {
    /// A dialer with nothing planned.
    pub fn new(alloc: Global) -> Self
        ensures { result ≡ mem_dialer_of 0 0 [] }
    {
        MemDialer {
            planned: VecDeque::new(alloc),
            faults: 0,
            waits: 0,
        }
    }

    /// Answers this step after those that are planned.
    pub fn plan(&mut self, step: DialStep<L>) -> Result<(), Error>
        requires fresh { HandsOutFresh L.state step }
        ensures ok { OnOk result (self.new ≡ record self.old {
          planned = self.old.planned ++ step ∷ [];
        }) }
        ensures no_memory { IfErr result (λ error.
            error ≡ record { kind = ErrorType.NoMemory; retry = false }) }
        ensures err { OnErr result (self.new ≡ self.old) }
    {
        self.planned.push_back(step)?;
        Ok(())
    }
}

impl<L: Link + Drop> Dialer for MemDialer<L> {
    type Link = L;

    ghost state = { λ dialer. dialer.state };

    ghost same_plan = { SameDials };

    fn poll_dial(&mut self, _key: u64) -> DialStep<L>
        ensures fresh { HandsOutFresh L.state result }
        ensures answer { result ≡ dial_answer self.old.planned }
        ensures left { self.new.planned ≡ dials_left self.old.planned }
        ensures state { self.new.state ≡ after_dial self.old.state result }
        ensures plan { SameDials self.old self.new }
    {
        let step = self.planned.pop_front().unwrap_or(DialStep::Failed);
        match step {
            DialStep::Failed => self.faults = raise(self.faults),
            DialStep::NotReady => self.waits = raise(self.waits),
            DialStep::Connected(_) | DialStep::NoMemory => {}
        }
        step
    }

    ghost plan_itself = { dials_itself };

    ghost plan_on = { dials_on };
}
