//! An acceptor in memory.
ghost use Rattle.std.specs.Prelude.{◌≡◌, [], ◌∷◌, ◌++◌, true, false, not, OnOk, OnErr, IfErr, MatchOption, drop};
ghost use Rattle.h1_link.specs.AcceptorState.{AcceptsFresh, after_bind, after_accept, after_hand_back};
ghost use Rattle.h1_link.specs.LinkState.{IsFresh};
ghost use Rattle.h1_link.specs.MemAcceptor.{new_mem_acceptor};

use crate::acceptor::Acceptor;
use crate::handed_back::HandedBack;
use crate::memory::MemLink;
use crate::memory::counts::raise;
use h1_error::{Error, ErrorType};
use std::alloc::Global;
use std::collections::VecDeque;
use std::marker::Model;

/// An acceptor in memory, which hands out the links that were planned, in order.
#[derive(Drop)]
pub struct MemAcceptor {
    planned: VecDeque<MemLink>,
    bind_fault: bool,
    port: Option<u16>,
    faults: u64,
    accepted: u64,
    handed_back: HandedBack<MemLink>,
}

impl Model for MemAcceptor {
    ghost use Rattle.h1_link.specs.MemAcceptor.{MemAcceptorState, AreFresh};

    ghost Value = { MemAcceptorState };

    ghost view = { λ a. record {
      state = record {
        port = a.port;
        accept_faults = a.faults;
        accepted = a.accepted;
        handed_back = a.handed_back;
      };
      planned = a.planned.items;
      bind_fault = a.bind_fault;
    } };

    ghost invariant = { λ a. AreFresh a.planned.items };
}

impl MemAcceptor {
    /// An acceptor with no link to hand out.
    pub fn new(alloc: Global) -> Self
        ensures { result ≡ new_mem_acceptor }
    {
        MemAcceptor {
            planned: VecDeque::new(alloc),
            bind_fault: false,
            port: None,
            faults: 0,
            accepted: 0,
            handed_back: HandedBack::new(),
        }
    }

    /// Hands out this link after those that are planned.
    pub fn plan(&mut self, link: MemLink) -> Result<(), Error>
        requires fresh { IsFresh link.state }
        ensures ok { OnOk result (self.new ≡ record self.old {
          planned = self.old.planned ++ link ∷ [];
        }) }
        ensures no_memory { IfErr result (λ error.
            error ≡ record { kind = ErrorType.NoMemory; retry = false }) }
        ensures err { OnErr result (self.new ≡ self.old) }
    {
        self.planned.push_back(link)?;
        Ok(())
    }

    /// Lets the next bind fail.
    pub fn fail_bind(&mut self)
        ensures { self.new ≡ record self.old { bind_fault = true } }
    {
        self.bind_fault = true;
    }
}

impl Acceptor for MemAcceptor {
    type Link = MemLink;

    ghost state = { λ acceptor. acceptor.state };

    fn bind(&mut self, port: u16) -> bool
        ensures answer { result ≡ not self.old.bind_fault }
        ensures after { self.new ≡ record self.old {
          state = after_bind self.old.state port result;
          bind_fault = false;
        } }
        ensures state { self.new.state ≡ after_bind self.old.state port result }
    {
        if self.bind_fault {
            self.bind_fault = false;
            self.faults = raise(self.faults);
            return false;
        }
        self.port = Some(port);
        true
    }

    fn accept(&mut self) -> Option<MemLink>
        ensures answer { MatchOption result (self.old.planned ≡ [])
            (λ link. self.old.planned ≡ link ∷ self.new.planned) }
        ensures fresh { AcceptsFresh (λ link. link.state) result }
        ensures planned { self.new.planned ≡ drop 1 self.old.planned }
        ensures kept { self.new.bind_fault ≡ self.old.bind_fault }
        ensures state { self.new.state ≡ after_accept self.old.state result }
    {
        match self.planned.pop_front() {
            Some(link) => {
                self.accepted = raise(self.accepted);
                Some(link)
            }
            None => {
                self.faults = raise(self.faults);
                None
            }
        }
    }

    fn hand_back(&mut self, link: MemLink)
        ensures after { self.new ≡ record self.old {
          state = after_hand_back self.old.state link.state;
        } }
        ensures state { self.new.state ≡ after_hand_back self.old.state link.state }
    {
        self.handed_back.take(link);
    }
}
