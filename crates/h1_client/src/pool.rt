//! The links that stand idle, of all peers.
ghost use Rattle.std.specs.Prelude.{◌≡◌, IfSome, IsOkUnless, OnErr, OnOk, Some};
ghost use Rattle.h1_error.specs.Memory.{no_memory};
ghost use Rattle.h1_client.specs.Pool.{AreKeyed};

use crate::IdleLink;
use crate::stacks::Stacks;
use h1_error::Error;
use h1_link::Link;
use std::alloc::Global;

/// Idle links, each under the key of its peer. Contracts see the links under each key, the earliest
/// release first.
#[derive(Drop)]
pub struct Pool<L: Link + Drop> {
    stacks: Stacks<L>,
    ghost keyed: { AreKeyed stacks },
}

/// What a look through the links under a key finds.
#[derive(Drop)]
pub struct Pick<L: Link + Drop> {
    /// The latest release that can still be used.
    pub idle: Option<IdleLink<L>>,
    /// How many bytes were there that no request asked for.
    pub unasked: u64,
}

impl<L: Link + Drop> Pool<L> {
    ghost use Rattle.h1_client.specs.Picking.{Picks};
    ghost use Rattle.h1_client.specs.Pool.{IsEmpty, PutsLatest, StandsWhole, TakesLatest};

    pub fn new(alloc: Global) -> Self
        ensures { IsEmpty result.stacks }
    {
        Pool {
            stacks: Stacks::new(alloc),
        }
    }

    /// Puts a link under the key of its peer, of which it is the latest release then. Where there
    /// is no memory the link is dropped.
    pub fn put_idle(&mut self, key: u64, idle: IdleLink<L>) -> Result<(), Error>
        requires { idle.key ≡ Some key }
        ensures ok { OnOk result (PutsLatest key idle self.old.stacks self.new.stacks) }
        ensures err { IsOkUnless result no_memory }
        ensures same { OnErr result (StandsWhole self.old.stacks self.new.stacks) }
    {
        self.stacks.put(key, idle)
    }

    /// Takes out the latest release under a key, or answers None where there is none.
    pub fn take_idle(&mut self, key: u64) -> Option<IdleLink<L>>
        ensures takes { TakesLatest key self.old.stacks self.new.stacks result }
        ensures keyed { IfSome result (λ idle. idle.key ≡ Some key) }
    {
        self.stacks.take(key)
    }

    /// Takes out and probes the links under a key, the latest release first, until one can still be
    /// used. Those before it go.
    pub fn pick_idle(&mut self, key: u64, now: u64) -> Pick<L>
        ensures { Picks L.state key now self.old.stacks self.new.stacks result.idle
            result.unasked }
    {
        let mut unasked = 0u64;
        'picks: while let Some(idle) = self.take_idle(key) {
            let probe = idle.probe(now);
            unasked = unasked.saturating_add(probe.unasked());
            if let Some(idle) = probe.fresh() {
                return Pick {
                    idle: Some(idle),
                    unasked,
                };
            }
        }
        Pick {
            idle: None,
            unasked,
        }
    }
}
