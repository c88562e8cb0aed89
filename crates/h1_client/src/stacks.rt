//! Stacks of idle links, each under a number.
ghost use Rattle.std.specs.Prelude.{IsOkUnless, OnErr, OnOk};
ghost use Rattle.h1_error.specs.Memory.{no_memory};

use crate::IdleLink;
use h1_error::Error;
use h1_link::Link;
use std::alloc::Global;
use std::collections::BTreeMap;

/// Stacks of idle links. Contracts see the links under each number, the earliest release first.
#[derive(Drop)]
pub(crate) struct Stacks<L: Link + Drop> {
    alloc: Global,
    by_key: BTreeMap<u64, Vec<IdleLink<L>>>,
}

impl<L: Link + Drop> Stacks<L> {
    ghost use Rattle.h1_client.specs.Pool.{IsEmpty, PutsLatest, StandsWhole, TakesLatest};

    pub fn new(alloc: Global) -> Self
        ensures { IsEmpty result }
    {
        Stacks {
            alloc,
            by_key: BTreeMap::new(alloc),
        }
    }

    /// Puts a link on the stack under a key. Where there is no memory the link is dropped.
    pub fn put(&mut self, key: u64, idle: IdleLink<L>) -> Result<(), Error>
        ensures ok { OnOk result (PutsLatest key idle self.old self.new) }
        ensures err { IsOkUnless result no_memory }
        ensures same { OnErr result (StandsWhole self.old self.new) }
    {
        if let Some(stack) = self.by_key.get_mut(&key) {
            stack.push(idle)?;
            return Ok(());
        }
        let mut stack = Vec::new(self.alloc);
        stack.push(idle)?;
        self.by_key.insert(key, stack)?;
        Ok(())
    }

    /// Takes the latest link from the stack under a key, or answers None where there is none.
    pub fn take(&mut self, key: u64) -> Option<IdleLink<L>>
        ensures { TakesLatest key self.old self.new result }
    {
        let stack = self.by_key.get_mut(&key)?;
        let idle = stack.pop()?;
        // A key without a link is to take no memory.
        if stack.is_empty() {
            self.by_key.remove(&key);
        }
        Some(idle)
    }
}
