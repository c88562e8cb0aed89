//! The place that the head of a response is read into (RFC 9112, section 4).
ghost use Rattle.std.specs.Prelude.{◌≡◌, [], IsOkUnless, IsSome, None, OnOk, option_map};
ghost use Rattle.h1_error.specs.Memory.{no_memory};
ghost use Rattle.h1_client.specs.Reading.{IsPlaceOf};
ghost use Rattle.h1_client.specs.Words.{Free, NotYetAt, RefusedAt};

use crate::spare::{MOST_KEPT, Spare};
use h1_error::Error;
use h1_head::{HeadSearch, ResponseHead, Room};
use h1_link::Link;
use h1_transfer::{Head, HeadFound, Transfer};
use std::alloc::Global;
use std::marker::Model;

/// The place that the head of a response is read into, with what else a session leaves for the next
/// one over its link. Contracts see the head.
#[derive(Drop)]
pub(crate) struct ResponsePlace {
    /// It is there once a head was looked for.
    spare: Option<Box<Spare>>,
}

impl Model for ResponsePlace {
    ghost use Rattle.std.specs.Prelude.{Option, option_map};
    ghost use Rattle.h1_client.specs.Words.{ResponseHead};

    ghost Value = { Option ResponseHead };

    ghost view = { λ place. option_map (λ spare. spare.value.head) place.spare };
}

impl ResponsePlace {
    /// A place with no head in it. Takes no memory.
    #[inline(always)]
    pub fn new() -> Self
        ensures { result ≡ None }
    {
        ResponsePlace { spare: None }
    }

    #[inline(always)]
    pub fn get(&self) -> Option<&ResponseHead>
        ensures { option_map (λ head. head.now) result ≡ self.now }
    {
        match &self.spare {
            Some(spare) => Some(&spare.head),
            None => None,
        }
    }

    /// Makes the block that the head stands in, where there is none yet.
    #[inline(always)]
    fn open(&mut self, alloc: Global) -> Result<(), Error>
        ensures ok { OnOk result (IsSome self.new) }
        ensures err { IsOkUnless result no_memory }
    {
        if self.spare.is_none() {
            self.spare = Some(Box::new(alloc, Spare::new(alloc))?);
        }
        Ok(())
    }

    /// Takes the memory of a session's transfer for the next one, or gives it that of the session
    /// before.
    #[inline(always)]
    pub fn swap_memory<L: Link + Drop>(&mut self, transfer: &mut Transfer<L>)
        requires received { transfer.old.received ≡ [] }
        requires free { transfer.old.outgoing.step ≡ Free }
        requires unrefused { transfer.old.outgoing.refused ≡ None }
        ensures place { self.new ≡ self.old }
        ensures transfer { transfer.new ≡ transfer.old }
    {
        if let Some(spare) = &mut self.spare {
            transfer.swap_memory(&mut spare.memory);
        }
    }

    /// Lets go of a large block that the session received bytes in.
    #[cold]
    #[inline(never)]
    pub fn let_go_of_large(&mut self)
        ensures { self.new ≡ self.old }
    {
        if let Some(spare) = &mut self.spare {
            spare.memory.let_go_above(MOST_KEPT);
        }
    }

    /// Leaves nothing for the next session, unless the heads were small. It has no clause:
    /// contracts see nothing of what a session leaves.
    #[inline(always)]
    pub fn leave_small(&mut self, small: bool) {
        if !small {
            self.spare = None;
        }
    }
}

impl Head for ResponsePlace {
    ghost is_at = { IsPlaceOf };

    ghost refuses = { RefusedAt };

    ghost lacks = { NotYetAt };

    #[inline(always)]
    fn search(
        alloc: Global,
        search: &mut HeadSearch,
        bytes: &[u8],
        room: &mut Room,
        found: &mut Self,
    ) -> Result<HeadFound, Error> {
        // Before the first byte there is nothing to look at.
        if bytes.is_empty() {
            return Ok(HeadFound::NotYet);
        }
        found.open(alloc)?;
        match &mut found.spare {
            Some(spare) => spare.look(alloc, search, bytes, room),
            None => unreachable!(),
        }
    }
}
