//! The payload that is read of a body, where a caller keeps it.
ghost use Rattle.std.specs.Prelude.{◌≡◌, IsSome, None, Some, is_some, option_map};
ghost use Rattle.h1_body.specs.Payload.{no_payload};
ghost use Rattle.h1_transfer.specs.Taking.{TakesPayload};

use bytes::BytesMut;
use h1_body::{BodyReader, Gathering, Payload, Taken};
use h1_error::Error;
use h1_head::Room;
use std::alloc::Global;
use std::marker::Model;
use std::mem;

/// The payload that was read of a body, where a caller keeps it. One that is handed in brings along
/// what was read before. It stands in its place whether it is kept or not, so that none is moved for
/// a body that has none.
#[derive(Drop)]
pub struct Kept {
    is_kept: bool,
    payload: Payload,
}

impl Model for Kept {
    ghost use Rattle.std.specs.Prelude.{Option};
    ghost use Rattle.std.specs.Bool.{then_some};
    ghost use Rattle.h1_body.specs.Payload.{Payload};

    ghost Value = { Option Payload };

    ghost view = { λ k. then_some k.is_kept k.payload };
}

impl Kept {
    /// Nothing is kept. Takes no memory.
    pub(crate) fn new(alloc: Global) -> Self
        ensures { result ≡ None }
    {
        let gathering = Gathering {
            holds: false,
            limit: 0,
        };
        Kept {
            is_kept: false,
            payload: Payload::new(alloc, gathering),
        }
    }

    /// Whether payload is kept.
    #[inline(always)]
    pub fn is_some(&self) -> bool
        ensures { result ≡ is_some self.now }
    {
        self.is_kept
    }

    /// The payload, where it is kept.
    #[inline(always)]
    pub fn get(&self) -> Option<&Payload>
        ensures { option_map (λ payload. payload.now) result ≡ self.now }
    {
        if self.is_kept {
            Some(&self.payload)
        } else {
            None
        }
    }

    /// From here on payload is kept, of which nothing was read yet.
    #[inline(always)]
    pub(crate) fn begin(&mut self, alloc: Global, gathering: Gathering)
        ensures { self.new ≡ Some (no_payload gathering) }
    {
        self.payload.start_over(alloc, gathering);
        self.is_kept = true;
    }

    /// None is kept from here on, and what was kept is dropped.
    #[inline(always)]
    pub(crate) fn stop(&mut self)
        ensures { self.new ≡ None }
    {
        // Most have nothing that is kept.
        if self.is_kept {
            self.payload.clear();
            self.is_kept = false;
        }
    }

    /// From here on this payload is kept. In its place stands none.
    #[inline(always)]
    pub(crate) fn lend(&mut self, alloc: Global, payload: &mut Payload)
        ensures kept { self.new ≡ Some payload.old }
        ensures left { payload.new ≡ no_payload payload.old.gathering }
    {
        self.payload.start_over(alloc, payload.gathering());
        mem::swap(&mut self.payload, payload);
        self.is_kept = true;
    }

    /// What was kept goes to this place, and none is kept from here on.
    #[inline(always)]
    pub(crate) fn give_back(&mut self, payload: &mut Payload)
        requires { IsSome self.old }
        ensures kept { self.new ≡ None }
        ensures given { Some payload.new ≡ self.old }
    {
        payload.clear();
        mem::swap(&mut self.payload, payload);
        self.is_kept = false;
    }

    /// Takes payload out of received bytes, and notes it where payload is kept.
    #[inline(always)]
    pub(crate) fn take_payload(
        &mut self,
        received: &mut BytesMut,
        reader: &mut BodyReader,
        room: &mut Room,
    ) -> Result<Taken, Error>
        ensures { TakesPayload received.old.items received.new.items reader.old reader.new self.old
            self.new result }
    {
        if self.is_kept {
            reader.take_into(received, &mut self.payload, room)
        } else {
            reader.take(received, room)
        }
    }
}
