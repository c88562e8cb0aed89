//! A ring of one value, which is sent once.
ghost use Rattle.std.specs.Prelude.{◌≡◌, [], None, IfOk, IsOkUnless, MatchOption};
ghost use Rattle.h1_error.specs.Memory.{no_memory};
ghost use Rattle.h1_rings.specs.Ends.{HasTaken, TakesNone};

use crate::put_end::PutEnd;
use crate::room::One;
use crate::shared;
use crate::take_end::{Take, TakeEnd};
use h1_error::Error;
use std::alloc::Global;
use std::sync::Wait;

/// The sending end. It puts one value at most.
#[derive(Drop)]
pub struct OnceTx<T, W: Wait + Drop> {
    end: PutEnd<T, One, W>,
    pub ghost fresh: { end.put ≡ [] },
    pub ghost opened: { end.closed ≡ None },
}

/// The receiving end.
#[derive(Drop)]
pub struct OnceRx<T, W: Wait + Drop> {
    end: TakeEnd<T, One, W>,
}

/// A new ring of one value, by its ends. Being out of memory is the one error.
pub fn once<T: Drop, W: Wait + Clone + Drop>(
    rt: &W,
    alloc: Global,
) -> Result<(OnceTx<T, W>, OnceRx<T, W>), Error>
    ensures ok { IfOk result (λ e. (e.0.end.ring ≡ e.1.end.ring) × (e.1.end.taken ≡ [])
        × (e.1.end.closed ≡ None)) }
    ensures err { IsOkUnless result no_memory }
{
    let (end, other) = shared::open::<T, One, W>(rt, alloc)?;
    Ok((OnceTx { end }, OnceRx { end: other }))
}

impl<T: Drop, W: Wait + Drop> OnceTx<T, W> {
    /// Puts the value, which stays in the ring until it is taken. No clause says so: the end is gone
    /// with this call, and the other knows only what it takes.
    pub fn send(self, value: T) {
        let OnceTx { mut end } = self;
        let _ = end.put(value);
    }
}

impl<T: Drop, W: Wait + Drop> OnceRx<T, W> {
    /// The value that was sent, once. None only where the ring was empty at a step of this call.
    pub fn try_take(&mut self) -> Option<T>
        ensures { MatchOption result (TakesNone self.old.end self.new.end)
            (λ value. HasTaken self.old.end value self.new.end) }
    {
        match self.end.take() {
            Take::Item(value) => Some(value),
            Take::Empty | Take::Ended => None,
        }
    }
}
