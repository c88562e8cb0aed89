//! A ring of four tasks.
ghost use Rattle.std.specs.Prelude.{◌≡◌, [], None, IfOk, IsOkUnless};
ghost use Rattle.h1_error.specs.Memory.{no_memory};

use crate::put_end::{Put, PutEnd};
use crate::room::Four;
use crate::shared;
use crate::take_end::{Take, TakeEnd};
use crate::task_ends::{PutStep, TakeStep, TaskRx, TaskTx};
use h1_error::Error;
use h1_head::HttpTask;
use std::alloc::Global;
use std::sync::Wait;

/// The sending end of a ring of tasks. Its calls may wait for another thread within a step.
pub type RingTx<W> = PutEnd<HttpTask, Four, W>;

/// The receiving end of a ring of tasks. Its calls may wait for another thread within a step.
pub type RingRx<W> = TakeEnd<HttpTask, Four, W>;

/// A new ring of four tasks, by its ends, with all the memory that their calls use. Each end keeps a
/// copy of the runtime's value. Being out of memory is the one error.
pub fn ring<W: Wait + Clone + Drop>(rt: &W, alloc: Global) -> Result<(RingTx<W>, RingRx<W>), Error>
    ensures ok { IfOk result (λ e. (e.0.ring ≡ e.1.ring) × (e.0.put ≡ []) × (e.1.taken ≡ [])
        × (e.0.closed ≡ None) × (e.1.closed ≡ None)) }
    ensures err { IsOkUnless result no_memory }
{
    Ok(shared::open::<HttpTask, Four, W>(rt, alloc)?)
}

impl<W: Wait + Drop> TaskTx for PutEnd<HttpTask, Four, W> {
    ghost use Rattle.std.specs.Prelude.{IsSome};
    ghost use Rattle.std.specs.Option.{is_some};
    ghost use Rattle.h1_rings.specs.Ends.{WasFull, RingPuts};
    ghost use Rattle.h1_rings.specs.EndLaws.{ring_puts_none, ring_puts_on};

    ghost puts = { λ a tasks b. RingPuts a tasks b };

    ghost is_closed = { λ e. is_some e.closed };

    ghost was_full = { λ old new. WasFull 4 new };

    ghost was_gone = { λ old new. IsSome new.gone };

    ghost puts_none = { ring_puts_none };

    ghost puts_on = { ring_puts_on };

    fn put(&mut self, task: HttpTask) -> PutStep {
        match PutEnd::put(self, task) {
            Put::Put => PutStep::Put,
            Put::Full(task) => PutStep::Full(task),
            Put::Gone(task) => PutStep::Gone(task),
        }
    }

    fn close(&mut self) {
        PutEnd::close(self)
    }
}

impl<W: Wait + Drop> TaskRx for TakeEnd<HttpTask, Four, W> {
    ghost use Rattle.std.specs.Prelude.{◌≡◌, ◌<◌, ◌-◌, ◌^◌, Some, length};
    ghost use Rattle.std.specs.Option.{is_some};
    ghost use Rattle.h1_rings.specs.Ends.{WasEmpty, WasEnded, RingTakes};
    ghost use Rattle.h1_rings.specs.EndLaws.{ring_takes_none, ring_takes_on};

    ghost takes = { λ a tasks b. RingTakes a tasks b };

    ghost is_closed = { λ e. is_some e.closed };

    ghost was_empty = { λ old new. WasEmpty new };

    ghost was_ended = { λ old new. WasEnded new };

    ghost takes_none = { ring_takes_none };

    ghost takes_on = { ring_takes_on };

    fn take(&mut self) -> TakeStep {
        match TakeEnd::take(self) {
            Take::Item(task) => TakeStep::Task(task),
            Take::Empty => TakeStep::Empty,
            Take::Ended => TakeStep::Ended,
        }
    }

    fn close(&mut self) {
        TakeEnd::close(self)
    }
}
