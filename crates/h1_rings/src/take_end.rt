//! The receiving end of a ring of items.
ghost use Rattle.std.specs.Prelude.{◌≡◌, ◌↔◌, ◌<◌, ◌≤◌, ◌++◌, ◌+◌, ◌-◌, ◌^◌, [], ◌∷◌, length, true, false, List, Some, None, IsTrue, IsSome, min};
ghost use Rattle.h1_rings.specs.CloseWord.{Agrees};
ghost use Rattle.h1_rings.specs.Ends.{counted, TakeStepOf};

use crate::close_word::CloseWordPass;
use crate::ring_rule::QueueView;
use crate::room::Room;
use crate::shared::{MAX_COUNT, Shared, count_up};
use crate::{close_word, item_queue};
use crossbeam_queue::Pass;
use std::alloc::Global;
use std::marker::Model;
use std::sync::{Arc, Wait};

/// The answer of a take.
#[derive(Drop)]
pub enum Take<T> {
    /// The item that stood in front.
    Item(T),
    /// No item was there.
    Empty,
    /// The sender is closed, and no item is left.
    Ended,
}

/// The receiving end of a ring with so much room. Contracts see all that was taken by it, what it saw
/// put, and the two close words as far as it knows them.
#[derive(Drop)]
pub struct TakeEnd<T, R: Room, W: Wait + Drop> {
    pub(super) shared: Arc<Shared<T, R>, Global>,
    pub(super) pass: Pass<T, QueueView<T>>,
    pub(super) own: CloseWordPass,
    pub(super) other: CloseWordPass,
    pub(super) count: u64,
    pub(super) rt: W,
}

impl<T, R: Room, W: Wait + Drop> Model for TakeEnd<T, R, W> {
    ghost use Rattle.std.specs.Prelude.{◌≡◌, true, false, length, Some};
    ghost use Rattle.std.specs.Arc.{arc_value};
    ghost use Rattle.crossbeam_queue.specs.Passes.{view as known, IsPassOf};
    ghost use Rattle.crossbeam_utils.specs.Seq.{cell_view};
    ghost use Rattle.h1_rings.specs.CloseWord.{Agrees};
    ghost use Rattle.h1_rings.specs.Ends.{counted, TakeView};

    ghost Value = { TakeView T };

    ghost view = { λ e. record {
      ring = (e.pass.table_id, e.other.table_id, e.own.table_id);
      taken = (known e.pass).taken;
      seen = (known e.pass).put;
      closed = (cell_view e.own).set;
      ended = (cell_view e.other).seen;
    } };

    ghost invariant = { λ e. IsPassOf (arc_value e.shared).queue e.pass
        × (e.own.table_id ≡ (arc_value e.shared).gone.table.shared.table_id)
        × (e.other.table_id ≡ (arc_value e.shared).closed.table.shared.table_id)
        × (e.count ≡ counted (length (known e.pass).taken))
        × Agrees (cell_view e.own).set (Some 0)
        × ((known e.pass).takes ≡ true)
        × ((cell_view e.own).owns ≡ true) × ((cell_view e.other).owns ≡ false) };
}

impl<T, R: Room, W: Wait + Drop> TakeEnd<T, R, W> {
    /// Takes the item in front.
    pub fn take(&mut self) -> Take<T>
        ensures step { TakeStepOf self.old result self.new }
        ensures stays { Agrees self.old.ended self.new.ended }
    {
        // The word is read first: Ended needs a ring that was empty after it was set.
        let put = close_word::look(&self.rt, &self.shared.closed, &mut self.other);
        match item_queue::take::<T, R, W>(&self.rt, &self.shared.queue, &mut self.pass) {
            Some(item) => {
                self.count = count_up(self.count);
                Take::Item(item)
            }
            None => {
                if is_all(put, self.count) {
                    Take::Ended
                } else {
                    Take::Empty
                }
            }
        }
    }

    /// Tells the sender that nothing more is taken.
    pub fn close(&mut self)
        ensures { self.new ≡ record self.old { closed = Some 0 } }
    {
        close_word::set(&self.rt, &self.shared.gone, &mut self.own, 0);
    }
}

/// Whether so many items are all that the sender put before it was closed.
fn is_all(put: Option<u64>, count: u64) -> bool
    ensures { IsTrue result ↔ (put ≡ Some count) × (count < 2 ^ 64 - 2) }
{
    match put {
        Some(all) => all == count && all < MAX_COUNT,
        None => false,
    }
}
