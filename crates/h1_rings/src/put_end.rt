//! The sending end of a ring of items.
ghost use Rattle.std.specs.Prelude.{◌≡◌, ◌<◌, ◌≤◌, ◌++◌, ◌+◌, ◌-◌, ◌^◌, [], ◌∷◌, length, true, false, List, Some, None, is_some, min};
ghost use Rattle.h1_rings.specs.CloseWord.{Agrees};
ghost use Rattle.h1_rings.specs.Ends.{counted, OfferOf, PutStepOf};

use crate::close_word::CloseWordPass;
use crate::ring_rule::QueueView;
use crate::room::Room;
use crate::shared::{Shared, count_up};
use crate::{close_word, item_queue};
use crossbeam_queue::Pass;
use std::alloc::Global;
use std::marker::Model;
use std::sync::{Arc, Wait};

/// The answer of a put. An item that wasn't put comes back.
#[derive(Drop)]
pub enum Put<T> {
    /// It was put.
    Put,
    /// There was no room for it.
    Full(T),
    /// The receiver is closed.
    Gone(T),
}

/// The sending end of a ring with so much room. Contracts see all that was put by it, what it saw
/// taken, and the two close words as far as it knows them.
#[derive(Drop)]
pub struct PutEnd<T, R: Room, W: Wait + Drop> {
    pub(super) shared: Arc<Shared<T, R>, Global>,
    pub(super) pass: Pass<T, QueueView<T>>,
    pub(super) own: CloseWordPass,
    pub(super) other: CloseWordPass,
    pub(super) count: u64,
    pub(super) rt: W,
}

impl<T, R: Room, W: Wait + Drop> Model for PutEnd<T, R, W> {
    ghost use Rattle.std.specs.Prelude.{◌≡◌, true, false, length, Some};
    ghost use Rattle.std.specs.Arc.{arc_value};
    ghost use Rattle.crossbeam_queue.specs.Passes.{view as known, IsPassOf, ruled_capacity};
    ghost use Rattle.crossbeam_utils.specs.Seq.{cell_view};
    ghost use Rattle.h1_rings.specs.CloseWord.{Agrees};
    ghost use Rattle.h1_rings.specs.Ends.{counted, PutView};

    ghost Value = { PutView T };

    ghost view = { λ e. record {
      ring = (e.pass.table_id, e.own.table_id, e.other.table_id);
      put = (known e.pass).put;
      freed = (known e.pass).taken;
      closed = (cell_view e.own).set;
      gone = (cell_view e.other).seen;
    } };

    ghost invariant = { λ e. IsPassOf (arc_value e.shared).queue e.pass
        × (e.own.table_id ≡ (arc_value e.shared).closed.table.shared.table_id)
        × (e.other.table_id ≡ (arc_value e.shared).gone.table.shared.table_id)
        × (e.count ≡ counted (length (known e.pass).put))
        × Agrees (cell_view e.own).set (Some e.count)
        × (ruled_capacity (arc_value e.shared).queue ≡ R.most)
        × ((known e.pass).puts ≡ true)
        × ((cell_view e.own).owns ≡ true) × ((cell_view e.other).owns ≡ false) };
}

impl<T, R: Room, W: Wait + Drop> PutEnd<T, R, W> {
    /// Puts an item behind the others.
    pub fn put(&mut self, item: T) -> Put<T>
        requires { self.old.closed ≡ None }
        ensures step { PutStepOf R.most self.old item result self.new }
        ensures stays { Agrees self.old.gone self.new.gone }
    {
        if self.sees_gone() {
            return Put::Gone(item);
        }
        self.offer(item)
    }

    /// Whether the receiver is closed.
    fn sees_gone(&mut self) -> bool
        ensures gone { result ≡ is_some self.new.gone }
        ensures stays { Agrees self.old.gone self.new.gone }
        ensures same { self.new ≡ record self.old { gone = self.new.gone } }
    {
        close_word::look(&self.rt, &self.shared.gone, &mut self.other).is_some()
    }

    /// Puts an item, whatever became of the receiver.
    fn offer(&mut self, item: T) -> Put<T>
        requires { self.old.closed ≡ None }
        ensures step { OfferOf R.most self.old item result self.new }
        ensures same { self.new.gone ≡ self.old.gone }
    {
        match item_queue::put::<T, R, W>(&self.rt, &self.shared.queue, &mut self.pass, item) {
            Ok(()) => {
                self.count = count_up(self.count);
                Put::Put
            }
            Err(item) => Put::Full(item),
        }
    }

    /// Tells the receiver that no more comes. No put may follow.
    pub fn close(&mut self)
        ensures { self.new ≡ record self.old { closed = Some (counted (length self.old.put)) } }
    {
        close_word::set(&self.rt, &self.shared.closed, &mut self.own, self.count);
    }
}
