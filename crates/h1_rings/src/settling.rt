//! What is left in a ring whose two ends meet.
ghost use Rattle.std.specs.Prelude.{◌≡◌, ◌≤◌, ◌<◌, ◌++◌, ◌-◌, ◌^◌, true, false, length, List, Some};
ghost use Rattle.h1_rings.specs.CloseWord.{Agrees};
ghost use Rattle.h1_rings.specs.Settled.{Holds};

use crate::put_end::PutEnd;
use crate::room::Four;
use crate::take_end::TakeEnd;
use crate::{close_word, item_queue};
use std::sync::Wait;

/// The items left in a ring, in order and in front, with None behind them. What was put is what was
/// taken, followed by them; behind an answer Ended none is left.
pub fn settle<T: Drop, W: Wait + Drop>(
    tx: PutEnd<T, Four, W>,
    rx: TakeEnd<T, Four, W>,
) -> [Option<T>; 4]
    requires { tx.ring ≡ rx.ring }
    ensures left { (left : List T) × (tx.put ≡ rx.taken ++ left) × Holds result left }
    ensures gone { Agrees tx.gone rx.closed }
    ensures closed { Agrees rx.ended tx.closed }
    ensures ended { rx.ended ≡ Some (length rx.taken) → length rx.taken < 2 ^ 64 - 2 → tx.put ≡ rx.taken }
{
    let PutEnd {
        shared,
        mut pass,
        own: tx_own,
        other: tx_other,
        rt,
        ..
    } = tx;
    let TakeEnd {
        pass: taker,
        own: rx_own,
        other: rx_other,
        ..
    } = rx;
    close_word::meet(&rt, &shared.closed, tx_own, rx_other);
    close_word::meet(&rt, &shared.gone, rx_own, tx_other);
    item_queue::meet::<T, Four>(&shared.queue, &mut pass, taker);
    item_queue::drain_four::<T, W>(&rt, &shared.queue, &mut pass)
}
