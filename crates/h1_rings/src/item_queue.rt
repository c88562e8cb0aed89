//! A queue under the rule, and the steps on it.
ghost use Rattle.std.specs.Prelude.{◌≡◌, ◌<◌, ◌≤◌, ◌++◌, ◌+◌, [], ◌∷◌, length, true, false, IfOk, MatchResult, MatchOption, List};
ghost use Rattle.crossbeam_queue.specs.Passes.{view, IsPassOf, ruled_capacity};
ghost use Rattle.h1_rings.specs.RingRule.{queue_view, HasPut, HasTaken, Waits, Comes};
ghost use Rattle.crossbeam_queue.specs.Fifo.{Held};
ghost use Rattle.h1_rings.specs.Settled.{NextIs, Holds};

use crate::ring_rule::{Drains, InOrder, Puts, QueueView, Roles, Takes, Total};
use crate::room::{Four, Room};
use crossbeam_queue::{Pass, RuledArrayQueue};
use std::alloc::{AllocError, Global};
use std::sync::Wait;

/// A queue under the rule.
pub type ItemQueue<T, R: Room> = RuledArrayQueue<T, QueueView<T>, InOrder<R>>;

/// An empty queue, the pass that may put, and the pass that may take.
pub fn open<T, R: Room>(
    alloc: Global,
) -> Result<
    (
        ItemQueue<T, R>,
        Pass<T, QueueView<T>>,
        Pass<T, QueueView<T>>,
    ),
    AllocError,
>
    ensures { IfOk result (λ q. (ruled_capacity q.0 ≡ R.most) × IsPassOf q.0 q.1 × IsPassOf q.0 q.2 × (view q.1 ≡ queue_view true false [] []) × (view q.2 ≡ queue_view false true [] [])) }
{
    let (queue, mut tx) = ItemQueue::<T, R>::ruled(alloc, R::most())?;
    let rx = queue.another::<Roles>(&mut tx);
    Ok((queue, tx, rx))
}

/// Puts an item behind the others, or hands it back where the queue is full.
pub fn put<T, R: Room, W: Wait>(
    rt: &W,
    queue: &ItemQueue<T, R>,
    pass: &mut Pass<T, QueueView<T>>,
    item: T,
) -> Result<(), T>
    requires pass { IsPassOf queue.now pass.old × (ruled_capacity queue.now ≡ R.most) }
    requires puts { (view pass.old).puts ≡ true }
    ensures pass { IsPassOf queue.now pass.new × (pass.new.table_id ≡ pass.old.table_id) }
    ensures rule { MatchResult result (λ _. HasPut R.most (view pass.old) item (view pass.new)) (λ x. (x ≡ item) × (view pass.new ≡ view pass.old) × Held R.most (Waits (view pass.old))) }
{
    queue.push_as::<Puts<R>, W>(rt, pass, item)
}

/// Takes the item in front, if there is one.
pub fn take<T, R: Room, W: Wait>(
    rt: &W,
    queue: &ItemQueue<T, R>,
    pass: &mut Pass<T, QueueView<T>>,
) -> Option<T>
    requires pass { IsPassOf queue.now pass.old }
    requires takes { (view pass.old).takes ≡ true }
    ensures pass { IsPassOf queue.now pass.new × (pass.new.table_id ≡ pass.old.table_id) }
    ensures rule { MatchOption result ((view pass.new ≡ view pass.old) × Held 0 (Comes (view pass.old))) (λ x. HasTaken (view pass.old) x (view pass.new)) }
{
    queue.pop_as::<Takes, W>(rt, pass)
}

/// One pass gets both rights.
pub fn meet<T, R: Room>(
    queue: &ItemQueue<T, R>,
    pass: &mut Pass<T, QueueView<T>>,
    other: Pass<T, QueueView<T>>,
)
    requires pass { IsPassOf queue.now pass.old × IsPassOf queue.now other }
    requires rights { ((view pass.old).puts ≡ true) × ((view other).takes ≡ true) }
    ensures pass { IsPassOf queue.now pass.new }
    ensures both { view pass.new ≡ queue_view true true (view pass.old).put (view other).taken }
    ensures left { (left : List T) × ((view pass.old).put ≡ (view other).taken ++ left) × (length left ≤ R.most) }
{
    queue.absorb::<Roles>(pass, other);
    queue.learn_as::<Total<R>>(pass);
}

/// A take by the pass with both rights: None exactly where nothing is left.
pub fn drain<T, R: Room, W: Wait>(
    rt: &W,
    queue: &ItemQueue<T, R>,
    pass: &mut Pass<T, QueueView<T>>,
) -> Option<T>
    requires pass { IsPassOf queue.now pass.old }
    requires rights { ((view pass.old).puts ≡ true) × ((view pass.old).takes ≡ true) }
    ensures pass { IsPassOf queue.now pass.new }
    ensures rights { ((view pass.new).puts ≡ true) × ((view pass.new).takes ≡ true) }
    ensures put { (view pass.new).put ≡ (view pass.old).put }
    ensures next { NextIs (view pass.old).put (view pass.old).taken result (view pass.new).taken }
{
    queue.pop_as::<Drains<R>, W>(rt, pass)
}

/// All items of a ring of four, in order and in front.
pub fn drain_four<T, W: Wait>(
    rt: &W,
    queue: &ItemQueue<T, Four>,
    pass: &mut Pass<T, QueueView<T>>,
) -> [Option<T>; 4]
    requires pass { IsPassOf queue.now pass.old }
    requires rights { ((view pass.old).puts ≡ true) × ((view pass.old).takes ≡ true) }
    requires left { (left : List T) × ((view pass.old).put ≡ (view pass.old).taken ++ left) × (length left ≤ 4) }
    ensures { (left : List T) × ((view pass.old).put ≡ (view pass.old).taken ++ left) × Holds result left }
{
    let first = drain::<T, Four, W>(rt, queue, pass);
    let second = drain::<T, Four, W>(rt, queue, pass);
    let third = drain::<T, Four, W>(rt, queue, pass);
    let fourth = drain::<T, Four, W>(rt, queue, pass);
    [first, second, third, fourth]
}
