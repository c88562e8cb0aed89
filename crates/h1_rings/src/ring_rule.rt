//! The rule of a ring's queue: what was put is what was taken, followed by what the queue holds. Each
//! kind of step on it is a type: what the step tells the pass that makes it.
use crate::room::Room;
use crossbeam_queue::protocol::{Join, Lesson, Outcome, Protocol, Split};
use std::collections::LinkedList;
use std::marker::PhantomData;

/// What a pass knows of the queue. No value of it is made.
pub struct QueueView<T> {
    /// Whether it may put.
    pub puts: bool,
    /// Whether it may take.
    pub takes: bool,
    /// All that was put, for the one that puts; else what was seen of it.
    pub put: LinkedList<T>,
    /// All that was taken, for the one that takes; else what was seen of it.
    pub taken: LinkedList<T>,
}

/// The rule: at most as many items as there is room for are in the queue, in the order in which they
/// were put.
pub struct InOrder<R> {
    room: PhantomData<R>,
}

impl<T, R: Room> Protocol<T, QueueView<T>> for InOrder<R> {
    ghost use Rattle.std.specs.Prelude.{true, []};
    ghost use Rattle.h1_rings.specs.RingRule.{queue_view, KeepsOrder};

    ghost holds = { KeepsOrder R.most };

    ghost first = { queue_view true true [] [] };
}

/// The right to put stays with a pass, and the right to take goes to another; both come together again
/// where the ends meet.
pub struct Roles;

impl<T> Split<QueueView<T>> for Roles {
    ghost use Rattle.std.specs.Prelude.{true, false};
    ghost use Rattle.h1_rings.specs.RingRule.{queue_view};

    ghost left = { λ v. queue_view true false v.put v.taken };

    ghost right = { λ v. queue_view false true v.put v.taken };
}

impl<T> Join<QueueView<T>> for Roles {
    ghost use Rattle.std.specs.Prelude.{true, false, []};
    ghost use Rattle.h1_rings.specs.RingRule.{queue_view};

    ghost both = { λ v w. queue_view true true v.put w.taken };

    ghost spent = { queue_view false false [] [] };
}

/// A put, and one that finds the queue full.
pub struct Puts<R> {
    room: PhantomData<R>,
}

impl<T, R: Room> Outcome<T, QueueView<T>> for Puts<R> {
    ghost use Rattle.h1_rings.specs.RingRule.{HasPut};

    ghost then = { λ v x w. HasPut R.most v x w };
}

impl<T, R: Room> Lesson<T, QueueView<T>> for Puts<R> {
    ghost use Rattle.h1_rings.specs.RingRule.{Waits};

    ghost fact = { λ v items. Waits v items };
}

/// A take, and one that finds the queue empty.
pub struct Takes;

impl<T> Outcome<T, QueueView<T>> for Takes {
    ghost use Rattle.h1_rings.specs.RingRule.{HasTaken};

    ghost then = { λ v x w. HasTaken v x w };
}

impl<T> Lesson<T, QueueView<T>> for Takes {
    ghost use Rattle.h1_rings.specs.RingRule.{Comes};

    ghost fact = { λ v items. Comes v items };
}

/// What a pass with both rights knows of the queue.
pub struct Total<R> {
    room: PhantomData<R>,
}

impl<T, R: Room> Lesson<T, QueueView<T>> for Total<R> {
    ghost use Rattle.std.specs.Prelude.{◌≡◌, ◌≤◌, ◌++◌, length};

    ghost fact = { λ v items. (v.put ≡ v.taken ++ items) × (length items ≤ R.most) };
}

/// A take by a pass with both rights, and one that finds the queue empty.
pub struct Drains<R> {
    room: PhantomData<R>,
}

impl<T, R: Room> Outcome<T, QueueView<T>> for Drains<R> {
    ghost use Rattle.std.specs.Prelude.{◌≡◌, [], ◌∷◌, ◌++◌};
    ghost use Rattle.h1_rings.specs.RingRule.{queue_view};
    ghost use mathlib.Core.List.{IsPrefix};

    ghost then = { λ v x w. (w ≡ queue_view v.puts v.takes v.put (v.taken ++ x ∷ [])) × IsPrefix w.taken w.put };
}

impl<T, R: Room> Lesson<T, QueueView<T>> for Drains<R> {
    ghost use Rattle.std.specs.Prelude.{◌≡◌, ◌≤◌, ◌++◌, length};

    ghost fact = { λ v items. (v.put ≡ v.taken ++ items) × (length items ≤ R.most) };
}
