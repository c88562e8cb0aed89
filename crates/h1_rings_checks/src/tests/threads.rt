//! A ring between two threads.
ghost use Rattle.std.specs.Prelude.{◌≡◌, false};

use super::{number, numbered};
use h1_rings::{PutStep, TakeStep, TaskRx, TaskTx, ring};
use std::sync::Wait;
use std::test::*;
use std::thread;
use std::thread::join;

/// A sending end that isn't closed.
#[derive(Drop)]
struct Sender<X: TaskTx + Drop> {
    tx: X,
    pub ghost opened: { X.is_closed tx ≡ false },
}

impl<X: TaskTx + Drop> Sender<X> {
    fn put(&mut self, number: u32) -> PutStep {
        self.tx.put(numbered(number))
    }

    fn close(self) {
        let Sender { mut tx } = self;
        tx.close();
    }
}

/// Puts the tasks from 0 on, so many of them, until the receiver is closed, and closes. It answers how
/// many were put.
fn put_all<X: TaskTx + Drop, R: Wait>(rt: &R, mut sender: Sender<X>, count: u32) -> u32 {
    let mut next = 0;
    for _ in rt.forever() {
        if next >= count {
            break;
        }
        match sender.put(next) {
            PutStep::Put => next += 1,
            PutStep::Full(_) => thread::yield_now(),
            PutStep::Gone(_) => break,
        }
    }
    sender.close();
    next
}

/// Takes tasks until the sender is closed, or until there are so many, and closes. It answers how many
/// came, and whether they are those from 0 on.
fn take_all<R: TaskRx + Drop, W: Wait>(rt: &W, mut rx: R, most: u32) -> (u32, bool) {
    let mut count = 0;
    let mut in_order = true;
    for _ in rt.forever() {
        if count >= most {
            break;
        }
        match rx.take() {
            TakeStep::Task(task) => {
                in_order = in_order && number(&task) == count;
                count += 1;
            }
            TakeStep::Empty => thread::yield_now(),
            TakeStep::Ended => break,
        }
    }
    rx.close();
    (count, in_order)
}

#[test]
fn a_thousand_tasks_cross_in_order(rt: HostRuntime) {
    let (tx, rx) = ring(&rt, rt.alloc()).expect(&rt, "memory");
    let sender = Sender { tx };
    let (put, (taken, in_order)) = join(
        &rt,
        move || put_all(&rt, sender, 1_000),
        move || take_all(&rt, rx, 2_000),
    );
    assert_eq!(rt; (put, taken, in_order), (1_000, 1_000, true));
}

#[test]
fn a_sender_that_ends_early_ends_the_receiver(rt: HostRuntime) {
    let (tx, rx) = ring(&rt, rt.alloc()).expect(&rt, "memory");
    let sender = Sender { tx };
    let (put, (taken, in_order)) = join(
        &rt,
        move || put_all(&rt, sender, 3),
        move || take_all(&rt, rx, 1_000),
    );
    assert_eq!(rt; (put, taken, in_order), (3, 3, true));
}

#[test]
fn a_receiver_that_ends_early_ends_the_sender(rt: HostRuntime) {
    let (tx, rx) = ring(&rt, rt.alloc()).expect(&rt, "memory");
    let sender = Sender { tx };
    let (put, (taken, in_order)) = join(
        &rt,
        move || put_all(&rt, sender, 1_000),
        move || take_all(&rt, rx, 10),
    );
    assert_eq!(rt; (taken, in_order), (10, true));
    // It puts at most the four tasks more that the ring has room for.
    assert!(rt; put >= 10);
    assert!(rt; put <= 14);
}
