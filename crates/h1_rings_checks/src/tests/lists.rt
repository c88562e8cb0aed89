//! The ends in memory.
ghost use Rattle.std.specs.Prelude.{◌≡◌, false};

use super::{Answer, number_in, numbered, put_answer, take_answer};
use h1_rings::{ListRx, ListTx, TaskRx, TaskTx};
use std::test::*;

/// A sending end in memory that isn't closed.
#[derive(Drop)]
struct Plain {
    tx: ListTx,
    pub ghost opened: { tx.closed ≡ false },
}

impl Plain {
    fn put(&mut self, number: u32) -> Answer {
        put_answer(TaskTx::put(&mut self.tx, numbered(number)))
    }

    fn pop(&mut self) -> Option<u32> {
        number_in(&self.tx.pop())
    }

    fn set_gone(&mut self) {
        self.tx.set_gone();
    }

    fn close(self) -> ListTx {
        let Plain { mut tx } = self;
        TaskTx::close(&mut tx);
        tx
    }
}

#[test]
fn a_plain_sender_takes_four_tasks_and_hands_them_out_in_order(rt: HostRuntime) {
    let mut plain = Plain { tx: ListTx::new() };
    for number in 0..4 {
        assert_eq!(rt; plain.put(number), Answer::Put);
    }
    assert_eq!(rt; plain.put(4), Answer::Full(4));
    assert_eq!(rt; plain.pop(), Some(0));
    assert_eq!(rt; plain.put(5), Answer::Put);
    plain.set_gone();
    assert_eq!(rt; plain.put(6), Answer::Gone(6));
    let mut tx = plain.close();
    for expected in [Some(1), Some(2), Some(3), Some(5), None] {
        assert_eq!(rt; number_in(&tx.pop()), expected);
    }
}

#[test]
fn a_plain_receiver_is_given_four_tasks_and_ends_behind_them(rt: HostRuntime) {
    let mut rx = ListRx::new();
    assert_eq!(rt; take_answer(TaskRx::take(&mut rx)), Answer::Empty);
    for number in 0..4 {
        assert_eq!(rt; put_answer(rx.give(numbered(number))), Answer::Put);
    }
    assert_eq!(rt; put_answer(rx.give(numbered(4))), Answer::Full(4));
    rx.end();
    for number in 0..4 {
        assert_eq!(rt; take_answer(TaskRx::take(&mut rx)), Answer::Task(number));
    }
    assert_eq!(rt; take_answer(TaskRx::take(&mut rx)), Answer::Ended);
    TaskRx::close(&mut rx);
    assert_eq!(rt; put_answer(rx.give(numbered(5))), Answer::Gone(5));
}
