//! A ring in one thread, by rows of calls.
ghost use Rattle.std.specs.Prelude.{◌≡◌, false};
ghost use Rattle.std.specs.Option.{is_some};

use super::{Answer, number_in, numbered, put_answer, take_answer};
use h1_head::HttpTask;
use h1_rings::{RingRx, RingTx, TakeStep, TaskRx, TaskTx, ring, settle};
use std::alloc::Global;
use std::process::Abort;
use std::sync::Wait;
use std::test::*;

/// A call on a ring. A put has the number of its task.
#[derive(Clone, Copy, Debug, PartialEq, Eq)]
pub enum Call {
    Put(u32),
    Take,
    CloseSender,
    CloseReceiver,
}

/// Both ends of a ring. A sender that was closed puts no more.
#[derive(Drop)]
pub struct Ends<W: Wait + Drop> {
    tx: RingTx<W>,
    rx: RingRx<W>,
    is_closed: bool,
    pub ghost of_one_ring: { tx.ring ≡ rx.ring },
    pub ghost closed: { is_some tx.closed ≡ is_closed },
}

/// The ends of a new ring.
pub fn new_ring<R: Abort + Wait + Clone + Drop>(rt: &R, alloc: Global) -> Ends<R> {
    let (tx, rx) = ring(rt, alloc).expect(rt, "memory");
    Ends {
        tx,
        rx,
        is_closed: false,
    }
}

impl<W: Wait + Drop> Ends<W> {
    /// What a put answers. A sender that was closed isn't asked.
    pub fn put(&mut self, task: HttpTask) -> Option<Answer> {
        if self.is_closed {
            return None;
        }
        Some(put_answer(TaskTx::put(&mut self.tx, task)))
    }

    /// What a take answers.
    pub fn take(&mut self) -> TakeStep {
        TaskRx::take(&mut self.rx)
    }

    /// What a call answers. A close answers nothing, and neither does a put behind it.
    pub fn answer(&mut self, call: Call) -> Option<Answer> {
        match call {
            Call::Put(number) => self.put(numbered(number)),
            Call::Take => Some(take_answer(self.take())),
            Call::CloseSender => {
                TaskTx::close(&mut self.tx);
                self.is_closed = true;
                None
            }
            Call::CloseReceiver => {
                TaskRx::close(&mut self.rx);
                None
            }
        }
    }

    /// The numbers of the tasks left, in order, with None behind them.
    pub fn left(self) -> [Option<u32>; 4] {
        let Ends { tx, rx, .. } = self;
        let tasks = settle(tx, rx);
        [
            number_in(&tasks[0]),
            number_in(&tasks[1]),
            number_in(&tasks[2]),
            number_in(&tasks[3]),
        ]
    }
}

/// Makes the calls of a row on a new ring. Each answers what the row says, and then so much is left.
pub fn goes<R: Abort + Wait + Clone + Drop>(
    rt: &R,
    alloc: Global,
    row: &[(Call, Option<Answer>)],
    left: [Option<u32>; 4],
) {
    let mut ends = new_ring(rt, alloc);
    for (place, (call, expected)) in row.iter().enumerate() {
        assert_eq!(rt; ends.answer(*call), *expected, "{place} {call:?}");
    }
    assert_eq!(rt; ends.left(), left);
}

#[test]
fn four_tasks_fill_a_ring_and_come_in_order(rt: HostRuntime) {
    goes(
        &rt,
        rt.alloc(),
        &[
            (Call::Put(1), Some(Answer::Put)),
            (Call::Put(2), Some(Answer::Put)),
            (Call::Put(3), Some(Answer::Put)),
            (Call::Put(4), Some(Answer::Put)),
            (Call::Put(5), Some(Answer::Full(5))),
            (Call::Take, Some(Answer::Task(1))),
            (Call::Take, Some(Answer::Task(2))),
            (Call::Take, Some(Answer::Task(3))),
            (Call::Take, Some(Answer::Task(4))),
            (Call::Take, Some(Answer::Empty)),
            (Call::CloseSender, None),
            (Call::Take, Some(Answer::Ended)),
            (Call::Take, Some(Answer::Ended)),
        ],
        [None, None, None, None],
    );
}

#[test]
fn a_ring_settles_with_its_last_four_tasks(rt: HostRuntime) {
    goes(
        &rt,
        rt.alloc(),
        &[
            (Call::Take, Some(Answer::Empty)),
            (Call::Put(1), Some(Answer::Put)),
            (Call::Put(2), Some(Answer::Put)),
            (Call::Put(3), Some(Answer::Put)),
            (Call::Put(4), Some(Answer::Put)),
            (Call::Take, Some(Answer::Task(1))),
            (Call::Put(5), Some(Answer::Put)),
            (Call::Put(6), Some(Answer::Full(6))),
        ],
        [Some(2), Some(3), Some(4), Some(5)],
    );
}
