//! A close from either side, at every number of tasks in the ring.
use super::rows::{Call, Ends, new_ring};
use super::{Answer, NO_TASK};
use std::alloc::Global;
use std::process::Abort;
use std::sync::Wait;
use std::test::*;

/// A ring with the tasks from 0 on, so many of them.
fn holding<R: Abort + Wait + Clone + Drop>(rt: &R, alloc: Global, count: u32) -> Ends<R> {
    let mut ends = new_ring(rt, alloc);
    for number in 0..count {
        assert_eq!(rt;
            ends.answer(Call::Put(number)),
            Some(Answer::Put),
            "{number}"
        );
    }
    ends
}

/// All tasks of the ring come, and then this answer, twice.
fn comes<R: Abort + Wait + Drop>(rt: &R, ends: &mut Ends<R>, count: u32, last: Answer) {
    for number in 0..count {
        assert_eq!(rt;
            ends.answer(Call::Take),
            Some(Answer::Task(number)),
            "{number}"
        );
    }
    assert_eq!(rt; ends.answer(Call::Take), Some(last), "{count}");
    assert_eq!(rt; ends.answer(Call::Take), Some(last), "{count}");
}

#[test]
fn a_sender_that_closes_ends_the_ring_behind_its_tasks(rt: HostRuntime) {
    for count in 0..5 {
        let mut ends = holding(&rt, rt.alloc(), count);
        assert_eq!(rt; ends.answer(Call::CloseSender), None);
        comes(&rt, &mut ends, count, Answer::Ended);
        assert_eq!(rt; ends.left(), [None, None, None, None]);
    }
}

#[test]
fn a_receiver_that_closes_gives_each_later_task_back(rt: HostRuntime) {
    for count in 0..5 {
        let mut ends = holding(&rt, rt.alloc(), count);
        assert_eq!(rt; ends.answer(Call::CloseReceiver), None);
        assert_eq!(rt; ends.answer(Call::Put(9)), Some(Answer::Gone(9)), "{count}");
        assert_eq!(rt; ends.answer(Call::CloseReceiver), None);
        assert_eq!(rt;
            ends.answer(Call::Put(NO_TASK)),
            Some(Answer::Gone(NO_TASK)),
            "{count}"
        );
        comes(&rt, &mut ends, count, Answer::Empty);
    }
}

#[test]
fn both_ends_close_and_the_tasks_are_left(rt: HostRuntime) {
    for count in 0..5 {
        let mut ends = holding(&rt, rt.alloc(), count);
        assert_eq!(rt; ends.answer(Call::CloseReceiver), None);
        assert_eq!(rt; ends.answer(Call::CloseSender), None);
        assert_eq!(rt; ends.answer(Call::CloseSender), None);
        for (place, task) in ends.left().into_iter().enumerate() {
            let expected = if place < count as usize {
                Some(place as u32)
            } else {
                None
            };
            assert_eq!(rt; task, expected, "{count}");
        }
    }
}
