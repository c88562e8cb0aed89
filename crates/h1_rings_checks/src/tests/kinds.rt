//! Tasks of each kind go through a ring as they are.
use super::Answer;
use super::rows::new_ring;
use bytes::Bytes;
use h1_head::{HttpTask, ResponseHeader};
use h1_rings::TakeStep;
use std::test::*;

/// The name of the kind of task that a take answered.
fn kind(step: &TakeStep) -> &'static str {
    match step {
        TakeStep::Task(task) => task.type_str(),
        TakeStep::Empty | TakeStep::Ended => "",
    }
}

#[test]
fn each_kind_of_task_comes_as_it_was_put(rt: HostRuntime) {
    let mut ring = new_ring(&rt, rt.alloc());
    let header = ResponseHeader::build(rt.alloc(), 200, None).expect(&rt, "memory");
    let body = Bytes::copy_from_slice(rt.alloc(), b"abc").expect(&rt, "memory");
    assert_eq!(rt;
        ring.put(HttpTask::Header(header, false)),
        Some(Answer::Put)
    );
    assert_eq!(rt;
        ring.put(HttpTask::Body(Some(body), false)),
        Some(Answer::Put)
    );
    assert_eq!(rt;
        ring.put(HttpTask::UpgradedBody(None, false)),
        Some(Answer::Put)
    );
    assert_eq!(rt; ring.put(HttpTask::Trailer(None)), Some(Answer::Put));
    for expected in ["Header", "Body", "UpgradedBody", "Trailer"] {
        let step = ring.take();
        assert_eq!(rt; kind(&step), expected);
    }
    assert_eq!(rt; ring.put(HttpTask::Done), Some(Answer::Put));
    let step = ring.take();
    assert_eq!(rt; kind(&step), "Done");
}
