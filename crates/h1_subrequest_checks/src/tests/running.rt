//! Events of both sides in one list.
use super::{Asked, Event, Part, has_put, made, request};
use Event::{Collect, Read, Reply, Send};
use h1_subrequest::{BodyMode, Direction, ParseState, SubCore, sub_run};
use std::alloc::Global;
use std::process::Abort;
use std::test::*;

const A: Part = Part::Body("a", false);

/// What these events leave.
fn run<R: Abort>(rt: &R, alloc: Global, asked: Asked, row: &[Event]) -> SubCore {
    let request = request(rt, alloc, asked);
    let mut events = Vec::new(alloc);
    for event in row {
        events.push(made(rt, alloc, *event)).expect(rt, "memory");
    }
    sub_run(alloc, &request, events).expect(rt, "memory")
}

/// How many tasks were put to the subrequest and taken by it, and the same of the handle.
fn counts(core: &SubCore) -> [usize; 4] {
    [
        core.put(Direction::ToSubrequest).len(),
        core.taken(Direction::ToSubrequest).len(),
        core.put(Direction::ToHandle).len(),
        core.taken(Direction::ToHandle).len(),
    ]
}

#[test]
fn a_fifth_task_is_put_behind_a_take_alone(rt: HostRuntime) {
    let next = Send(A);
    let row = [next, next, next, next, next];
    let core = run(&rt, rt.alloc(), Asked::Length("5"), &row);
    assert_eq!(rt; counts(&core), [4, 0, 0, 0]);
    let row = [next, next, next, next, next, Read, next, next];
    let core = run(&rt, rt.alloc(), Asked::Length("5"), &row);
    assert_eq!(rt; counts(&core), [5, 1, 0, 0]);
    assert_eq!(rt; core.body_state(), ParseState::Partial(1, 4));
}

#[test]
fn both_sides_go_on_side_by_side(rt: HostRuntime) {
    let two = Part::Sized(200, "2");
    let row = [
        Send(A),
        Reply(two),
        Read,
        Collect,
        Collect,
        Reply(A),
        Send(Part::Body("b", true)),
        Read,
        Reply(A),
        Reply(Part::Done),
        Collect,
    ];
    let core = run(&rt, rt.alloc(), Asked::Length("2"), &row);
    assert_eq!(rt; counts(&core), [2, 2, 4, 2]);
    assert_eq!(rt; core.body_state(), ParseState::Complete(2));
    assert_eq!(rt; core.body_mode(), BodyMode::Complete(2));
    has_put(&rt, &core, Direction::ToHandle, &[two, A, A, Part::Done]);
}

#[test]
fn a_change_of_protocol_moves_the_reader(rt: HostRuntime) {
    let changed = Reply(Part::Status(101));
    let hi = Part::Upgraded("hi", false);
    let sent = Send(Part::Body("abcd", false));
    let core = run(
        &rt,
        rt.alloc(),
        Asked::Upgrade,
        &[sent, Read, changed, Reply(hi)],
    );
    assert_eq!(rt; core.body_state(), ParseState::UntilClose(0));
    assert_eq!(rt; core.body_mode(), BodyMode::UntilClose(2));
    has_put(&rt, &core, Direction::ToHandle, &[Part::Status(101), hi]);
    let core = run(&rt, rt.alloc(), Asked::Upgrade, &[changed, sent, Read]);
    assert_eq!(rt; core.body_state(), ParseState::UntilClose(4));
    // The end of the response is the end of the request's body too.
    let core = run(
        &rt,
        rt.alloc(),
        Asked::Upgrade,
        &[changed, sent, Read, Reply(Part::Done)],
    );
    assert_eq!(rt; core.body_state(), ParseState::Complete(0));
    assert_eq!(rt; core.body_mode(), BodyMode::Complete(0));
}
