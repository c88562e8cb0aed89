//! How the body of the request is read.
use super::{Asked, Event, Part, begun, step};
use Event::{Close, Gone, Read, Send};
use h1_subrequest::{Direction, ParseState};
use std::alloc::Global;
use std::process::Abort;
use std::test::*;

const A: Event = Send(Part::Body("a", false));

const CLOSED: Event = Close(Direction::ToSubrequest);

/// Does the events of a row. Behind each the body is read as far as the row says.
fn reads<R: Abort>(rt: &R, alloc: Global, asked: Asked, row: &[(Event, ParseState)]) {
    let mut core = begun(rt, alloc, asked);
    for (place, (event, state)) in row.iter().enumerate() {
        step(rt, alloc, &mut core, *event);
        assert_eq!(rt; core.body_state(), *state, "{place} {event:?}");
    }
}

#[test]
fn a_body_is_begun_as_its_request_says(rt: HostRuntime) {
    let cases: [(Asked, ParseState); 7] = [
        (Asked::Post, ParseState::Complete(0)),
        (Asked::Head, ParseState::Complete(0)),
        (Asked::Length("0"), ParseState::Complete(0)),
        (Asked::Length("3"), ParseState::Partial(0, 3)),
        (Asked::Length("3, 3"), ParseState::Partial(0, 3)),
        (Asked::Length("3, 4"), ParseState::Complete(0)),
        (Asked::Chunked, ParseState::UntilClose(0)),
    ];
    for (asked, expected) in cases {
        let core = begun(&rt, rt.alloc(), asked);
        assert_eq!(rt; core.body_state(), expected, "{asked:?}");
    }
}

#[test]
fn a_body_of_stated_length_ends_with_it(rt: HostRuntime) {
    reads(
        &rt,
        rt.alloc(),
        Asked::Length("3"),
        &[
            (A, ParseState::Partial(0, 3)),
            (Read, ParseState::Partial(1, 2)),
            (Read, ParseState::Partial(1, 2)),
            (Send(Part::Body("bcd", false)), ParseState::Partial(1, 2)),
            (Read, ParseState::Complete(3)),
            (A, ParseState::Complete(3)),
            (Read, ParseState::Complete(3)),
        ],
    );
}

#[test]
fn a_body_that_ends_before_its_length_is_done(rt: HostRuntime) {
    reads(
        &rt,
        rt.alloc(),
        Asked::Length("3"),
        &[
            (A, ParseState::Partial(0, 3)),
            (Send(Part::Body("", true)), ParseState::Partial(0, 3)),
            (Read, ParseState::Partial(1, 2)),
            (Read, ParseState::Done(1)),
        ],
    );
    reads(
        &rt,
        rt.alloc(),
        Asked::Length("3"),
        &[
            (Send(Part::Body("ab", true)), ParseState::Partial(0, 3)),
            (Read, ParseState::Done(2)),
        ],
    );
    reads(
        &rt,
        rt.alloc(),
        Asked::Length("3"),
        &[
            (A, ParseState::Partial(0, 3)),
            (Read, ParseState::Partial(1, 2)),
            (Send(Part::NoPiece(false)), ParseState::Partial(1, 2)),
            (Read, ParseState::Done(1)),
        ],
    );
}

#[test]
fn what_was_put_before_the_close_is_taken_first(rt: HostRuntime) {
    reads(
        &rt,
        rt.alloc(),
        Asked::Length("3"),
        &[
            (A, ParseState::Partial(0, 3)),
            (CLOSED, ParseState::Partial(0, 3)),
            (Read, ParseState::Partial(1, 2)),
            (Read, ParseState::Done(1)),
        ],
    );
}

#[test]
fn a_body_in_chunks_ends_with_its_sender(rt: HostRuntime) {
    reads(
        &rt,
        rt.alloc(),
        Asked::Chunked,
        &[
            (A, ParseState::UntilClose(0)),
            (Read, ParseState::UntilClose(1)),
            (Send(Part::Body("", false)), ParseState::UntilClose(1)),
            (Read, ParseState::UntilClose(1)),
            (CLOSED, ParseState::UntilClose(1)),
            (Read, ParseState::Complete(1)),
        ],
    );
    reads(
        &rt,
        rt.alloc(),
        Asked::Chunked,
        &[
            (Send(Part::Body("bc", true)), ParseState::UntilClose(0)),
            (Read, ParseState::Complete(2)),
        ],
    );
    reads(
        &rt,
        rt.alloc(),
        Asked::Chunked,
        &[
            (A, ParseState::UntilClose(0)),
            (Send(Part::NoPiece(false)), ParseState::UntilClose(0)),
            (Read, ParseState::UntilClose(1)),
            (Read, ParseState::Complete(1)),
        ],
    );
}

#[test]
fn a_task_of_another_kind_moves_no_reader(rt: HostRuntime) {
    reads(
        &rt,
        rt.alloc(),
        Asked::Length("3"),
        &[
            (Send(Part::Done), ParseState::Partial(0, 3)),
            (Read, ParseState::Partial(0, 3)),
            (Send(Part::Upgraded("abc", true)), ParseState::Partial(0, 3)),
            (Read, ParseState::Partial(0, 3)),
            (Gone(Direction::ToSubrequest), ParseState::Partial(0, 3)),
            (Read, ParseState::Partial(0, 3)),
        ],
    );
}
