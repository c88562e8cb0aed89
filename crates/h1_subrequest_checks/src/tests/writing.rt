//! What passes of a response, and how its body is written.
use super::{Asked, Event, Part, begun, has_put, step};
use Event::{Collect, Reply};
use h1_subrequest::{BodyMode, Direction};
use std::alloc::Global;
use std::process::Abort;
use std::test::*;

const A: Part = Part::Body("a", false);

const AB: Part = Part::Body("ab", false);

/// Does the events of a row. Behind each the body is written as far as the row says, and in the end
/// the subrequest has put these tasks.
fn writes<R: Abort>(
    rt: &R,
    alloc: Global,
    asked: Asked,
    row: &[(Event, BodyMode)],
    reply: &[Part],
) {
    let mut core = begun(rt, alloc, asked);
    for (place, (event, mode)) in row.iter().enumerate() {
        step(rt, alloc, &mut core, *event);
        assert_eq!(rt; core.body_mode(), *mode, "{place} {event:?}");
    }
    has_put(rt, &core, Direction::ToHandle, reply);
}

#[test]
fn a_reply_is_cut_to_the_length_that_its_header_states(rt: HostRuntime) {
    let three = Part::Sized(200, "3");
    let row = [
        (Reply(three), BodyMode::ContentLength(3, 0)),
        (Reply(AB), BodyMode::ContentLength(3, 2)),
        (Reply(AB), BodyMode::ContentLength(3, 3)),
        (Reply(A), BodyMode::ContentLength(3, 3)),
        (Reply(Part::Done), BodyMode::Complete(3)),
        (Reply(Part::Done), BodyMode::Complete(3)),
        (Reply(A), BodyMode::Complete(3)),
    ];
    writes(
        &rt,
        rt.alloc(),
        Asked::Post,
        &row,
        &[three, AB, A, Part::Done],
    );
    let row = [
        (Reply(three), BodyMode::ContentLength(3, 0)),
        (
            Reply(Part::Upgraded("abcd", true)),
            BodyMode::ContentLength(3, 3),
        ),
    ];
    writes(
        &rt,
        rt.alloc(),
        Asked::Post,
        &row,
        &[three, Part::Upgraded("abc", true)],
    );
}

#[test]
fn an_end_that_comes_too_early_is_dropped_and_completes_the_body(rt: HostRuntime) {
    let nine = Part::Sized(200, "9");
    let row = [
        (Reply(nine), BodyMode::ContentLength(9, 0)),
        (Reply(A), BodyMode::ContentLength(9, 1)),
        (Reply(A), BodyMode::ContentLength(9, 2)),
        (Reply(A), BodyMode::ContentLength(9, 3)),
        (Reply(A), BodyMode::ContentLength(9, 3)),
        // The queue is full. An end that is dropped needs no room.
        (Reply(Part::Done), BodyMode::Complete(3)),
        (Collect, BodyMode::Complete(3)),
        (Reply(A), BodyMode::Complete(3)),
        (Reply(Part::Done), BodyMode::Complete(3)),
    ];
    writes(&rt, rt.alloc(), Asked::Post, &row, &[nine, A, A, A]);
}

#[test]
fn a_body_passes_behind_its_header_alone(rt: HostRuntime) {
    let row = [
        (Reply(A), BodyMode::ToSelect),
        (Reply(Part::Upgraded("a", true)), BodyMode::ToSelect),
        (Reply(Part::Done), BodyMode::ToSelect),
        (Reply(Part::NoPiece(true)), BodyMode::ToSelect),
        (Reply(Part::Trailer), BodyMode::ToSelect),
        (Reply(Part::Failed), BodyMode::ToSelect),
    ];
    let reply = [Part::NoPiece(true), Part::Trailer, Part::Failed];
    writes(&rt, rt.alloc(), Asked::Post, &row, &reply);
}

#[test]
fn no_header_passes_behind_a_final_one_or_a_101(rt: HostRuntime) {
    let one = Part::Sized(200, "1");
    let row = [
        (Reply(Part::Status(100)), BodyMode::ToSelect),
        (Reply(Part::Status(103)), BodyMode::ToSelect),
        (Reply(one), BodyMode::ContentLength(1, 0)),
        (Reply(Part::Status(204)), BodyMode::ContentLength(1, 0)),
        (Reply(Part::Status(100)), BodyMode::ContentLength(1, 0)),
    ];
    let reply = [Part::Status(100), Part::Status(103), one];
    writes(&rt, rt.alloc(), Asked::Post, &row, &reply);
    // The request asks for no other protocol.
    let row = [
        (Reply(Part::Status(101)), BodyMode::ToSelect),
        (Reply(Part::Status(200)), BodyMode::ToSelect),
        (Reply(A), BodyMode::ToSelect),
    ];
    writes(&rt, rt.alloc(), Asked::Post, &row, &[Part::Status(101)]);
}

#[test]
fn a_header_says_how_its_body_ends(rt: HostRuntime) {
    let cases: [(Asked, Part, BodyMode); 8] = [
        (
            Asked::Head,
            Part::Sized(200, "5"),
            BodyMode::ContentLength(0, 0),
        ),
        (
            Asked::Post,
            Part::Sized(200, "5"),
            BodyMode::ContentLength(5, 0),
        ),
        (
            Asked::Post,
            Part::Sized(200, "5, 5"),
            BodyMode::ContentLength(5, 0),
        ),
        (Asked::Post, Part::Sized(200, "x"), BodyMode::UntilClose(0)),
        (
            Asked::Post,
            Part::Sized(204, "5"),
            BodyMode::ContentLength(0, 0),
        ),
        (
            Asked::Post,
            Part::Sized(304, "5"),
            BodyMode::ContentLength(0, 0),
        ),
        (Asked::Post, Part::Chunks(200), BodyMode::UntilClose(0)),
        (Asked::Post, Part::Status(200), BodyMode::UntilClose(0)),
    ];
    for (asked, header, expected) in cases {
        let mut core = begun(&rt, rt.alloc(), asked);
        step(&rt, rt.alloc(), &mut core, Reply(header));
        assert_eq!(rt; core.body_mode(), expected, "{asked:?} {header:?}");
    }
}

#[test]
fn nothing_but_the_end_passes_of_a_body_of_no_bytes(rt: HostRuntime) {
    let five = Part::Sized(200, "5");
    let row = [
        (Reply(five), BodyMode::ContentLength(0, 0)),
        (Reply(A), BodyMode::ContentLength(0, 0)),
        (Reply(Part::Done), BodyMode::Complete(0)),
    ];
    writes(&rt, rt.alloc(), Asked::Head, &row, &[five, Part::Done]);
}

#[test]
fn a_body_of_no_stated_length_ends_with_its_end(rt: HostRuntime) {
    let row = [
        (Reply(Part::Status(200)), BodyMode::UntilClose(0)),
        (Reply(AB), BodyMode::UntilClose(2)),
        (Reply(Part::Done), BodyMode::Complete(2)),
        (Reply(Part::Done), BodyMode::Complete(2)),
    ];
    writes(
        &rt,
        rt.alloc(),
        Asked::Post,
        &row,
        &[Part::Status(200), AB, Part::Done],
    );
}
