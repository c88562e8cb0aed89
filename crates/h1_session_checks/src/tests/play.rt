//! Sessions that are played: a test is a list of steps.
use super::Told::{self, *};
use super::calls::{
    drain, end, go_on, go_on_with_header, go_on_with_piece, hand_in_header, hand_in_piece, payload,
    piece_of, read_body, read_head, reuse,
};
use super::facts::{Fact, holds, went};
use super::peer::{block, close, make_room, send};
use super::setting::{Setting, set};
use super::steps::{Call, Step};
use super::{GET, Timed, WRITE_LATE, session_of};
use bytes::Bytes;
use std::process::Abort;

/// When a wait begins, where a step doesn't say it.
const FIRST: u64 = 5_000;

/// Plays the steps with a session whose peer is to send these bytes. It promises nothing: an
/// expectation that isn't met ends the test.
pub(crate) fn play(rt: &(impl Abort + AllocGlobal), bytes: &[u8], steps: &[Step]) {
    let mut timed = session_of(rt, bytes);
    play_on(rt, &mut timed, steps);
}

/// Plays the steps with a session that read a head of this length at moment 0.
pub(crate) fn play_asked(
    rt: &(impl Abort + AllocGlobal),
    bytes: &[u8],
    len: usize,
    steps: &[Step],
) {
    let mut timed = session_of(rt, bytes);
    ask(rt, &mut timed, len);
    play_on(rt, &mut timed, steps);
}

/// Plays the steps with a session that wrote the head of a reply of this length at moment 0.
pub(crate) fn play_headed(rt: &(impl Abort + AllocGlobal), len: u64, steps: &[Step]) {
    let mut timed = session_of(rt, GET);
    ask(rt, &mut timed, 18);
    play_on(rt, &mut timed, &[Step::Header(len, 0, Done)]);
    play_on(rt, &mut timed, steps);
}

/// Has the session read a head of this length at moment 0.
pub(crate) fn ask(rt: &(impl Abort + AllocGlobal), timed: &mut Timed, len: usize) {
    play_on(rt, timed, &[Step::Read(Call::Head, 0, len, Gives(len))]);
}

/// Plays the steps, one after the other.
pub(crate) fn play_on(rt: &(impl Abort + AllocGlobal), timed: &mut Timed, steps: &[Step]) {
    for i in 0..steps.len() {
        timed.step = i;
        play_step(rt, timed, steps[i]);
    }
}

/// Plays a step.
fn play_step(rt: &(impl Abort + AllocGlobal), timed: &mut Timed, step: Step) {
    act(rt, timed, step);
    if let Some((told, expected)) = answer_to(rt, timed, step) {
        tells(rt, timed, told, expected);
    }
    call_each(rt, timed, step);
    meets(rt, timed, step);
}

/// A call of the step that is played tells this.
fn tells(rt: &impl Abort, timed: &Timed, told: Told, expected: Told) {
    assert_eq!(rt; told, expected, "step {}", timed.step);
}

/// What is set, or what the peer does, in a step.
fn act(rt: &impl Abort, timed: &mut Timed, step: Step) {
    match step {
        Step::Set(setting) => set(timed, setting),
        Step::Send(count) | Step::Read(_, _, count, _) => send(rt, timed, count),
        Step::Close => close(timed),
        Step::Room(count) | Step::Piece(_, _, count, _) | Step::PieceOn(_, count, _) => {
            make_room(timed, count);
        }
        Step::Block => block(timed),
        Step::Next => go_on(rt, timed),
        _ => {}
    }
}

/// What the call of a step tells, and what is expected of it.
fn answer_to(
    rt: &(impl Abort + AllocGlobal),
    timed: &mut Timed,
    step: Step,
) -> Option<(Told, Told)> {
    let (told, expected) = match step {
        Step::Read(call, now, _, expected) => (read(rt, timed, call, now), expected),
        Step::Header(len, now, expected) => (hand_in_header(rt, timed, len, now), expected),
        Step::HeaderOn(now, expected) => (go_on_with_header(rt, timed, now), expected),
        Step::Piece(len, now, _, expected) => (hand_in(rt, timed, len, now), expected),
        Step::PieceOn(now, _, expected) => (go_on_with_piece(rt, timed, now), expected),
        Step::End(now, expected) => (end(rt, timed, now), expected),
        _ => return None,
    };
    Some((told, expected))
}

/// The calls of a step that makes several.
fn call_each(rt: &(impl Abort + AllocGlobal), timed: &mut Timed, step: Step) {
    match step {
        Step::ReadUntil(call, limit, late) => read_until(rt, timed, call, limit, late),
        Step::ReadWhereAsked(call, late) => read_where_asked(rt, timed, call, late),
        Step::PieceUntil(len, limit) => piece_until(rt, timed, len, limit),
        Step::Reply(now) => reply(rt, timed, now),
        _ => {}
    }
}

/// What a step expects of the session holds.
fn meets(rt: &impl Abort, timed: &mut Timed, step: Step) {
    let is_met = match step {
        Step::Is(fact) => holds(timed, fact),
        Step::Has(traffic) => went(timed, traffic),
        Step::Payload(now, bytes) => is_piece(payload(rt, timed, now), bytes),
        _ => true,
    };
    assert!(rt; is_met, "step {}", timed.step);
}

/// Whether this is a piece of these bytes.
pub(crate) fn is_piece(piece: Option<Bytes>, bytes: &[u8]) -> bool {
    match piece {
        Some(piece) => piece.as_slice() == bytes,
        None => false,
    }
}

/// What a call tells that reads.
fn read(rt: &impl Abort, timed: &mut Timed, call: Call, now: u64) -> Told {
    match call {
        Call::Head => read_head(rt, timed, now),
        Call::Body => read_body(rt, timed, now),
        Call::Drain => drain(rt, timed, now),
        Call::Reuse => reuse(rt, timed, now),
    }
}

/// A call that reads tells this at this moment.
fn reads(rt: &impl Abort, timed: &mut Timed, call: Call, now: u64, expected: Told) {
    let told = read(rt, timed, call, now);
    tells(rt, timed, told, expected);
}

/// A call that reads waits from `FIRST` on until its time is over.
fn read_until(rt: &impl Abort, timed: &mut Timed, call: Call, limit: u64, late: Told) {
    let end = FIRST.saturating_add(limit);
    reads(rt, timed, call, FIRST, Waits);
    reads(rt, timed, call, end.saturating_sub(1), Waits);
    reads(rt, timed, call, end, late);
    reads(rt, timed, call, end, late);
}

/// A call that reads waits from `FIRST` on for a second, but not where its budget is spent.
fn read_where_asked(rt: &impl Abort, timed: &mut Timed, call: Call, late: Told) {
    waits_with_none_left(rt, timed, call, 0);
    waits_with_none_left(rt, timed, call, 4_500);
    reads(rt, timed, call, FIRST, Waits);
    reads(rt, timed, call, 5_999, Waits);
    waits_with_none_left(rt, timed, call, 6_000);
    reads(rt, timed, call, 6_000, late);
}

/// A call that reads waits at this moment where its budget is spent.
fn waits_with_none_left(rt: &impl Abort, timed: &mut Timed, call: Call, now: u64) {
    set(timed, Setting::Budget(Some(0)));
    reads(rt, timed, call, now, Waits);
    set(timed, Setting::Budget(None));
}

/// Hands in a piece of this length.
fn hand_in(rt: &(impl Abort + AllocGlobal), timed: &mut Timed, len: usize, now: u64) -> Told {
    hand_in_piece(rt, timed, piece_of(rt, len), now)
}

/// The piece before tells this when it goes on at this moment.
fn goes_on(rt: &impl Abort, timed: &mut Timed, now: u64, expected: Told) {
    let told = go_on_with_piece(rt, timed, now);
    tells(rt, timed, told, expected);
}

/// A piece waits from `FIRST` on until its time is over.
fn piece_until(rt: &(impl Abort + AllocGlobal), timed: &mut Timed, len: usize, limit: u64) {
    let end = FIRST.saturating_add(limit);
    make_room(timed, 0);
    let told = hand_in(rt, timed, len, FIRST);
    tells(rt, timed, told, Waits);
    goes_on(rt, timed, end.saturating_sub(1), Waits);
    goes_on(rt, timed, end, WRITE_LATE);
}

/// Writes the reply "ok" whole, after which the connection is kept.
fn reply(rt: &(impl Abort + AllocGlobal), timed: &mut Timed, now: u64) {
    let told = hand_in_header(rt, timed, 2, now);
    tells(rt, timed, told, Done);
    meets(rt, timed, Step::Is(Fact::ReplyKeeps(true)));
    let told = hand_in_piece(rt, timed, Bytes::from_static(b"ok"), now);
    tells(rt, timed, told, Gives(2));
    let told = end(rt, timed, now);
    tells(rt, timed, told, Gives(2));
}
