//! A reader of a body over an end in memory.
use super::{Part, is_piece, task};
use bytes::Bytes;
use futures::task::Poll;
use h1_error::{Error, ErrorType, TaskKind};
use h1_rings::{ListRx, OnceTx, once};
use h1_subrequest::{BodyReader, ParseState};
use std::alloc::Global;
use std::process::Abort;
use std::sync::Wait;
use std::test::*;

/// What a read answers.
#[derive(Clone, Copy, Debug)]
enum Told {
    Piece(&'static str),
    NoMore,
    Refused(ErrorType),
    Waits,
}

fn is(answer: &Poll<Result<Option<Bytes>, Error>>, told: Told) -> bool {
    match (answer, told) {
        (Poll::Ready(Ok(piece)), Told::Piece(text)) => is_piece(piece, text),
        (Poll::Ready(Ok(None)), Told::NoMore) => true,
        (Poll::Ready(Err(error)), Told::Refused(cause)) => error.kind == cause,
        (Poll::Pending, Told::Waits) => true,
        _ => false,
    }
}

/// A reader of a body of this length, or of one that its sender's end ends.
fn reader<W: Wait + Drop>(length: Option<usize>, notify: Option<OnceTx<(), W>>) -> BodyReader<W> {
    let mut reader = BodyReader::new(notify);
    match length {
        Some(n) => reader.init_content_length(n),
        None => reader.init_close_delimited(),
    }
    reader
}

/// What the next read answers. A reader that isn't set isn't asked.
fn read<W: Wait + Drop>(
    reader: &mut BodyReader<W>,
    rx: &mut ListRx,
) -> Poll<Result<Option<Bytes>, Error>> {
    if reader.need_init() {
        return Poll::Pending;
    }
    reader.poll_read_body(rx)
}

/// Does a row: the length of the body, the tasks that the sender put, whether it ended then, and what
/// each read answers, with how far the body is read.
fn reads<R: Abort + Wait + Drop>(
    rt: &R,
    alloc: Global,
    length: Option<usize>,
    parts: &[Part],
    ended: bool,
    expected: &[(Told, ParseState)],
) {
    let mut rx = ListRx::new();
    for part in parts {
        let _ = rx.give(task(rt, alloc, *part));
    }
    if ended {
        rx.end();
    }
    let mut reader = reader::<R>(length, None);
    for (told, state) in expected {
        let answer = read(&mut reader, &mut rx);
        assert!(rt; is(&answer, *told), "{told:?}");
        assert_eq!(rt; reader.body_state, *state);
    }
}

#[test]
fn reads_hand_out_a_body_up_to_its_length(rt: HostRuntime) {
    let a = Part::Body("a", false);
    let first = (Told::Piece("a"), ParseState::Partial(1, 2));
    let none = (Told::NoMore, ParseState::Complete(3));
    let short = Told::Refused(ErrorType::PrematureBodyEnd);
    let cut = Told::Refused(ErrorType::ConnectionClosed);
    reads(
        &rt,
        rt.alloc(),
        Some(3),
        &[a, Part::Body("bcd", false)],
        false,
        &[first, (Told::Piece("bc"), ParseState::Complete(3)), none],
    );
    reads(
        &rt,
        rt.alloc(),
        Some(3),
        &[a, Part::Body("", true)],
        false,
        &[
            first,
            (short, ParseState::Done(1)),
            (Told::NoMore, ParseState::Done(1)),
        ],
    );
    reads(
        &rt,
        rt.alloc(),
        Some(3),
        &[a],
        true,
        &[first, (cut, ParseState::Done(1))],
    );
    reads(
        &rt,
        rt.alloc(),
        Some(3),
        &[a, Part::NoPiece(false)],
        false,
        &[first, (cut, ParseState::Done(1))],
    );
}

#[test]
fn reads_wait_for_more_and_refuse_what_is_no_body(rt: HostRuntime) {
    let a = Part::Body("a", false);
    let first = (Told::Piece("a"), ParseState::Partial(1, 2));
    let header = Told::Refused(ErrorType::UnexpectedTask(TaskKind::Done));
    reads(
        &rt,
        rt.alloc(),
        Some(3),
        &[a],
        false,
        &[first, (Told::Waits, ParseState::Partial(1, 2))],
    );
    reads(
        &rt,
        rt.alloc(),
        Some(3),
        &[Part::Done, a],
        false,
        &[(header, ParseState::Partial(0, 3)), first],
    );
    reads(
        &rt,
        rt.alloc(),
        Some(0),
        &[a],
        false,
        &[(Told::NoMore, ParseState::Complete(0))],
    );
}

#[test]
fn reads_hand_out_a_body_up_to_its_senders_end(rt: HostRuntime) {
    let a = Part::Body("a", false);
    let first = (Told::Piece("a"), ParseState::UntilClose(1));
    reads(
        &rt,
        rt.alloc(),
        None,
        &[a, Part::Body("", false)],
        true,
        &[
            first,
            (Told::Piece(""), ParseState::UntilClose(1)),
            (Told::NoMore, ParseState::Complete(1)),
        ],
    );
    reads(
        &rt,
        rt.alloc(),
        None,
        &[a, Part::Body("bc", true)],
        false,
        &[first, (Told::Piece("bc"), ParseState::Complete(3))],
    );
    reads(
        &rt,
        rt.alloc(),
        None,
        &[a, Part::NoPiece(true)],
        false,
        &[first, (Told::NoMore, ParseState::Complete(1))],
    );
}

#[test]
fn the_first_read_sends_the_notice(rt: HostRuntime) {
    let (tx, mut notice) = once::<(), HostRuntime>(&rt, rt.alloc()).expect(&rt, "memory");
    let mut reader = reader(Some(1), Some(tx));
    let mut rx = ListRx::new();
    assert_eq!(rt; notice.try_take(), None);
    assert!(rt; is(&read(&mut reader, &mut rx), Told::Waits));
    assert_eq!(rt; notice.try_take(), Some(()));
    assert!(rt; is(&read(&mut reader, &mut rx), Told::Waits));
    assert_eq!(rt; notice.try_take(), None);
}

#[test]
fn a_reader_tells_whether_its_body_is_over(rt: HostRuntime) {
    let mut reader = BodyReader::<HostRuntime>::new(None);
    assert!(rt; reader.need_init());
    reader.init_content_length(0);
    assert!(rt; reader.body_done() && reader.body_empty());
    reader.convert_to_close_delimited();
    assert!(rt; !reader.body_done() && !reader.need_init());
}
