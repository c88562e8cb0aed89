//! Subrequests by rows of events, with what each leaves worked by hand. None of the functions here
//! promises anything: an expectation that isn't met ends the test.
mod read_body;
mod reading;
mod replies;
mod running;
mod session;
mod write_body;
mod writing;

use bytes::Bytes;
use h1_error::{Error, ErrorType};
use h1_head::{HttpTask, RequestHeader, ResponseHeader};
use h1_subrequest::{Direction, SubCore, SubEvent};
use std::alloc::Global;
use std::process::Abort;
use std::test::*;

/// The request of a row.
#[derive(Clone, Copy, Debug)]
enum Asked {
    Post,
    Head,
    Upgrade,
    Length(&'static str),
    Chunked,
}

/// A task of a row.
#[derive(Clone, Copy, Debug)]
enum Part {
    /// A header of this status, with nothing that says how its body ends.
    Status(u16),
    /// One with a Content-Length line.
    Sized(u16, &'static str),
    /// One with chunks.
    Chunks(u16),
    Body(&'static str, bool),
    /// A body task without a piece.
    NoPiece(bool),
    Upgraded(&'static str, bool),
    Trailer,
    Done,
    Failed,
}

/// An event of a row.
#[derive(Clone, Copy, Debug)]
enum Event {
    /// The subrequest puts a task.
    Reply(Part),
    /// The handle puts a task.
    Send(Part),
    /// The subrequest takes a task.
    Read,
    /// The handle takes a task.
    Collect,
    Close(Direction),
    Gone(Direction),
}

fn request<R: Abort>(rt: &R, alloc: Global, asked: Asked) -> RequestHeader {
    let method: &[u8] = match asked {
        Asked::Head => b"HEAD",
        _ => b"POST",
    };
    let mut head = RequestHeader::build(alloc, method, b"/s", None).expect(rt, "memory");
    let line: Option<(&[u8], &[u8])> = match asked {
        Asked::Post | Asked::Head => None,
        Asked::Upgrade => Some((b"Upgrade", b"websocket")),
        Asked::Length(digits) => Some((b"Content-Length", digits.as_bytes())),
        Asked::Chunked => Some((b"Transfer-Encoding", b"chunked")),
    };
    if let Some((name, value)) = line {
        head.append_header(name, value).expect(rt, "memory");
    }
    head
}

fn header<R: Abort>(rt: &R, alloc: Global, status: u16, line: Option<(&[u8], &[u8])>) -> HttpTask {
    let mut head = ResponseHeader::build(alloc, status, None).expect(rt, "memory");
    if let Some((name, value)) = line {
        head.append_header(name, value).expect(rt, "memory");
    }
    HttpTask::Header(head, false)
}

fn piece<R: Abort>(rt: &R, alloc: Global, text: &str) -> Option<Bytes> {
    Some(Bytes::copy_from_slice(alloc, text.as_bytes()).expect(rt, "memory"))
}

fn task<R: Abort>(rt: &R, alloc: Global, part: Part) -> HttpTask {
    match part {
        Part::Status(status) => header(rt, alloc, status, None),
        Part::Sized(status, digits) => {
            let line: (&[u8], &[u8]) = (b"Content-Length", digits.as_bytes());
            header(rt, alloc, status, Some(line))
        }
        Part::Chunks(status) => {
            let line: (&[u8], &[u8]) = (b"Transfer-Encoding", b"chunked");
            header(rt, alloc, status, Some(line))
        }
        Part::Body(text, end) => HttpTask::Body(piece(rt, alloc, text), end),
        Part::NoPiece(end) => HttpTask::Body(None, end),
        Part::Upgraded(text, end) => HttpTask::UpgradedBody(piece(rt, alloc, text), end),
        Part::Trailer => HttpTask::Trailer(None),
        Part::Done => HttpTask::Done,
        Part::Failed => HttpTask::Failed(Error::from(ErrorType::TaskFailed(7))),
    }
}

fn made<R: Abort>(rt: &R, alloc: Global, event: Event) -> SubEvent {
    match event {
        Event::Reply(part) => SubEvent::Put(Direction::ToHandle, task(rt, alloc, part)),
        Event::Send(part) => SubEvent::Put(Direction::ToSubrequest, task(rt, alloc, part)),
        Event::Read => SubEvent::Take(Direction::ToSubrequest),
        Event::Collect => SubEvent::Take(Direction::ToHandle),
        Event::Close(direction) => SubEvent::Close(direction),
        Event::Gone(direction) => SubEvent::Gone(direction),
    }
}

fn is_piece(piece: &Option<Bytes>, text: &str) -> bool {
    match piece {
        Some(piece) => piece.as_slice() == text.as_bytes(),
        None => false,
    }
}

/// Whether a task is that of the row. Of a header the status alone is compared.
fn is(task: &HttpTask, part: Part) -> bool {
    match (task, part) {
        (HttpTask::Header(head, _), Part::Status(status)) => head.status() == status,
        (HttpTask::Header(head, _), Part::Sized(status, _)) => head.status() == status,
        (HttpTask::Header(head, _), Part::Chunks(status)) => head.status() == status,
        (HttpTask::Body(piece, end), Part::Body(text, last)) => {
            is_piece(piece, text) && *end == last
        }
        (HttpTask::Body(None, end), Part::NoPiece(last)) => *end == last,
        (HttpTask::UpgradedBody(piece, end), Part::Upgraded(text, last)) => {
            is_piece(piece, text) && *end == last
        }
        (HttpTask::Trailer(_), Part::Trailer) => true,
        (HttpTask::Done, Part::Done) => true,
        (HttpTask::Failed(_), Part::Failed) => true,
        _ => false,
    }
}

/// The core of this request before any event.
fn begun<R: Abort>(rt: &R, alloc: Global, asked: Asked) -> SubCore {
    let request = request(rt, alloc, asked);
    SubCore::new(alloc, &request).expect(rt, "memory")
}

/// Does an event.
fn step<R: Abort>(rt: &R, alloc: Global, core: &mut SubCore, event: Event) {
    core.step(made(rt, alloc, event)).expect(rt, "memory");
}

/// The tasks of this direction are those of the row.
fn has_put<R: Abort>(rt: &R, core: &SubCore, direction: Direction, expected: &[Part]) {
    let put = core.put(direction);
    assert_eq!(rt; put.len(), expected.len());
    for (task, part) in put.iter().zip(expected.iter()) {
        assert!(rt; is(task, *part), "{part:?}");
    }
}
