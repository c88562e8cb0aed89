//! Replies as tasks, by example.
use bytes::Bytes;
use h1_error::{Error, ErrorType};
use h1_fields::Fields;
use h1_head::{HttpTask, http_502_response};
use std::alloc::Global;
use std::marker::Model;
use std::process::Abort;

/// A task, of which contracts see nothing.
#[derive(Drop)]
struct Handed {
    task: HttpTask,
}

impl Model for Handed {
    ghost Value = { Unit {0} };

    ghost view = { λ _. tt };
}

fn header(rt: &impl Abort, alloc: Global, end: bool) -> Handed {
    let head = http_502_response(alloc).expect(rt, "memory");
    Handed {
        task: HttpTask::Header(head, end),
    }
}

fn body(end: bool) -> Handed {
    let piece = Bytes::from_static(b"abc");
    Handed {
        task: HttpTask::Body(Some(piece), end),
    }
}

/// A body without a piece.
fn bare(end: bool) -> Handed {
    Handed {
        task: HttpTask::Body(None, end),
    }
}

fn upgraded(end: bool) -> Handed {
    let piece = Bytes::from_static(b"de");
    Handed {
        task: HttpTask::UpgradedBody(Some(piece), end),
    }
}

fn trailer(rt: &impl Abort, alloc: Global) -> Handed {
    let mut fields = Fields::new(alloc);
    fields.append(b"A", b"1").expect(rt, "memory");
    Handed {
        task: HttpTask::Trailer(Some(fields)),
    }
}

fn no_trailer() -> Handed {
    Handed {
        task: HttpTask::Trailer(None),
    }
}

fn done() -> Handed {
    Handed {
        task: HttpTask::Done,
    }
}

fn failed() -> Handed {
    Handed {
        task: HttpTask::Failed(Error::from(ErrorType::ReadError)),
    }
}

fn copy(rt: &impl Abort, handed: &Handed) -> Handed {
    let task = handed.task.copy().expect(rt, "memory");
    Handed { task }
}

fn kind(handed: &Handed) -> &'static str {
    handed.task.type_str()
}

fn is_end(handed: &Handed) -> bool {
    handed.task.is_end()
}

/// The piece of a body, where there is one.
fn piece(handed: &Handed) -> Option<&[u8]> {
    match &handed.task {
        HttpTask::Body(Some(piece), _) | HttpTask::UpgradedBody(Some(piece), _) => {
            Some(piece.as_slice())
        }
        _ => None,
    }
}

/// How many lines a header or a trailer has.
fn count_lines(handed: &Handed) -> Option<usize> {
    match &handed.task {
        HttpTask::Header(head, _) => Some(head.fields().len()),
        HttpTask::Trailer(Some(fields)) => Some(fields.len()),
        _ => None,
    }
}

/// A task and its copy are of this kind, and end a reply or don't.
fn judge(rt: &impl Abort, handed: &Handed, name: &str, end: bool) {
    assert_eq!(rt; kind(handed), name);
    assert_eq!(rt; is_end(handed), end, "{name}");
    let copy = copy(rt, handed);
    assert_eq!(rt; kind(&copy), name);
    assert_eq!(rt; is_end(&copy), end, "{name}");
}

#[test]
fn a_task_has_a_kind_and_an_end(rt: HostRuntime) {
    for end in [false, true] {
        judge(&rt, &header(&rt, rt.alloc(), end), "Header", end);
        judge(&rt, &body(end), "Body", end);
        judge(&rt, &bare(end), "Body", end);
        judge(&rt, &upgraded(end), "UpgradedBody", end);
    }
    judge(&rt, &trailer(&rt, rt.alloc()), "Trailer", true);
    judge(&rt, &no_trailer(), "Trailer", true);
    judge(&rt, &done(), "Done", true);
    judge(&rt, &failed(), "Failed", true);
}

/// A copy of the task has this piece, or none where that is empty.
fn copies_piece(rt: &impl Abort, handed: &Handed, expected: &[u8]) {
    let copy = copy(rt, handed);
    let piece = piece(&copy).unwrap_or(b"".as_slice());
    assert!(rt; piece == expected, "{piece:?} {expected:?}");
}

/// A copy of the task has so many lines, where a task of its kind can have any.
fn copies_lines(rt: &impl Abort, handed: &Handed, expected: Option<usize>) {
    let copy = copy(rt, handed);
    assert_eq!(rt; count_lines(&copy), expected);
}

#[test]
fn a_copy_of_a_task_has_the_same_parts(rt: HostRuntime) {
    copies_piece(&rt, &body(true), b"abc");
    copies_piece(&rt, &upgraded(false), b"de");
    copies_piece(&rt, &bare(true), b"");
    copies_lines(&rt, &header(&rt, rt.alloc(), false), Some(4));
    copies_lines(&rt, &trailer(&rt, rt.alloc()), Some(1));
    copies_lines(&rt, &no_trailer(), None);
}
