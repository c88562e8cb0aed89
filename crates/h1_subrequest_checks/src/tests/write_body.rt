//! A writer of a body over an end in memory.
ghost use Rattle.std.specs.Prelude.{◌≡◌, false};

use super::{Part, is as is_task, piece};
use bytes::Bytes;
use futures::task::Poll;
use h1_error::{Error, ErrorType};
use h1_head::HttpTask;
use h1_rings::ListTx;
use h1_subrequest::{BodyMode, BodyWriter};
use std::alloc::Global;
use std::process::Abort;
use std::test::*;

/// What is done with a writer and its end.
#[derive(Clone, Copy, Debug)]
enum Act {
    /// Writes a piece.
    Write(&'static str),
    /// Writes the piece that is kept.
    Again,
    Finish,
    Trailers,
    /// The receiver takes the task in front, which is this one.
    Collect(Part),
    /// The receiver is closed.
    Leave,
}

/// What it answers.
#[derive(Clone, Copy, Debug, PartialEq, Eq)]
enum Told {
    Count(usize),
    Nothing,
    Refused(ErrorType),
    Waits,
}

/// A writer, its end, and the piece that it keeps.
#[derive(Drop)]
struct Writing {
    writer: BodyWriter,
    tx: ListTx,
    kept: Option<Bytes>,
    pub ghost opened: { tx.closed ≡ false },
}

fn answer_of(answer: Poll<Result<Option<usize>, Error>>) -> Told {
    match answer {
        Poll::Ready(Ok(Some(count))) => Told::Count(count),
        Poll::Ready(Ok(None)) => Told::Nothing,
        Poll::Ready(Err(error)) => Told::Refused(error.kind),
        Poll::Pending => Told::Waits,
    }
}

impl Writing {
    /// A writer of a body of this length, or of one that its end ends.
    fn new(length: Option<usize>) -> Writing {
        let mut writer = BodyWriter::new();
        match length {
            Some(n) => writer.init_content_length(n),
            None => writer.init_close_delimited(),
        }
        Writing {
            writer,
            tx: ListTx::new(),
            kept: None,
        }
    }

    /// Writes the piece that is kept. Without one, or where the writer isn't set, nothing is asked.
    fn write(&mut self) -> Told {
        match self.writer.body_mode {
            BodyMode::ToSelect => return Told::Nothing,
            _ => {}
        }
        if self.kept.is_none() {
            return Told::Nothing;
        }
        answer_of(self.writer.poll_write_body(&mut self.tx, &mut self.kept))
    }

    fn finish(&mut self) -> Told {
        answer_of(self.writer.poll_finish(&mut self.tx))
    }

    fn trailers(&mut self) -> Told {
        let mut trailer = Some(HttpTask::Trailer(None));
        match self.writer.poll_write_trailers(&mut self.tx, &mut trailer) {
            Poll::Ready(Ok(())) => Told::Count(0),
            Poll::Ready(Err(error)) => Told::Refused(error.kind),
            Poll::Pending => Told::Waits,
        }
    }

    fn collect(&mut self, part: Part) -> Told {
        match self.tx.pop() {
            Some(task) if is_task(&task, part) => Told::Count(0),
            _ => Told::Nothing,
        }
    }

    fn leave(&mut self) -> Told {
        self.tx.set_gone();
        Told::Nothing
    }
}

fn does<R: Abort>(rt: &R, alloc: Global, writing: &mut Writing, act: Act) -> Told {
    match act {
        Act::Write(text) => {
            writing.kept = piece(rt, alloc, text);
            writing.write()
        }
        Act::Again => writing.write(),
        Act::Finish => writing.finish(),
        Act::Trailers => writing.trailers(),
        Act::Collect(part) => writing.collect(part),
        Act::Leave => writing.leave(),
    }
}

/// Does what a row says with a new writer. Each answers what the row says.
fn goes<R: Abort>(rt: &R, alloc: Global, length: Option<usize>, row: &[(Act, Told)]) {
    let mut writing = Writing::new(length);
    for (next, expected) in row {
        let told = does(rt, alloc, &mut writing, *next);
        assert_eq!(rt; told, *expected, "{next:?}");
    }
}

const A: Part = Part::Body("a", false);

#[test]
fn a_body_of_stated_length_is_put_up_to_it(rt: HostRuntime) {
    goes(
        &rt,
        rt.alloc(),
        Some(1),
        &[
            (Act::Write("a"), Told::Count(1)),
            (Act::Write("a"), Told::Nothing),
            (Act::Finish, Told::Count(1)),
            (Act::Finish, Told::Nothing),
            (Act::Write("a"), Told::Nothing),
            (Act::Collect(A), Told::Count(0)),
            (Act::Collect(Part::Done), Told::Count(0)),
            (Act::Collect(A), Told::Nothing),
        ],
    );
    goes(
        &rt,
        rt.alloc(),
        Some(2),
        &[
            (Act::Write("abc"), Told::Count(2)),
            (Act::Collect(Part::Body("ab", false)), Told::Count(0)),
        ],
    );
}

#[test]
fn a_short_body_is_refused_once(rt: HostRuntime) {
    goes(
        &rt,
        rt.alloc(),
        Some(3),
        &[
            (Act::Write("a"), Told::Count(1)),
            (Act::Finish, Told::Refused(ErrorType::PrematureBodyEnd)),
            (Act::Finish, Told::Nothing),
            (Act::Collect(A), Told::Count(0)),
            (Act::Collect(Part::Done), Told::Nothing),
        ],
    );
}

#[test]
fn a_piece_is_kept_while_the_ring_is_full(rt: HostRuntime) {
    goes(
        &rt,
        rt.alloc(),
        Some(6),
        &[
            (Act::Write("a"), Told::Count(1)),
            (Act::Write("a"), Told::Count(1)),
            (Act::Write("a"), Told::Count(1)),
            (Act::Trailers, Told::Count(0)),
            (Act::Write("abcd"), Told::Waits),
            (Act::Again, Told::Waits),
            (Act::Collect(A), Told::Count(0)),
            (Act::Again, Told::Count(3)),
            (Act::Finish, Told::Waits),
            (Act::Collect(A), Told::Count(0)),
            (Act::Finish, Told::Count(6)),
            (Act::Collect(A), Told::Count(0)),
            (Act::Collect(Part::Trailer), Told::Count(0)),
            (Act::Collect(Part::Body("abc", false)), Told::Count(0)),
            (Act::Collect(Part::Done), Told::Count(0)),
        ],
    );
}

#[test]
fn a_write_to_a_receiver_that_is_closed_fails(rt: HostRuntime) {
    let failed = Told::Refused(ErrorType::WriteError);
    goes(
        &rt,
        rt.alloc(),
        None,
        &[
            (Act::Write("ab"), Told::Count(2)),
            (Act::Leave, Told::Nothing),
            (Act::Write("ab"), failed),
            (Act::Trailers, failed),
            (Act::Finish, failed),
            (Act::Collect(Part::Body("ab", false)), Told::Count(0)),
        ],
    );
}
