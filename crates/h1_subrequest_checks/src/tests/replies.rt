//! What a session takes and puts, over two rings whose other ends are played.
use super::{Part, is as is_task, is_piece, piece, task};
use bytes::Bytes;
use futures::task::Poll;
use h1_error::{Error, ErrorType, TaskKind};
use h1_head::{Fields, HttpTask, ResponseHeader};
use h1_rings::{PutStep, RingRx, RingTx, TakeStep, TaskRx, TaskTx, ring};
use h1_subrequest::HttpSession;
use std::alloc::Global;
use std::marker::Model;
use std::process::Abort;
use std::sync::Wait;
use std::test::*;

/// What is done by the session or by its handle.
#[derive(Clone, Copy, Debug)]
enum Act {
    /// The handle puts a task, takes one, or goes.
    Send(Part),
    Collect(Part),
    Leave,
    /// The session puts this header, or the one that it kept.
    Head(Part),
    HeadAgain,
    /// The session puts a piece, or the one that it kept.
    Write(&'static str),
    WriteAgain,
    Finish,
    Trailers,
    Read,
}

/// What it answers.
#[derive(Clone, Copy, Debug)]
enum Told {
    Fine,
    Count(usize),
    Nothing,
    Piece(&'static str),
    Refused(ErrorType),
    Waits,
}

/// A session, the ends of its handle, and what the session keeps. Contracts see nothing of it but
/// that its end isn't closed.
#[derive(Drop)]
struct Sides<W: Wait + Drop> {
    session: HttpSession<RingTx<W>, RingRx<W>, W>,
    tx: RingTx<W>,
    rx: RingRx<W>,
    header: Option<ResponseHeader>,
    piece: Option<Bytes>,
}

impl<W: Wait + Drop> Model for Sides<W> {
    ghost use Rattle.std.specs.Prelude.{◌≡◌, false};
    ghost use Rattle.std.specs.Option.{is_some};

    ghost Value = { Unit {0} };

    ghost view = { λ _. tt };

    ghost invariant = { λ s. is_some s.tx.closed ≡ false };
}

fn told_count(answer: Poll<Result<Option<usize>, Error>>) -> Told {
    match answer {
        Poll::Ready(Ok(Some(count))) => Told::Count(count),
        Poll::Ready(Ok(None)) => Told::Nothing,
        Poll::Ready(Err(error)) => Told::Refused(error.kind),
        Poll::Pending => Told::Waits,
    }
}

fn told_fine(answer: Poll<Result<(), Error>>) -> Told {
    match answer {
        Poll::Ready(Ok(())) => Told::Fine,
        Poll::Ready(Err(error)) => Told::Refused(error.kind),
        Poll::Pending => Told::Waits,
    }
}

fn same(told: &Told, expected: Told) -> bool {
    match (*told, expected) {
        (Told::Fine, Told::Fine) => true,
        (Told::Nothing, Told::Nothing) => true,
        (Told::Waits, Told::Waits) => true,
        (Told::Count(a), Told::Count(b)) => a == b,
        (Told::Piece(a), Told::Piece(b)) => a == b,
        (Told::Refused(a), Told::Refused(b)) => a == b,
        _ => false,
    }
}

impl<W: Wait + Drop> Sides<W> {
    fn send(&mut self, task: HttpTask) -> Told {
        match TaskTx::put(&mut self.tx, task) {
            PutStep::Put => Told::Fine,
            PutStep::Full(_) => Told::Waits,
            PutStep::Gone(_) => Told::Refused(ErrorType::WriteError),
        }
    }

    /// The task in front is this one.
    fn collect(&mut self, part: Part) -> Told {
        match TaskRx::take(&mut self.rx) {
            TakeStep::Task(task) if is_task(&task, part) => Told::Fine,
            _ => Told::Nothing,
        }
    }

    fn leave(&mut self) -> Told {
        TaskRx::close(&mut self.rx);
        Told::Fine
    }

    /// Puts the header that is kept.
    fn head(&mut self) -> Told {
        if self.session.is_shut() || !self.session.has_request() || self.header.is_none() {
            return Told::Nothing;
        }
        told_fine(self.session.poll_write_response_header(&mut self.header, 0))
    }

    /// Puts the piece that is kept.
    fn write(&mut self) -> Told {
        if self.session.is_shut() || !self.session.is_headed() || self.piece.is_none() {
            return Told::Nothing;
        }
        told_count(self.session.poll_write_body(&mut self.piece, 0))
    }

    fn finish(&mut self) -> Told {
        if self.session.is_shut() || !self.session.has_request() {
            return Told::Nothing;
        }
        told_count(self.session.poll_finish(0))
    }

    fn trailers(&mut self, fields: Fields) -> Told {
        if self.session.is_shut() {
            return Told::Nothing;
        }
        let mut fields = Some(fields);
        told_fine(self.session.poll_write_trailers(&mut fields, 0))
    }

    /// What a read answers; where it hands out this piece, so that it does.
    fn read(&mut self, text: &'static str) -> Told {
        if self.session.is_shut() || !self.session.has_request() {
            return Told::Nothing;
        }
        match self.session.poll_read_body_bytes(0) {
            Poll::Ready(Ok(None)) => Told::Nothing,
            Poll::Ready(Ok(piece)) if is_piece(&piece, text) => Told::Piece(text),
            Poll::Ready(Ok(Some(_))) => Told::Piece("?"),
            Poll::Ready(Err(error)) => Told::Refused(error.kind),
            Poll::Pending => Told::Waits,
        }
    }
}

/// A session whose head was read, and its handle.
fn make_sides<R: Abort + Wait + Clone + Drop>(rt: &R, alloc: Global, head: &str) -> Sides<R> {
    let (session_tx, rx) = ring(rt, alloc).expect(rt, "memory");
    let (tx, session_rx) = ring(rt, alloc).expect(rt, "memory");
    let mut session = HttpSession::with_ends(
        alloc,
        head.as_bytes(),
        session_tx,
        session_rx,
        None,
        None,
    ).expect(rt, "memory");
    if !session.has_request() {
        let _ = session.poll_read_request(0);
    }
    Sides {
        session,
        tx,
        rx,
        header: None,
        piece: None,
    }
}

fn header_in(task: HttpTask) -> Option<ResponseHeader> {
    match task {
        HttpTask::Header(header, _) => Some(header),
        _ => None,
    }
}

fn does<R: Abort + Wait + Drop>(
    rt: &R,
    alloc: Global,
    sides: &mut Sides<R>,
    act: Act,
    expected: Told,
) -> Told {
    match act {
        Act::Send(part) => sides.send(task(rt, alloc, part)),
        Act::Collect(part) => sides.collect(part),
        Act::Leave => sides.leave(),
        Act::Head(part) => {
            sides.header = header_in(task(rt, alloc, part));
            sides.head()
        }
        Act::HeadAgain => sides.head(),
        Act::Write(text) => {
            sides.piece = piece(rt, alloc, text);
            sides.write()
        }
        Act::WriteAgain => sides.write(),
        Act::Finish => sides.finish(),
        Act::Trailers => sides.trailers(Fields::new(alloc)),
        Act::Read => match expected {
            Told::Piece(text) => sides.read(text),
            _ => sides.read("?"),
        },
    }
}

/// Does what a row says with a new session of this head. Each answers what the row says.
fn goes<R: Abort + Wait + Clone + Drop>(rt: &R, alloc: Global, head: &str, row: &[(Act, Told)]) {
    let mut sides = make_sides(rt, alloc, head);
    for (place, (act, expected)) in row.iter().enumerate() {
        let told = does(rt, alloc, &mut sides, *act, *expected);
        assert!(rt; same(&told, *expected), "{place} {act:?} {told:?}");
    }
}

const GET: &str = "GET / HTTP/1.1\r\nHost: a\r\n\r\n";

const POST: &str = "POST / HTTP/1.1\r\nHost: a\r\nContent-Length: 3\r\n\r\n";

const UPGRADE: &str = "GET / HTTP/1.1\r\nHost: a\r\nUpgrade: b\r\n\r\n";

#[test]
fn a_response_is_put_up_to_the_length_of_its_header(rt: HostRuntime) {
    let sized = Part::Sized(200, "3");
    goes(
        &rt,
        rt.alloc(),
        GET,
        &[
            (Act::Finish, Told::Nothing),
            (Act::Head(Part::Status(100)), Told::Fine),
            (Act::Head(sized), Told::Fine),
            (Act::Head(Part::Status(404)), Told::Fine),
            (Act::Write("ab"), Told::Count(2)),
            (Act::Collect(Part::Status(100)), Told::Fine),
            (Act::Collect(sized), Told::Fine),
            (Act::Write("cd"), Told::Count(1)),
            (Act::Write("e"), Told::Nothing),
            (Act::Finish, Told::Count(3)),
            (Act::Finish, Told::Nothing),
            (Act::Collect(Part::Body("ab", false)), Told::Fine),
            (Act::Collect(Part::Body("c", false)), Told::Fine),
            (Act::Collect(Part::Done), Told::Fine),
            (Act::Collect(Part::Done), Told::Nothing),
        ],
    );
}

#[test]
fn a_header_and_a_piece_stay_where_the_ring_is_full(rt: HostRuntime) {
    goes(
        &rt,
        rt.alloc(),
        GET,
        &[
            (Act::Trailers, Told::Fine),
            (Act::Trailers, Told::Fine),
            (Act::Trailers, Told::Fine),
            (Act::Trailers, Told::Fine),
            (Act::Trailers, Told::Waits),
            (Act::Head(Part::Sized(200, "1")), Told::Waits),
            (Act::HeadAgain, Told::Waits),
            (Act::Collect(Part::Trailer), Told::Fine),
            (Act::HeadAgain, Told::Fine),
            (Act::Write("ab"), Told::Waits),
            (Act::Collect(Part::Trailer), Told::Fine),
            (Act::WriteAgain, Told::Count(1)),
            (Act::Finish, Told::Waits),
            (Act::Collect(Part::Trailer), Told::Fine),
            (Act::Finish, Told::Count(1)),
            (Act::Collect(Part::Trailer), Told::Fine),
            (Act::Collect(Part::Sized(200, "1")), Told::Fine),
            (Act::Collect(Part::Body("a", false)), Told::Fine),
            (Act::Collect(Part::Done), Told::Fine),
        ],
    );
}

#[test]
fn a_receiver_that_is_gone_fails_each_later_write(rt: HostRuntime) {
    let failed = Told::Refused(ErrorType::WriteError);
    goes(
        &rt,
        rt.alloc(),
        GET,
        &[
            (Act::Head(Part::Status(200)), Told::Fine),
            (Act::Leave, Told::Fine),
            (Act::Write("a"), failed),
            (Act::Finish, failed),
            (Act::Trailers, failed),
            (Act::Head(Part::Status(200)), failed),
            (Act::Collect(Part::Status(200)), Told::Fine),
            (Act::Collect(Part::Done), Told::Nothing),
        ],
    );
}

#[test]
fn a_body_that_ends_too_early_is_refused_once(rt: HostRuntime) {
    goes(
        &rt,
        rt.alloc(),
        GET,
        &[
            (Act::Head(Part::Sized(200, "3")), Told::Fine),
            (Act::Write("a"), Told::Count(1)),
            (Act::Finish, Told::Refused(ErrorType::PrematureBodyEnd)),
            (Act::Finish, Told::Nothing),
        ],
    );
}

#[test]
fn a_body_is_read_to_its_length_and_a_refusal_comes_again(rt: HostRuntime) {
    let unexpected = Told::Refused(ErrorType::UnexpectedTask(TaskKind::Done));
    goes(
        &rt,
        rt.alloc(),
        POST,
        &[
            (Act::Read, Told::Waits),
            (Act::Send(Part::Body("ab", false)), Told::Fine),
            (Act::Send(Part::Body("cd", false)), Told::Fine),
            (Act::Read, Told::Piece("ab")),
            (Act::Read, Told::Piece("c")),
            (Act::Read, Told::Nothing),
        ],
    );
    goes(
        &rt,
        rt.alloc(),
        POST,
        &[
            (Act::Send(Part::Done), Told::Fine),
            (Act::Send(Part::Body("abc", false)), Told::Fine),
            (Act::Read, unexpected),
            (Act::Read, unexpected),
        ],
    );
}

#[test]
fn a_change_of_protocol_opens_both_bodies(rt: HostRuntime) {
    goes(
        &rt,
        rt.alloc(),
        UPGRADE,
        &[
            (Act::Read, Told::Nothing),
            (Act::Head(Part::Status(101)), Told::Fine),
            (Act::Head(Part::Status(200)), Told::Fine),
            (Act::Send(Part::Body("ab", false)), Told::Fine),
            (Act::Read, Told::Piece("ab")),
            (Act::Read, Told::Waits),
            (Act::Write("cd"), Told::Count(2)),
            (Act::Finish, Told::Count(2)),
            (Act::Read, Told::Nothing),
            (Act::Collect(Part::Status(101)), Told::Fine),
            (Act::Collect(Part::Body("cd", false)), Told::Fine),
            (Act::Collect(Part::Done), Told::Fine),
        ],
    );
}
