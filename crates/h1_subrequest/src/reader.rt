//! Reads the body of a subrequest's request from a ring of tasks.
ghost use Rattle.std.specs.Prelude.{◌≡◌, Err, None, false, true};
ghost use Rattle.h1_subrequest.specs.Reading.{converted, counted_reader};
ghost use Rattle.h1_subrequest.specs.ReadBody as spec;
ghost use Rattle.h1_subrequest.specs.ReadBody.{ReadBy, ReadLive};
ghost use Rattle.h1_subrequest.specs.declared.parse_state.ParseState.TheVariants.{Complete, ToStart, UntilClose};

use crate::ParseState;
use crate::writer::PREMATURE_BODY_END;
use bytes::Bytes;
use futures::task::Poll;
use h1_error::{Error, ErrorType, TaskKind};
use h1_head::HttpTask;
use h1_rings::{OnceTx, TakeStep, TaskRx};
use std::sync::Wait;

/// Reads one body. Its calls may wait for another thread while the notice is sent.
#[derive(Drop)]
pub struct BodyReader<W: Wait + Drop> {
    /// How far the body is read.
    pub body_state: ParseState,
    notify: Option<OnceTx<(), W>>,
}

impl<W: Wait + Drop> BodyReader<W> {
    /// A reader of which it isn't known yet how its body ends. The first read sends the notice.
    pub fn new(notify: Option<OnceTx<(), W>>) -> Self
        ensures { result ≡ record { body_state = ToStart; notify = notify } }
    {
        BodyReader {
            body_state: ParseState::ToStart,
            notify,
        }
    }

    /// Whether it isn't known yet how the body ends.
    pub fn need_init(&self) -> bool
        ensures { result ≡ spec.is_unset self.now.body_state }
    {
        matches!(self.body_state, ParseState::ToStart)
    }

    /// The body has so many bytes.
    pub fn init_content_length(&mut self, n: usize)
        ensures { self.new ≡ record self.old { body_state = counted_reader n } }
    {
        self.body_state = ParseState::of_length(n);
    }

    /// The body ends where its sender does.
    pub fn init_close_delimited(&mut self)
        ensures { self.new ≡ record self.old { body_state = UntilClose 0 } }
    {
        self.body_state = ParseState::UntilClose(0);
    }

    /// From here on the body ends where its sender does. The count begins anew, unless it ended so
    /// before.
    pub fn convert_to_close_delimited(&mut self)
        ensures { self.new ≡ record self.old { body_state = converted self.old.body_state } }
    {
        self.body_state = self.body_state.converted();
    }

    /// Whether no more comes.
    pub fn body_done(&self) -> bool
        ensures { result ≡ spec.is_over self.now.body_state }
    {
        matches!(
            self.body_state,
            ParseState::Complete(_) | ParseState::Done(_)
        )
    }

    /// Whether the body was read to its end and has no byte.
    pub fn body_empty(&self) -> bool
        ensures { result ≡ spec.is_empty self.now.body_state }
    {
        matches!(self.body_state, ParseState::Complete(0))
    }

    /// The next piece of the body, or None where no more comes. It is to be repeated where no task
    /// was there.
    pub fn poll_read_body<R: TaskRx>(&mut self, rx: &mut R) -> Poll<Result<Option<Bytes>, Error>>
        requires set { spec.is_unset self.old.body_state ≡ false }
        ensures read { ReadBy R.takes (R.was_empty rx.old rx.new) (R.was_ended rx.old rx.new)
            rx.old rx.new self.old.body_state self.new.body_state result }
        ensures told { self.new.notify ≡ None }
        ensures set { spec.is_unset self.new.body_state ≡ false }
        ensures same { R.is_closed rx.new ≡ R.is_closed rx.old }
    {
        self.tell();
        if !is_live(self.body_state) {
            return Poll::Ready(Ok(None));
        }
        self.take_task(rx)
    }

    /// The same of a body of stated length that goes on.
    pub fn poll_do_read_body<R: TaskRx>(&mut self, rx: &mut R) -> Poll<Result<Option<Bytes>, Error>>
        requires { spec.is_partial self.old.body_state ≡ true }
        ensures read { ReadLive R.takes (R.was_empty rx.old rx.new) (R.was_ended rx.old rx.new)
            rx.old rx.new self.old.body_state self.new.body_state result }
        ensures told { self.new.notify ≡ None }
        ensures same { R.is_closed rx.new ≡ R.is_closed rx.old }
    {
        self.tell();
        self.take_task(rx)
    }

    /// The same of a body that goes on and that its sender's end ends.
    pub fn poll_do_read_body_until_closed<R: TaskRx>(
        &mut self,
        rx: &mut R,
    ) -> Poll<Result<Option<Bytes>, Error>>
        requires { spec.is_until_close self.old.body_state ≡ true }
        ensures read { ReadLive R.takes (R.was_empty rx.old rx.new) (R.was_ended rx.old rx.new)
            rx.old rx.new self.old.body_state self.new.body_state result }
        ensures told { self.new.notify ≡ None }
        ensures same { R.is_closed rx.new ≡ R.is_closed rx.old }
    {
        self.tell();
        self.take_task(rx)
    }

    /// Sends the notice, if there is one that wasn't sent.
    fn tell(&mut self)
        ensures { self.new ≡ record self.old { notify = None } }
    {
        if let Some(notify) = self.notify.take() {
            notify.send(());
        }
    }

    /// Takes a task of a body that goes on.
    fn take_task<R: TaskRx>(&mut self, rx: &mut R) -> Poll<Result<Option<Bytes>, Error>>
        requires { spec.is_live self.old.body_state ≡ true }
        ensures read { ReadLive R.takes (R.was_empty rx.old rx.new) (R.was_ended rx.old rx.new)
            rx.old rx.new self.old.body_state self.new.body_state result }
        ensures notify { self.new.notify ≡ self.old.notify }
        ensures same { R.is_closed rx.new ≡ R.is_closed rx.old }
    {
        let state = self.body_state;
        match rx.take() {
            TakeStep::Task(task) => {
                self.body_state = state.behind(&task);
                Poll::Ready(answer(state, task))
            }
            TakeStep::Ended => {
                self.body_state = state.ended();
                Poll::Ready(end_answer(state))
            }
            TakeStep::Empty => Poll::Pending,
        }
    }
}

/// Whether the body goes on.
fn is_live(state: ParseState) -> bool
    ensures { result ≡ spec.is_live state }
{
    matches!(state, ParseState::Partial(_, _) | ParseState::UntilClose(_))
}

/// What a task gives to a body that goes on.
fn answer(state: ParseState, task: HttpTask) -> Result<Option<Bytes>, Error>
    requires { spec.is_live state ≡ true }
    ensures { result ≡ spec.answer state task }
{
    match task {
        HttpTask::Body(piece, end) => body_answer(state, piece, end),
        other => Err(Error::from(ErrorType::UnexpectedTask(kind_of(&other)))),
    }
}

fn body_answer(state: ParseState, piece: Option<Bytes>, end: bool) -> Result<Option<Bytes>, Error>
    requires { spec.is_live state ≡ true }
    ensures { result ≡ spec.body_answer state piece end }
{
    match state {
        ParseState::Partial(_, left) => part_answer(left, piece, end),
        _ => Ok(piece),
    }
}

fn part_answer(left: usize, piece: Option<Bytes>, end: bool) -> Result<Option<Bytes>, Error>
    ensures { result ≡ spec.part_answer left piece end }
{
    let Some(mut piece) = piece else {
        return Err(Error::from(ErrorType::ConnectionClosed));
    };
    if piece.len() >= left {
        piece.truncate(left);
        Ok(Some(piece))
    } else if end {
        Err(Error::from(PREMATURE_BODY_END))
    } else {
        Ok(Some(piece))
    }
}

/// What the sender's end gives to a body that goes on.
fn end_answer(state: ParseState) -> Result<Option<Bytes>, Error>
    requires { spec.is_live state ≡ true }
    ensures { result ≡ spec.end_answer state }
{
    match state {
        ParseState::Partial(_, _) => Err(Error::from(ErrorType::ConnectionClosed)),
        _ => Ok(None),
    }
}

fn kind_of(task: &HttpTask) -> TaskKind
    ensures { result ≡ spec.kind_of task.now }
{
    match task {
        HttpTask::Header(_, _) => TaskKind::Header,
        HttpTask::Body(_, _) => TaskKind::Body,
        HttpTask::UpgradedBody(_, _) => TaskKind::UpgradedBody,
        HttpTask::Trailer(_) => TaskKind::Trailer,
        HttpTask::Done => TaskKind::Done,
        HttpTask::Failed(_) => TaskKind::Failed,
    }
}
