//! Writes the body of a subrequest's response into a ring of tasks.
ghost use Rattle.std.specs.Prelude.{◌≡◌, IsSome, None, Some, Ok, Err, false, true};
ghost use Rattle.h1_subrequest.specs.WriteBody as spec;
ghost use Rattle.h1_subrequest.specs.WriteBody.{EndsBody, IsTrailer, WritesPiece, WritesTask};
ghost use Rattle.h1_subrequest.specs.Writing.{done_passing};
ghost use Rattle.h1_subrequest.specs.declared.body_mode.BodyMode.TheVariants.{ContentLength, ToSelect, UntilClose};

use crate::BodyMode;
use crate::passing::Passing;
use bytes::Bytes;
use futures::task::Poll;
use h1_error::{Error, ErrorType};
use h1_head::HttpTask;
use h1_rings::{PutStep, TaskTx};

/// A body ended before its length was reached.
pub const PREMATURE_BODY_END: ErrorType = ErrorType::PrematureBodyEnd;

/// Writes one body.
#[derive(Debug, Drop)]
pub struct BodyWriter {
    /// How far the body is written.
    pub body_mode: BodyMode,
}

impl BodyWriter {
    /// A writer of which it isn't known yet how its body ends.
    pub fn new() -> Self
        ensures { result.body_mode ≡ ToSelect }
    {
        BodyWriter {
            body_mode: BodyMode::ToSelect,
        }
    }

    /// The end of the sender ends the body.
    pub fn init_close_delimited(&mut self)
        ensures { self.new.body_mode ≡ UntilClose 0 }
    {
        self.body_mode = BodyMode::UntilClose(0);
    }

    /// The body has so many bytes.
    pub fn init_content_length(&mut self, n: usize)
        ensures { self.new.body_mode ≡ ContentLength n 0 }
    {
        self.body_mode = BodyMode::ContentLength(n, 0);
    }

    /// Whether the body was ended, or all of its length was put.
    pub fn finished(&self) -> bool
        ensures { result ≡ spec.is_finished self.now.body_mode }
    {
        match self.body_mode {
            BodyMode::Complete(_) => true,
            BodyMode::ContentLength(n, count) => n <= count,
            BodyMode::ToSelect | BodyMode::UntilClose(_) => false,
        }
    }

    /// Puts what passes of the piece, and answers how many bytes these are; None where nothing of
    /// it passes. The piece is taken out then. Where the ring is full it stays, cut to the length.
    pub fn poll_write_body<X: TaskTx>(
        &mut self,
        tx: &mut X,
        piece: &mut Option<Bytes>,
    ) -> Poll<Result<Option<usize>, Error>>
        requires set { spec.is_unset self.old.body_mode ≡ false }
        requires piece { IsSome piece.old }
        requires opened { X.is_closed tx.old ≡ false }
        ensures write { WritesPiece X.puts (X.was_full tx.old tx.new) (X.was_gone tx.old tx.new)
            tx.old tx.new self.old.body_mode self.new.body_mode piece.old piece.new result }
        ensures set { spec.is_unset self.new.body_mode ≡ false }
        ensures opened { X.is_closed tx.new ≡ false }
    {
        let Some(whole) = piece.take() else {
            return Poll::Ready(Ok(None));
        };
        let Some((part, mode)) = self.body_mode.cut(whole) else {
            return Poll::Ready(Ok(None));
        };
        let len = part.len();
        match tx.put(HttpTask::Body(Some(part), false)) {
            PutStep::Put => {
                self.body_mode = mode;
                Poll::Ready(Ok(Some(len)))
            }
            PutStep::Full(task) => {
                *piece = piece_in(task);
                Poll::Pending
            }
            PutStep::Gone(_) => Poll::Ready(Err(Error::from(ErrorType::WriteError))),
        }
    }

    /// Puts the end, and answers how many bytes of payload the body has; None where no body was
    /// begun or it was ended before. A body that is short of its length is refused, and complete.
    pub fn poll_finish<X: TaskTx>(&mut self, tx: &mut X) -> Poll<Result<Option<usize>, Error>>
        requires opened { X.is_closed tx.old ≡ false }
        ensures write { EndsBody X.puts (X.was_full tx.old tx.new) (X.was_gone tx.old tx.new)
            tx.old tx.new self.old.body_mode self.new.body_mode (done_passing self.old.body_mode)
            result }
        ensures opened { X.is_closed tx.new ≡ false }
    {
        let before = self.body_mode;
        match before.done() {
            Passing::Drops(mode) => {
                self.body_mode = mode;
                Poll::Ready(dropped(before))
            }
            Passing::Passes(task, mode) => match tx.put(task) {
                PutStep::Put => {
                    self.body_mode = mode;
                    Poll::Ready(Ok(Some(written(mode))))
                }
                PutStep::Full(_) => Poll::Pending,
                PutStep::Gone(_) => Poll::Ready(Err(Error::from(ErrorType::WriteError))),
            },
        }
    }

    /// Puts the trailer task, which is taken out then. Where the ring is full it stays.
    pub fn poll_write_trailers<X: TaskTx>(
        &mut self,
        tx: &mut X,
        trailer: &mut Option<HttpTask>,
    ) -> Poll<Result<(), Error>>
        requires trailer { IsTrailer trailer.old }
        requires opened { X.is_closed tx.old ≡ false }
        ensures write { WritesTask X.puts (X.was_full tx.old tx.new) (X.was_gone tx.old tx.new)
            tx.old tx.new trailer.old trailer.new result }
        ensures opened { X.is_closed tx.new ≡ false }
        ensures same { self.new ≡ self.old }
    {
        let Some(task) = trailer.take() else {
            return Poll::Ready(Ok(()));
        };
        match tx.put(task) {
            PutStep::Put => Poll::Ready(Ok(())),
            PutStep::Full(task) => {
                *trailer = Some(task);
                Poll::Pending
            }
            PutStep::Gone(_) => Poll::Ready(Err(Error::from(ErrorType::WriteError))),
        }
    }
}

/// The payload in a body task.
fn piece_in(task: HttpTask) -> Option<Bytes>
    ensures { result ≡ spec.piece_in task }
{
    match task {
        HttpTask::Body(piece, _) => piece,
        _ => None,
    }
}

/// The answer where an end is dropped.
fn dropped(mode: BodyMode) -> Result<Option<usize>, Error>
    ensures { result ≡ spec.dropped mode }
{
    match mode {
        BodyMode::ContentLength(_, _) => Err(Error::from(PREMATURE_BODY_END)),
        BodyMode::ToSelect | BodyMode::UntilClose(_) | BodyMode::Complete(_) => Ok(None),
    }
}

/// How many bytes of payload were put.
pub(crate) fn written(mode: BodyMode) -> usize
    ensures { result ≡ spec.written mode }
{
    match mode {
        BodyMode::ToSelect => 0,
        BodyMode::ContentLength(_, count) => count,
        BodyMode::UntilClose(count) => count,
        BodyMode::Complete(count) => count,
    }
}
