//! Writing the header of a subrequest's response, and its trailer fields.
ghost use Rattle.std.specs.Prelude.{◌≡◌, ◌||◌, IsSome, IfSome, Some, None, false};
ghost use Rattle.h1_error.specs.declared.error.ErrorType.TheVariants.{WriteError};
ghost use Rattle.h1_subrequest.specs.SessionBodies.{WritesHeader, WritesTrailers, fields_in, headed, is_ended};

use super::HttpSession;
use crate::upgrade::completes;
use futures::task::Poll;
use h1_error::{Error, ErrorType};
use h1_head::{Fields, HttpTask, ResponseHeader, is_interim};
use h1_rings::{PutStep, TaskRx, TaskTx};
use std::sync::Wait;

impl<X: TaskTx + Drop, R: TaskRx + Drop, W: Wait + Drop> HttpSession<X, R, W> {
    /// Puts a header of the response as it is, with no end mark. It is taken out then. Where the ring
    /// is full it stays, and the call is to be repeated. Behind a final header or a 101 it is dropped.
    /// A final header says how the body ends; a 101 that changes the protocol begins bodies that
    /// their senders end. Where the receiver is gone this answers `WriteError`, and so does each
    /// later write.
    pub fn poll_write_response_header(
        &mut self,
        header: &mut Option<ResponseHeader>,
        now: u64,
    ) -> Poll<Result<(), Error>>
        requires request { IsSome self.old.request }
        requires opened { self.old.shut ≡ false }
        requires header { IsSome header.old }
        ensures { IfSome self.old.request (λ asked. WritesHeader X.puts
            (X.was_full self.old.tx self.new.tx) (X.was_gone self.old.tx self.new.tx) asked.read
            self.old self.new self.old.write_refused (is_ended self.old.written) header.old
            header.new result) }
    {
        let _ = now;
        let Some(head) = header.take() else {
            return Poll::Ready(Ok(()));
        };
        if let Some(error) = self.write_refused {
            return Poll::Ready(Err(error));
        }
        if is_ended(&self.written) {
            return Poll::Ready(Ok(()));
        }
        let kept = match head.copy() {
            Ok(kept) => kept,
            Err(error) => {
                *header = Some(head);
                return Poll::Ready(Err(error));
            }
        };
        match self.tx.put(HttpTask::Header(head, false)) {
            PutStep::Put => {
                self.note(kept);
                Poll::Ready(Ok(()))
            }
            PutStep::Full(_) => {
                *header = Some(kept);
                Poll::Pending
            }
            PutStep::Gone(_) => Poll::Ready(Err(self.fail())),
        }
    }

    /// Puts trailer fields, which are taken out then. Where the ring is full they stay, and the call
    /// is to be repeated.
    pub fn poll_write_trailers(
        &mut self,
        trailers: &mut Option<Fields>,
        now: u64,
    ) -> Poll<Result<(), Error>>
        requires opened { self.old.shut ≡ false }
        requires fields { IsSome trailers.old }
        ensures { WritesTrailers X.puts (X.was_full self.old.tx self.new.tx)
            (X.was_gone self.old.tx self.new.tx) self.old self.new self.old.write_refused
            trailers.old trailers.new result }
    {
        let _ = now;
        let Some(fields) = trailers.take() else {
            return Poll::Ready(Ok(()));
        };
        if let Some(error) = self.write_refused {
            return Poll::Ready(Err(error));
        }
        match self.tx.put(HttpTask::Trailer(Some(fields))) {
            PutStep::Put => Poll::Ready(Ok(())),
            PutStep::Full(task) => {
                *trailers = fields_in(task);
                Poll::Pending
            }
            PutStep::Gone(_) => Poll::Ready(Err(self.fail())),
        }
    }

    /// This header was put.
    fn note(&mut self, header: ResponseHeader)
        requires { IsSome self.old.request }
        ensures { IfSome self.old.request (λ asked.
            self.new ≡ headed self.old asked.read header) }
    {
        self.writer.body_mode = self.writer.body_mode.behind(&self.read, &header);
        if completes(&self.read, &header) {
            self.used = true;
            self.reader.body_state = self.reader.body_state.converted();
        }
        self.written = Some(header);
    }

    /// The receiver is gone.
    fn fail(&mut self) -> Error
        ensures error { result ≡ record { kind = WriteError; retry = false } }
        ensures kept { self.new ≡ record self.old { write_refused = Some result } }
    {
        let error = Error::from(ErrorType::WriteError);
        self.write_refused = Some(error);
        error
    }
}

/// Whether no header follows the one that was put last.
fn is_ended(written: &Option<ResponseHeader>) -> bool
    ensures { result ≡ is_ended written.now }
{
    match written {
        Some(header) => !is_interim(header.status()),
        None => false,
    }
}

/// The fields in a task.
fn fields_in(task: HttpTask) -> Option<Fields>
    ensures { result ≡ fields_in task }
{
    match task {
        HttpTask::Trailer(fields) => fields,
        _ => None,
    }
}
