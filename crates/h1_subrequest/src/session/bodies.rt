//! Reading the body of a subrequest, and writing that of its response.
ghost use Rattle.std.specs.Prelude.{◌≡◌, IsSome, false, not};
ghost use Rattle.h1_subrequest.specs.ReadBody.{is_unset as is_unset_reader};
ghost use Rattle.h1_subrequest.specs.SessionBodies.{EndsWriting, ReadsBody, WritesBody, done_behind, lasting_in, refusal_in};
ghost use Rattle.h1_subrequest.specs.SessionHead.{is_changed};
ghost use Rattle.h1_subrequest.specs.WriteBody.{is_unset};

use super::HttpSession;
use crate::{BodyMode, ParseState};
use bytes::Bytes;
use futures::task::Poll;
use h1_error::{Error, ErrorType};
use h1_rings::{TaskRx, TaskTx};
use std::sync::Wait;

impl<X: TaskTx + Drop, R: TaskRx + Drop, W: Wait + Drop> HttpSession<X, R, W> {
    /// The next piece of the request's body, or None where no more comes. It is to be repeated where
    /// no task was there. A refusal is answered again by each later read. No read has a limit of
    /// time, whatever moment is handed in.
    pub fn poll_read_body_bytes(&mut self, now: u64) -> Poll<Result<Option<Bytes>, Error>>
        requires request { IsSome self.old.request }
        requires opened { self.old.shut ≡ false }
        ensures { ReadsBody R.takes (R.was_empty self.old.rx self.new.rx)
            (R.was_ended self.old.rx self.new.rx) self.old self.new self.old.read_refused result }
    {
        let _ = now;
        self.used = true;
        if let Some(error) = self.read_refused {
            return Poll::Ready(Err(error));
        }
        let answer = self.reader.poll_read_body(&mut self.rx);
        self.read_refused = refusal_in(&answer);
        answer
    }

    /// Whether a final header was put, or one that changed the protocol.
    pub fn is_headed(&self) -> bool
        ensures { result ≡ not (is_unset self.now.writer) }
    {
        match self.writer.body_mode {
            BodyMode::ToSelect => false,
            _ => true,
        }
    }

    /// Puts what passes of a piece of the response's body, and answers how many bytes these are; None
    /// where nothing of it passes. The piece is taken out then. Where the ring is full it stays, cut
    /// to the length, and the call is to be repeated. Where the receiver is gone this answers
    /// `WriteError`, and so does each later write. No write has a limit of time.
    pub fn poll_write_body(
        &mut self,
        buf: &mut Option<Bytes>,
        now: u64,
    ) -> Poll<Result<Option<usize>, Error>>
        requires headed { is_unset self.old.writer ≡ false }
        requires opened { self.old.shut ≡ false }
        requires piece { IsSome buf.old }
        ensures { WritesBody X.puts (X.was_full self.old.tx self.new.tx)
            (X.was_gone self.old.tx self.new.tx) self.old self.new self.old.write_refused buf.old
            buf.new result }
    {
        let _ = now;
        if let Some(error) = self.write_refused {
            *buf = None;
            return Poll::Ready(Err(error));
        }
        let answer = self.writer.poll_write_body(&mut self.tx, buf);
        self.write_refused = lasting_in(&answer);
        answer
    }

    /// Puts the end of the response, and answers how many bytes of payload its body has; None where
    /// no body was begun or it was ended before. A body that is short of its length is refused
    /// (`PrematureBodyEnd`), and complete. Behind a change of protocol the end is that of the
    /// request's body too.
    pub fn poll_finish(&mut self, now: u64) -> Poll<Result<Option<usize>, Error>>
        requires request { IsSome self.old.request }
        requires opened { self.old.shut ≡ false }
        ensures { EndsWriting X.puts (X.was_full self.old.tx self.new.tx)
            (X.was_gone self.old.tx self.new.tx)
            (is_changed self.old.request self.old.written) self.old self.new
            self.old.write_refused result }
    {
        let _ = now;
        if let Some(error) = self.write_refused {
            return Poll::Ready(Err(error));
        }
        let upgraded = self.was_upgraded();
        let answer = self.writer.poll_finish(&mut self.tx);
        self.reader.body_state = done_behind(upgraded, &answer, self.reader.body_state);
        self.write_refused = lasting_in(&answer);
        answer
    }
}

/// The refusal in an answer of a read.
fn refusal_in(answer: &Poll<Result<Option<Bytes>, Error>>) -> Option<Error>
    ensures { result ≡ refusal_in answer.now }
{
    match answer {
        Poll::Ready(Err(error)) => Some(*error),
        Poll::Ready(Ok(_)) | Poll::Pending => None,
    }
}

/// The refusal in an answer of a write that each later write answers.
fn lasting_in(answer: &Poll<Result<Option<usize>, Error>>) -> Option<Error>
    ensures { result ≡ lasting_in answer.now }
{
    match answer {
        Poll::Ready(Err(error)) => match error.kind {
            ErrorType::WriteError => Some(*error),
            _ => None,
        },
        Poll::Ready(Ok(_)) | Poll::Pending => None,
    }
}

/// The reader behind a call that puts the end of the response.
fn done_behind(
    upgraded: bool,
    answer: &Poll<Result<Option<usize>, Error>>,
    reader: ParseState,
) -> ParseState
    requires { is_unset_reader reader ≡ false }
    ensures state { result ≡ done_behind upgraded answer.now reader }
    ensures set { is_unset_reader result ≡ false }
{
    match answer {
        Poll::Ready(Ok(Some(_))) if upgraded => reader.finished(),
        _ => reader,
    }
}
