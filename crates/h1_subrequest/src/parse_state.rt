//! How far the body of a subrequest's request is read.
ghost use Rattle.std.specs.Prelude.{◌≡◌, ◌+◌, ◌^◌, ◌-◌, min, false};
ghost use Rattle.h1_subrequest.specs.ReadBody.{is_unset};
ghost use Rattle.h1_subrequest.specs.Reading.{converted, count_of, counted, counted_reader, finished, reader_of, reads, reads_end, reads_on, reads_part};

use bytes::Bytes;
use h1_body::Framing;
use h1_head::HttpTask;

/// How far a body is read. The first number is how many bytes of payload were read.
#[derive(Clone, Copy, Debug, PartialEq, Eq, Hash)]
pub enum ParseState {
    /// It isn't known yet how the body ends.
    ToStart,
    /// All of it was read.
    Complete(usize),
    /// The second number is how many bytes are left.
    Partial(usize, usize),
    /// It ended before its length was reached.
    Done(usize),
    /// It ends where its sender does.
    UntilClose(usize),
}

impl ParseState {
    /// A body of this framing that is not begun.
    pub(crate) fn of(framing: Framing) -> ParseState
        ensures state { result ≡ reader_of framing }
        ensures set { is_unset result ≡ false }
    {
        match framing {
            Framing::Counted(n) => ParseState::of_length(n as usize),
            Framing::Chunked | Framing::UntilClose => ParseState::UntilClose(0),
        }
    }

    /// A body of so many bytes that is not begun.
    pub(crate) fn of_length(n: usize) -> ParseState
        ensures state { result ≡ counted_reader n }
        ensures set { is_unset result ≡ false }
    {
        if n == 0 {
            ParseState::Complete(0)
        } else {
            ParseState::Partial(0, n)
        }
    }

    /// How many bytes of payload were counted.
    pub(crate) fn count(self) -> usize
        ensures { result ≡ count_of self }
    {
        match self {
            ParseState::ToStart => 0,
            ParseState::Complete(count) => count,
            ParseState::Partial(count, _) => count,
            ParseState::Done(count) => count,
            ParseState::UntilClose(count) => count,
        }
    }

    /// Behind a task that was taken.
    pub(crate) fn behind(self, task: &HttpTask) -> ParseState
        ensures { result ≡ reads self task.now }
    {
        match (self, task) {
            (ParseState::Partial(count, left), HttpTask::Body(piece, end)) => {
                behind_part(count, left, piece, *end)
            }
            (ParseState::UntilClose(count), HttpTask::Body(piece, end)) => {
                behind_piece(count, piece, *end)
            }
            _ => self,
        }
    }

    /// Where the sender was closed and no task was left.
    pub(crate) fn ended(self) -> ParseState
        ensures { result ≡ reads_end self }
    {
        match self {
            ParseState::Partial(count, _) => ParseState::Done(count),
            ParseState::UntilClose(count) => ParseState::Complete(count),
            _ => self,
        }
    }

    /// Behind a change of protocol.
    pub(crate) fn converted(self) -> ParseState
        ensures state { result ≡ converted self }
        ensures set { is_unset result ≡ false }
    {
        match self {
            ParseState::UntilClose(_) => self,
            _ => ParseState::UntilClose(0),
        }
    }

    /// Behind the end of a response that changed the protocol.
    pub(crate) fn finished(self) -> ParseState
        ensures state { result ≡ finished self }
        ensures set { is_unset result ≡ false }
    {
        match self {
            ParseState::Complete(_) | ParseState::Done(_) => self,
            _ => ParseState::Complete(0),
        }
    }
}

/// A body of stated length behind one more task of it.
fn behind_part(count: usize, left: usize, piece: &Option<Bytes>, end: bool) -> ParseState
    ensures { result ≡ reads_part count left piece.now end }
{
    let Some(piece) = piece else {
        return ParseState::Done(count);
    };
    if piece.len() >= left {
        ParseState::Complete(count.saturating_add(left))
    } else if end {
        ParseState::Done(count.saturating_add(piece.len()))
    } else {
        ParseState::Partial(count.saturating_add(piece.len()), left - piece.len())
    }
}

/// A body that its sender's end ends, behind one more task of it.
fn behind_piece(count: usize, piece: &Option<Bytes>, end: bool) -> ParseState
    ensures { result ≡ reads_on count piece.now end }
{
    let Some(piece) = piece else {
        return ParseState::Complete(count);
    };
    let count = count.saturating_add(piece.len());
    if end {
        ParseState::Complete(count)
    } else {
        ParseState::UntilClose(count)
    }
}
