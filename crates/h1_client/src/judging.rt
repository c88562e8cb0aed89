//! What the calls of a session answer and keep (RFC 9112, section 8).
ghost use Rattle.std.specs.Prelude.{◌≡◌, ◌&&◌, false, length, ◌≤◌, IfSome};
ghost use Rattle.h1_body.specs.declared.chunking.TheConstants.{CHUNK_LIMIT};
ghost use Rattle.h1_transfer.specs.Calls.{read_fault_of};
ghost use Rattle.h1_client.specs.ReadingBody.{at_link_end, ends_with_link};
ghost use Rattle.h1_client.specs.ClientView.{first_refusal, is_spent};
ghost use Rattle.h1_client.specs.Responses.{final_of};
ghost use Rattle.h1_client.specs.Reusing.{is_at_end, is_free, is_over, is_sent};
ghost use Rattle.h1_client.specs.Written.{is_written};

use crate::framing::{framing_to, is_until_close};
use crate::response_place::ResponsePlace;
use bytes::Bytes;
use futures::task::Poll;
use h1_body::{BodyReader, BodyWriter, FeedState};
use h1_error::{Error, ErrorType};
use h1_head::{RequestHeader, is_interim};
use h1_transfer::{BodyState, Outgoing, Step};

/// The refusal of the request's writing.
pub(crate) fn first_refusal(late: Option<Error>, refused: Option<Error>) -> Option<Error>
    ensures { result ≡ first_refusal late refused }
{
    match late {
        Some(error) => Some(error),
        None => refused,
    }
}

/// What a read of the body of the final response to this request answers, where the body may end
/// with the link.
#[inline(always)]
pub(crate) fn at_link_end(
    request: &Option<RequestHeader>,
    last: &ResponsePlace,
    told: Poll<Result<Option<Bytes>, Error>>,
) -> Poll<Result<Option<Bytes>, Error>>
    ensures answer { result
        ≡ at_link_end (ends_with_link request.now (final_of last.now)) told }
    ensures told { read_fault_of result ≡ read_fault_of told }
{
    match told {
        Poll::Ready(Err(error)) => {
            if error.kind == ErrorType::ConnectionClosed && ends_with_link(request, last) {
                return Poll::Ready(Ok(None));
            }
            Poll::Ready(Err(error))
        }
        told => told,
    }
}

/// Whether the body of the final response to this request is read until the link ends.
#[cold]
#[inline(never)]
fn ends_with_link(request: &Option<RequestHeader>, last: &ResponsePlace) -> bool
    ensures { result ≡ ends_with_link request.now (final_of last.now) }
{
    let (Some(request), Some(last)) = (request, last.get()) else {
        return false;
    };
    !is_interim(last.header.status()) && is_until_close(framing_to(request, &last.header))
}

/// Whether a call with this answer stopped because so many calls are left.
pub(crate) fn is_spent<T>(answer: &Poll<T>, left: Option<u32>) -> bool
    ensures { result ≡ is_spent answer.now left }
{
    match answer {
        Poll::Ready(_) => false,
        Poll::Pending => match left {
            Some(left) => left == 0,
            None => false,
        },
    }
}

/// How long the piece that is handed in is.
pub(crate) fn piece_len(buf: &Option<Bytes>) -> usize
    ensures { IfSome buf.now (λ piece. length piece ≤ CHUNK_LIMIT) }
{
    match buf {
        Some(piece) => piece.len(),
        None => 0,
    }
}

/// Whether the request is written to its end, and flushed.
pub(crate) fn is_sent(out: &Outgoing) -> bool
    ensures { result ≡ is_sent out.now }
{
    is_free(out.step) && out.refused.is_none() && out.owed.is_empty() && is_written(&out.writer)
}

fn is_free(step: Step) -> bool
    ensures { result ≡ is_free step }
{
    match step {
        Step::Free => true,
        Step::Head => false,
        Step::Piece(_) => false,
        Step::Finish => false,
    }
}

/// Whether the body was ended, and isn't short.
fn is_written(writer: &BodyWriter) -> bool
    ensures { result ≡ is_written writer.now }
{
    writer.is_ended() && !writer.is_short()
}

/// Whether the body of the response was read to its end.
pub(crate) fn is_at_end(reader: &BodyReader) -> bool
    ensures { result ≡ is_at_end reader.now }
{
    match reader.state() {
        FeedState::Done => true,
        FeedState::More => false,
        FeedState::Broken => false,
    }
}

/// Whether nothing more is read of this body: it ended or failed.
pub(crate) fn is_over(body: &BodyState) -> bool
    ensures { result ≡ is_over body.now }
{
    is_at_end(&body.reader) || body.refused.is_some()
}
