//! The head of a response by the grammar (RFC 9112, sections 2.2, 4 and 5).
ghost use Rattle.std.specs.Prelude.{◌≤◌, length, IfOk, IfSome, IsOkUnless};
ghost use Rattle.h1_error.specs.Memory.{no_memory};
ghost use Rattle.h1_head.specs.declared.limits.TheConstants.{MAX_HEADERS};
ghost use Rattle.h1_head.specs.ResponseVerdict.{IsFoundBy, IsFrontAt, IsHeadAt, IsParsedAs};

use crate::{FEW_HEADERS, MAX_HEADER_SIZE, MAX_HEADERS, ResponseHeader};
use bytes::Bytes;
use h1_error::{Error, HeadFault};
use httparse::Status;
use httparse::spans::{EMPTY_HEADER_SPAN, HeaderSpan, ResponseSpans, parse_response};

/// Where the parts of a head lie, or why they are not found.
enum Found {
    Head(ResponseSpans),
    NoHead,
    /// The head has more lines than there is room for.
    NoRoom,
}

/// What bytes are by the grammar.
pub(crate) enum Parsed {
    Head,
    /// A head that is refused.
    Faulty(HeadFault),
    NoHead,
}

/// Reads the bytes as one head from their first byte to their last. What it says is put in the
/// place of the header.
pub(crate) fn parse_head(bytes: &Bytes, header: &mut ResponseHeader) -> Result<Parsed, Error>
    ensures ok { IfOk result (IsParsedAs bytes.now header.new) }
    ensures err { IsOkUnless result no_memory }
{
    // To clear as many spans as a head may need costs more than a short head does, so a few are
    // tried first.
    let mut spans = [EMPTY_HEADER_SPAN; FEW_HEADERS];
    match find_head(bytes.as_slice(), &mut spans) {
        Found::Head(head) => put_head(bytes, &spans, head, header),
        Found::NoHead => Ok(Parsed::NoHead),
        Found::NoRoom => parse_long_head(bytes, header),
    }
}

/// The same, with room for as many lines as a head may have.
#[inline(never)]
pub(crate) fn parse_long_head(bytes: &Bytes, header: &mut ResponseHeader) -> Result<Parsed, Error>
    ensures ok { IfOk result (IsParsedAs bytes.now header.new) }
    ensures err { IsOkUnless result no_memory }
{
    let mut spans = [EMPTY_HEADER_SPAN; MAX_HEADERS];
    match find_head(bytes.as_slice(), &mut spans) {
        Found::Head(head) => put_head(bytes, &spans, head, header),
        Found::NoHead => Ok(Parsed::NoHead),
        Found::NoRoom => Ok(Parsed::NoHead),
    }
}

/// Where the parts lie, if the bytes are one head, and the spans are room enough for its lines.
#[inline(always)]
fn find_head(bytes: &[u8], spans: &mut [HeaderSpan]) -> Found
    requires { length spans.old ≤ MAX_HEADERS }
    ensures { IsFoundBy bytes.now spans.new result }
{
    match parse_response(bytes, spans) {
        Ok(Status::Complete(head)) => {
            if head.len < bytes.len() {
                Found::NoHead
            } else {
                Found::Head(head)
            }
        }
        Ok(Status::Partial) => Found::NoHead,
        Err(httparse::Error::TooManyHeaders) => Found::NoRoom,
        Err(_) => Found::NoHead,
    }
}

/// Where the parts of the head at the front of the bytes lie, if the grammar is complete in them
/// within the limit, and the spans are room enough for its lines.
#[inline(always)]
pub(crate) fn find_front(bytes: &[u8], spans: &mut [HeaderSpan]) -> Option<ResponseSpans>
    requires { length spans.old ≤ MAX_HEADERS }
    ensures { IfSome result (IsFrontAt bytes.now spans.new) }
{
    match parse_response(bytes, spans) {
        Ok(Status::Complete(head)) if head.len <= MAX_HEADER_SIZE => Some(head),
        _ => None,
    }
}

/// Puts the response whose parts lie at these places in the place of the header.
#[inline(always)]
#[tactic(auto, using(crate::proofs::ResponseGrammarLemmas::code_sound))]
pub(crate) fn put_head(
    bytes: &Bytes,
    spans: &[HeaderSpan],
    head: ResponseSpans,
    header: &mut ResponseHeader,
) -> Result<Parsed, Error>
    requires { IsHeadAt bytes.now spans.now head }
    ensures ok { IfOk result (IsParsedAs bytes.now header.new) }
    ensures err { IsOkUnless result no_memory }
{
    if head.code < 100 {
        return Ok(Parsed::Faulty(HeadFault::BadStatus));
    }
    let phrase = head.reason.of(bytes.as_slice());
    let lines = &spans[..head.headers];
    header.put_read(head.code, head.version, phrase, bytes, lines)?;
    Ok(Parsed::Head)
}
