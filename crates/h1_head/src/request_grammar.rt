//! The head of a request by the grammar (RFC 9112, sections 2.2, 3 and 5).
ghost use Rattle.std.specs.Prelude.{◌≤◌, length, IfOk, IfSome, OnOk, IsOkUnless};
ghost use Rattle.h1_error.specs.Memory.{no_memory};
ghost use Rattle.h1_head.specs.RequestGrammar.{IsHead, IsParsedAs};
ghost use Rattle.h1_head.specs.RequestSpans.{IsFoundIn, IsFrontAt, IsHeadAt};

use crate::RequestHeader;
use crate::limits::{MAX_HEADER_SIZE, MAX_HEADERS};
use bytes::Bytes;
use h1_error::Error;
use httparse::Status;
use httparse::spans::{EMPTY_HEADER_SPAN, HeaderSpan, RequestSpans, parse_request};

/// So many field lines most heads have at most; `judge_front` reads no head of more.
pub const FEW_HEADERS: usize = 16;

/// Where the parts of a head lie, or why they are not found.
enum Found {
    Head(RequestSpans),
    NoHead,
    /// The head has more lines than there is room for.
    NoRoom,
}

/// Whether the bytes are one head from their first byte to their last. What it says is put in the
/// place of the header.
#[inline(always)]
pub(crate) fn parse_head(bytes: &Bytes, header: &mut RequestHeader) -> Result<bool, Error>
    ensures ok { IfOk result (IsParsedAs bytes.now header.new) }
    ensures err { IsOkUnless result no_memory }
{
    // To clear as many spans as a head may need costs more than a short head does, so a few are
    // tried first.
    let mut spans = [EMPTY_HEADER_SPAN; FEW_HEADERS];
    match find_head(bytes.as_slice(), &mut spans) {
        Found::Head(head) => {
            put_request(bytes, &spans, head, header)?;
            Ok(true)
        }
        Found::NoHead => Ok(false),
        Found::NoRoom => parse_long_head(bytes, header),
    }
}

/// The same, with room for as many lines as a head may have.
#[inline(never)]
fn parse_long_head(bytes: &Bytes, header: &mut RequestHeader) -> Result<bool, Error>
    ensures ok { IfOk result (IsParsedAs bytes.now header.new) }
    ensures err { IsOkUnless result no_memory }
{
    let mut spans = [EMPTY_HEADER_SPAN; MAX_HEADERS];
    match find_head(bytes.as_slice(), &mut spans) {
        Found::Head(head) => {
            put_request(bytes, &spans, head, header)?;
            Ok(true)
        }
        Found::NoHead => Ok(false),
        Found::NoRoom => Ok(false),
    }
}

/// Where the parts lie, if the bytes are one head, and the spans are room enough for its lines.
#[inline(always)]
fn find_head(bytes: &[u8], spans: &mut [HeaderSpan]) -> Found
    requires { length spans.old ≤ MAX_HEADERS }
    ensures { IsFoundIn bytes.now spans.new result }
{
    match parse_request(bytes, spans) {
        Ok(Status::Complete(head)) => {
            if head.len < bytes.len() {
                Found::NoHead
            } else {
                Found::Head(head)
            }
        }
        Ok(Status::Partial) => Found::NoHead,
        Err(httparse::Error::TooManyHeaders) => Found::NoRoom,
        Err(_) => Found::NoHead,
    }
}

/// Where the parts of the head at the front of the bytes lie, if the grammar is complete in them
/// within the limit, and the spans are room enough for its lines.
#[inline(always)]
pub(crate) fn find_front(bytes: &[u8], spans: &mut [HeaderSpan]) -> Option<RequestSpans>
    requires { length spans.old ≤ MAX_HEADERS }
    ensures { IfSome result (IsFrontAt bytes.now spans.new) }
{
    match parse_request(bytes, spans) {
        Ok(Status::Complete(head)) if head.len <= MAX_HEADER_SIZE => Some(head),
        _ => None,
    }
}

/// Puts the request whose parts lie at these places in the place of the header.
#[inline(always)]
pub(crate) fn put_request(
    bytes: &Bytes,
    spans: &[HeaderSpan],
    head: RequestSpans,
    header: &mut RequestHeader,
) -> Result<(), Error>
    requires { IsHeadAt bytes.now spans.now head }
    ensures ok { OnOk result (IsHead bytes.now header.new) }
    ensures err { IsOkUnless result no_memory }
{
    let text = bytes.as_slice();
    let lines = &spans[..head.headers];
    let method = head.method.of(text);
    let target = bytes.slice(head.path.start..head.path.end)?;
    header.put_read(method, target, head.version, bytes, lines)
}
