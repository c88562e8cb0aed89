//! The head of a request, read from the front of a stream (RFC 9112, sections 2 to 6).
//!
//! What came so far goes in, and what is known of the head comes out. The answer depends on nothing
//! but these bytes, and an accepted or refused head stays so whatever comes after it.
ghost use Rattle.std.specs.Prelude.{IfOk, IfSome, IsOkUnless};
ghost use Rattle.h1_cut.specs.Limit.{CutsAt};
ghost use Rattle.h1_cut.specs.Search.{HasLooked};
ghost use Rattle.h1_error.specs.Memory.{no_memory};
ghost use Rattle.h1_head.specs.RequestHead.{IsEndIn, IsStepOf};
ghost use Rattle.h1_head.specs.RequestGrammar.{HasNoHead};
ghost use Rattle.h1_head.specs.RequestVerdict.{IsEscapedAs, IsSettled, IsVerdictAt, IsVerdictOn};

use crate::limits::MAX_HEADER_SIZE;
use crate::request_grammar::{FEW_HEADERS, find_front, parse_head, put_request};
use crate::{RequestHeader, Room};
use bytes::Bytes;
use h1_cut::HeadSearch;
use h1_error::{Error, HeadFault};
use h1_escape::escape_head;
use h1_fields::ContentLength;
use httparse::spans::HeaderSpan;
use std::alloc::Global;

/// An accepted head.
#[derive(Debug, Drop)]
pub struct RequestHead {
    /// The request, without Content-Length lines where Transfer-Encoding stands beside them.
    pub header: RequestHeader,
    /// Whether Content-Length lines went (RFC 9112, section 6.3).
    pub both: bool,
    /// The bytes that were parsed: the head as it came, or with its target escaped.
    pub raw: Bytes,
}

/// What is known of the head at the front of a stream.
#[derive(Debug, Drop)]
pub enum HeadStep {
    /// A head is there and accepted. It takes so many of the bytes that came.
    Whole(RequestHead, usize),
    /// No head ends in the bytes yet.
    NotYet,
    /// The head is refused, or none ends within the limit.
    Refused(HeadFault),
}

/// Where the head at the front of some bytes ends.
#[derive(Clone, Copy, Debug, PartialEq, Eq)]
pub enum HeadEnd {
    /// After so many bytes.
    At(usize),
    /// Not in these bytes, and it may still end within the limit.
    NotYet,
    /// Not within the limit.
    TooLong,
}

/// What becomes of a whole head.
#[derive(Clone, Copy, Debug, PartialEq, Eq)]
pub enum Verdict {
    /// `both` says whether Content-Length lines went (RFC 9112, section 6.3), and `length` what
    /// those that are left state.
    Accepted { both: bool, length: ContentLength },
    Refused(HeadFault),
}

/// Reads the head at the front of the bytes.
pub fn read_request_head(alloc: Global, bytes: &[u8]) -> Result<HeadStep, Error>
    ensures ok { IfOk result (IsStepOf bytes.now) }
    ensures err { IsOkUnless result no_memory }
{
    search_request_head(alloc, &mut HeadSearch::new(), bytes)
}

/// The same for bytes that grow from call to call: the search has looked at a front of them, and
/// goes on from there. A new head needs a new search.
pub fn search_request_head(
    alloc: Global,
    search: &mut HeadSearch,
    bytes: &[u8],
) -> Result<HeadStep, Error>
    requires { HasLooked MAX_HEADER_SIZE search.old bytes.now }
    ensures ok { IfOk result (IsStepOf bytes.now) }
    ensures err { IsOkUnless result no_memory }
    ensures looked { HasLooked MAX_HEADER_SIZE search.new bytes.now }
{
    match find_head_end(search, bytes) {
        HeadEnd::NotYet => Ok(HeadStep::NotYet),
        HeadEnd::TooLong => Ok(HeadStep::Refused(HeadFault::TooLong)),
        HeadEnd::At(len) => read_whole(alloc, bytes, len),
    }
}

/// Reads a head that ends after so many of the bytes.
fn read_whole(alloc: Global, bytes: &[u8], len: usize) -> Result<HeadStep, Error>
    requires { CutsAt MAX_HEADER_SIZE bytes.now len }
    ensures ok { IfOk result (IsStepOf bytes.now) }
    ensures err { IsOkUnless result no_memory }
{
    let mut header = RequestHeader::new(alloc);
    let mut raw = Bytes::new();
    match judge_head(
        alloc,
        &bytes[..len],
        &mut Room::new(alloc),
        &mut header,
        &mut raw,
    )? {
        Verdict::Accepted { both, .. } => Ok(HeadStep::Whole(
            RequestHead { header, both, raw },
            len,
        )),
        Verdict::Refused(fault) => Ok(HeadStep::Refused(fault)),
    }
}

/// Looks for the end of the head at the front of the bytes (RFC 9112, section 2.2), which grow from
/// call to call: the search has looked at a front of them, and goes on from there.
#[inline(always)]
pub fn find_head_end(search: &mut HeadSearch, bytes: &[u8]) -> HeadEnd
    requires { HasLooked MAX_HEADER_SIZE search.old bytes.now }
    ensures end { IsEndIn bytes.now result }
    ensures looked { HasLooked MAX_HEADER_SIZE search.new bytes.now }
{
    match search.find_within(bytes, MAX_HEADER_SIZE) {
        Some(len) => HeadEnd::At(len),
        None if bytes.len() <= MAX_HEADER_SIZE => HeadEnd::NotYet,
        None => HeadEnd::TooLong,
    }
}

/// Accepts or refuses the head at the front of the bytes, without a search for its end, where its
/// grammar is complete in them (RFC 9112, section 3), and says how many of the bytes it takes. Where
/// the answer is none, a search tells more. What is put in both places is as in `judge_head`. What
/// the spans hold has no meaning before and after.
#[inline(always)]
pub fn judge_front(
    bytes: &[u8],
    room: &mut Room,
    spans: &mut [HeaderSpan; FEW_HEADERS],
    header: &mut RequestHeader,
    raw: &mut Bytes,
) -> Result<Option<(Verdict, usize)>, Error>
    ensures ok { IfOk result (λ found. IfSome found (IsVerdictAt bytes.now header.new raw.new)) }
    ensures err { IsOkUnless result no_memory }
{
    let Some(front) = find_front(bytes, spans) else {
        return Ok(None);
    };
    *raw = room.copy(&bytes[..front.len])?;
    put_request(raw, spans, front, header)?;
    Ok(Some((settle(header), front.len)))
}

/// Accepts or refuses a whole head of a request, or else its escape. What an accepted head says is
/// put in the place of the header, and its bytes as they were parsed in the place of `raw`: a copy
/// in the room's memory, or the escape. Where no head is accepted, what stands in both places has no
/// meaning.
#[inline(always)]
pub fn judge_head(
    alloc: Global,
    head: &[u8],
    room: &mut Room,
    header: &mut RequestHeader,
    raw: &mut Bytes,
) -> Result<Verdict, Error>
    ensures ok { IfOk result (IsVerdictOn head.now header.new raw.new) }
    ensures err { IsOkUnless result no_memory }
{
    *raw = room.copy(head)?;
    if parse_head(raw, header)? || parse_escape(alloc, head, header, raw)? {
        Ok(settle(header))
    } else {
        Ok(Verdict::Refused(HeadFault::NotAHead))
    }
}

/// Whether the escape of a head is a head, where the head is none.
#[inline(never)]
fn parse_escape(
    alloc: Global,
    head: &[u8],
    header: &mut RequestHeader,
    raw: &mut Bytes,
) -> Result<bool, Error>
    requires { HasNoHead head.now }
    ensures ok { IfOk result (IsEscapedAs head.now raw.new header.new) }
    ensures err { IsOkUnless result no_memory }
{
    let Some(escaped) = escape_head(alloc, head)? else {
        return Ok(false);
    };
    *raw = Bytes::from_vec(escaped)?;
    parse_head(raw, header)
}

/// Drops Content-Length lines beside Transfer-Encoding, and judges what is left.
#[inline(always)]
fn settle(header: &mut RequestHeader) -> Verdict
    ensures { IsSettled header.old header.new result }
{
    let coded = header.fields().has_transfer_encoding();
    let both = header.settle_length(coded);
    let length = header.fields().content_length();
    match header.first_fault(coded, length) {
        Some(fault) => Verdict::Refused(fault),
        None => Verdict::Accepted { both, length },
    }
}
