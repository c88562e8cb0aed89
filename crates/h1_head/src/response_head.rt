//! The head of a response, read from the front of a stream (RFC 9112, sections 2, 4 and 5).
//!
//! What came so far goes in, and what is known of the head comes out. The answer depends on nothing
//! but these bytes, and an accepted or refused head stays so whatever comes after it.
ghost use Rattle.std.specs.Prelude.{◌≡◌, [], IfOk, IfSome, IsOkUnless};
ghost use Rattle.h1_cut.specs.Search.{HasLooked};
ghost use Rattle.h1_error.specs.Memory.{no_memory};
ghost use Rattle.h1_head.specs.declared.limits.TheConstants.{MAX_HEADER_SIZE};
ghost use Rattle.h1_head.specs.Response.{new_response};
ghost use Rattle.h1_head.specs.Normal.{normal};
ghost use Rattle.h1_head.specs.Settled.{settled};
ghost use Rattle.h1_head.specs.ResponseHead.{IsFoundIn, IsStepOf};
ghost use Rattle.h1_head.specs.ResponseVerdict.{IsJudged, IsJudgedAt, IsParsedAs, IsSettledAs, told};

use crate::normal::normal;
use crate::response_grammar::{Parsed, find_front, parse_head, parse_long_head, put_head};
use crate::{FEW_HEADERS, HeadEnd, ResponseHeader, Room, find_head_end};
use bytes::Bytes;
use h1_cut::HeadSearch;
use h1_error::{Error, HeadFault};
use httparse::spans::{EMPTY_HEADER_SPAN, HeaderSpan};
use std::alloc::Global;

/// An accepted head.
#[derive(Debug, Drop)]
pub struct ResponseHead {
    /// The response, without Content-Length lines where Transfer-Encoding is there. Its phrase is
    /// set where it isn't the one that the status code has.
    pub header: ResponseHeader,
    /// The bytes of the head as they were received.
    pub raw: Bytes,
}

/// What is known of the head at the front of a stream.
#[derive(Debug, Drop)]
pub enum ResponseStep {
    /// A head is there and accepted. It takes so many of the bytes that came.
    Whole(ResponseHead, usize),
    /// No head ends in the bytes yet.
    NotYet,
    /// The head is refused, or none ends within the limit.
    Refused(HeadFault),
}

/// The same, where an accepted head was put in a place.
#[derive(Clone, Copy, Debug, PartialEq, Eq)]
pub enum ResponseFound {
    /// A head is there and accepted. It takes so many of the bytes that came.
    Whole(usize),
    /// No head ends in the bytes yet.
    NotYet,
    /// The head is refused, or none ends within the limit.
    Refused(HeadFault),
}

impl ResponseHead {
    /// A place for a head: status 200 of version 1.1, with no fields and no bytes. Takes no memory.
    #[inline(always)]
    pub fn new(alloc: Global) -> Self
        ensures header { result.header ≡ new_response 200 }
        ensures raw { result.raw ≡ [] }
    {
        ResponseHead {
            header: ResponseHeader::new(alloc),
            raw: Bytes::new(),
        }
    }
}

/// Reads the head at the front of the bytes.
pub fn read_response_head(alloc: Global, bytes: &[u8]) -> Result<ResponseStep, Error>
    ensures ok { IfOk result (IsStepOf bytes.now) }
    ensures err { IsOkUnless result no_memory }
{
    let mut head = ResponseHead::new(alloc);
    let mut search = HeadSearch::new();
    let mut room = Room::new(alloc);
    let mut spans = [EMPTY_HEADER_SPAN; FEW_HEADERS];
    match search_response_head(alloc, &mut search, bytes, &mut room, &mut spans, &mut head)? {
        ResponseFound::Whole(len) => Ok(ResponseStep::Whole(head, len)),
        ResponseFound::NotYet => Ok(ResponseStep::NotYet),
        ResponseFound::Refused(fault) => Ok(ResponseStep::Refused(fault)),
    }
}

/// The same for bytes that grow from call to call: the search has looked at a front of them, and
/// goes on from there. A new head needs a new search. An accepted head is put in its place, with its
/// bytes in the room's memory. Where no head is accepted, what stands in the place has no meaning,
/// and what the spans hold has none before and after.
pub fn search_response_head(
    alloc: Global,
    search: &mut HeadSearch,
    bytes: &[u8],
    room: &mut Room,
    spans: &mut [HeaderSpan; FEW_HEADERS],
    found: &mut ResponseHead,
) -> Result<ResponseFound, Error>
    requires looked { HasLooked MAX_HEADER_SIZE search.old bytes.now }
    ensures ok { IfOk result (IsFoundIn bytes.now found.new) }
    ensures err { IsOkUnless result no_memory }
    ensures looked { HasLooked MAX_HEADER_SIZE search.new bytes.now }
{
    // Before the first byte there is nothing to look at.
    if bytes.is_empty() {
        return Ok(ResponseFound::NotYet);
    }
    // Most heads are whole at the first look, and the grammar tells their end without a search.
    if search.at() == 0 {
        if let Some((fault, len)) = judge_front(bytes, room, spans, found)? {
            return Ok(told(fault, len));
        }
    }
    search_on(alloc, search, bytes, room, found)
}

/// The same where the search has to find the end. It isn't inlined, since a head that is whole at
/// the first look would pay for its locals.
#[inline(never)]
fn search_on(
    alloc: Global,
    search: &mut HeadSearch,
    bytes: &[u8],
    room: &mut Room,
    found: &mut ResponseHead,
) -> Result<ResponseFound, Error>
    requires looked { HasLooked MAX_HEADER_SIZE search.old bytes.now }
    ensures ok { IfOk result (IsFoundIn bytes.now found.new) }
    ensures err { IsOkUnless result no_memory }
    ensures looked { HasLooked MAX_HEADER_SIZE search.new bytes.now }
{
    match find_head_end(search, bytes) {
        HeadEnd::NotYet => Ok(ResponseFound::NotYet),
        HeadEnd::TooLong => Ok(ResponseFound::Refused(HeadFault::TooLong)),
        HeadEnd::At(len) => Ok(told(judge_head(alloc, &bytes[..len], room, found)?, len)),
    }
}

/// What is known of a head that takes so many bytes, and is accepted or has a fault.
#[inline(always)]
fn told(fault: Option<HeadFault>, len: usize) -> ResponseFound
    ensures { result ≡ told fault len }
{
    match fault {
        None => ResponseFound::Whole(len),
        Some(fault) => ResponseFound::Refused(fault),
    }
}

/// Accepts or refuses the head at the front of the bytes, without a search for its end, where its
/// grammar is complete in them (RFC 9112, section 4), and says how many of the bytes it takes. Where
/// the answer is none, a search tells more. An accepted head is put in its place.
#[inline(always)]
fn judge_front(
    bytes: &[u8],
    room: &mut Room,
    spans: &mut [HeaderSpan; FEW_HEADERS],
    found: &mut ResponseHead,
) -> Result<Option<(Option<HeadFault>, usize)>, Error>
    ensures ok { IfOk result (λ judged. IfSome judged (IsJudgedAt bytes.now found.new)) }
    ensures err { IsOkUnless result no_memory }
{
    let Some(front) = find_front(bytes, spans) else {
        return Ok(None);
    };
    let len = front.len;
    found.raw = room.copy(&bytes[..len])?;
    let parsed = put_head(&found.raw, spans, front, &mut found.header)?;
    Ok(Some((settle(parsed, &mut found.header), len)))
}

/// Accepts or refuses a whole head. An accepted one is put in its place.
#[inline(always)]
fn judge_head(
    alloc: Global,
    head: &[u8],
    room: &mut Room,
    found: &mut ResponseHead,
) -> Result<Option<HeadFault>, Error>
    ensures ok { IfOk result (IsJudged head.now found.new) }
    ensures err { IsOkUnless result no_memory }
{
    found.raw = room.copy(head)?;
    let parsed = parse_normal(alloc, &found.raw, &mut found.header)?;
    Ok(settle(parsed, &mut found.header))
}

/// The fault of bytes that are this by the grammar, if they have one. Of a head that has none the
/// length is settled.
#[inline(always)]
fn settle(parsed: Parsed, header: &mut ResponseHeader) -> Option<HeadFault>
    ensures { IsSettledAs header.old header.new parsed result }
{
    match parsed {
        Parsed::Head => {
            settle_length(header);
            None
        }
        Parsed::Faulty(fault) => Some(fault),
        Parsed::NoHead => Some(HeadFault::NotAHead),
    }
}

/// Reads the head as it came where the grammar has it so, which is then normal.
#[inline(always)]
fn parse_normal(alloc: Global, head: &Bytes, header: &mut ResponseHeader) -> Result<Parsed, Error>
    ensures ok { IfOk result (IsParsedAs (normal head.now) header.new) }
    ensures err { IsOkUnless result no_memory }
{
    match parse_head(head, header)? {
        Parsed::NoHead => parse_changed(alloc, head, header),
        parsed => Ok(parsed),
    }
}

/// Reads the normal form of a head that the grammar doesn't have as it came.
#[cold]
#[inline(never)]
fn parse_changed(alloc: Global, head: &Bytes, header: &mut ResponseHeader) -> Result<Parsed, Error>
    ensures ok { IfOk result (IsParsedAs (normal head.now) header.new) }
    ensures err { IsOkUnless result no_memory }
{
    let bytes = normal(alloc, head.as_slice())?;
    parse_long_head(&Bytes::from_vec(bytes)?, header)
}

/// Drops Content-Length lines beside Transfer-Encoding.
#[inline(always)]
fn settle_length(header: &mut ResponseHeader)
    ensures { header.new ≡ settled header.old }
{
    if header.fields().has_transfer_encoding() {
        header.remove_header(b"Content-Length");
    }
}
