//! Heads of responses, the calls of them, and what a reply is printed with.
use super::requests::Asked;
use bytes::BytesMut;
use h1_error::{Error, YEAR_10000};
use h1_head::{
    CacheableDate, HeadBuffer, ResponseHeader, gen_error_response, get_cached_date,
    http_400_response, http_502_response, is_http_1, not_modified_filter, print_reply_head,
    push_response_head, resp_header_as_http_date, to_304,
};
use http::Version;
use std::alloc::Global;
use std::marker::Model;
use std::process::Abort;

/// The head of a response, of which contracts see nothing.
#[derive(Drop)]
pub(super) struct Replied {
    head: ResponseHeader,
}

impl Model for Replied {
    ghost Value = { Unit {0} };

    ghost view = { λ _. tt };
}

/// A response without a line.
pub(super) fn bare(rt: &impl Abort, alloc: Global, status: u16) -> Replied {
    let head = ResponseHeader::build(alloc, status, None).expect(rt, "a response");
    Replied { head }
}

/// A response with these lines.
pub(super) fn with_lines(
    rt: &impl Abort,
    alloc: Global,
    status: u16,
    lines: &[(&[u8], &[u8])],
) -> Replied {
    let mut replied = bare(rt, alloc, status);
    for (name, value) in lines {
        append(&mut replied, name, value).expect(rt, "a line");
    }
    replied
}

/// Why there is no response with this status.
pub(super) fn status_fault(alloc: Global, status: u16) -> Option<Error> {
    ResponseHeader::build(alloc, status, None).err()
}

/// A response that tells an error of the server behind.
pub(super) fn bad_gateway(rt: &impl Abort, alloc: Global) -> Replied {
    let head = http_502_response(alloc).expect(rt, "memory");
    Replied { head }
}

/// A response that tells an error of the request.
pub(super) fn bad_request(rt: &impl Abort, alloc: Global) -> Replied {
    let head = http_400_response(alloc).expect(rt, "memory");
    Replied { head }
}

/// How many lines a response has that tells an error with this status, or why there is none.
pub(super) fn of_error(alloc: Global, status: u16) -> Result<usize, Error> {
    match gen_error_response(alloc, status) {
        Ok(head) => Ok(head.fields().len()),
        Err(error) => Err(error),
    }
}

/// Whether the response needn't be sent to this request.
pub(super) fn is_not_modified(asked: &Asked, replied: &Replied) -> bool {
    not_modified_filter(&asked.head, &replied.head)
}

/// Makes the response 304 of a response.
pub(super) fn make_304(replied: &mut Replied) {
    to_304(&mut replied.head);
}

pub(super) fn status(replied: &Replied) -> u16 {
    replied.head.status()
}

/// The second that the date of this name is, from the start of 1970.
pub(super) fn second_of(replied: &Replied, name: &[u8]) -> Result<Option<u64>, Error> {
    match resp_header_as_http_date(&replied.head, name) {
        Ok(Some(date)) => Ok(Some(date.unix_secs())),
        Ok(None) => Ok(None),
        Err(error) => Err(error),
    }
}

pub(super) fn copy(rt: &impl Abort, replied: &Replied) -> Replied {
    let head = replied.head.copy().expect(rt, "memory");
    Replied { head }
}

pub(super) fn append(replied: &mut Replied, name: &[u8], value: &[u8]) -> Result<(), Error> {
    replied.head.append_header(name, value)
}

pub(super) fn insert(replied: &mut Replied, name: &[u8], value: &[u8]) -> Result<(), Error> {
    replied.head.insert_header(name, value)
}

pub(super) fn remove(replied: &mut Replied, name: &[u8]) {
    replied.head.remove_header(name);
}

pub(super) fn set_status(replied: &mut Replied, status: u16) -> Result<(), Error> {
    replied.head.set_status(status)
}

pub(super) fn set_length(rt: &impl Abort, replied: &mut Replied, length: u64) {
    replied.head.set_content_length(length).expect(rt, "memory");
}

pub(super) fn append_length(rt: &impl Abort, replied: &mut Replied, length: u64) {
    replied
        .head
        .append_content_length(length)
        .expect(rt, "memory");
}

pub(super) fn set_version(replied: &mut Replied, version: Version) {
    replied.head.set_version(version);
}

pub(super) fn is_of_http_11(replied: &Replied) -> bool {
    replied.head.version() == Version::HTTP_11
}

pub(super) fn set_phrase(replied: &mut Replied, phrase: &[u8]) -> Result<(), Error> {
    replied.head.set_reason_phrase(Some(phrase))
}

pub(super) fn phrase<'a>(rt: &impl Abort, replied: &'a Replied) -> &'a [u8] {
    replied.head.get_reason_phrase().expect(rt, "a phrase")
}

pub(super) fn count_lines(replied: &Replied) -> usize {
    replied.head.fields().len()
}

/// The lines of a response.
pub(super) fn lines_of(rt: &impl Abort, alloc: Global, replied: &Replied) -> BytesMut {
    let mut out = BytesMut::new(alloc);
    replied
        .head
        .header_to_h1_wire(&mut out)
        .expect(rt, "memory");
    out
}

/// The head of a response behind an exclamation mark.
pub(super) fn pushed(rt: &impl Abort, alloc: Global, replied: &Replied) -> Vec<u8> {
    let mut out = vec![in alloc; b'!'].expect(rt, "memory");
    assert!(rt; is_http_1(replied.head.version()));
    push_response_head(&replied.head, &mut out).expect(rt, "memory");
    out
}

/// Bytes of heads, of which contracts see nothing.
#[derive(Drop)]
pub(super) struct Printed {
    bytes: HeadBuffer,
}

impl Model for Printed {
    ghost Value = { Unit {0} };

    ghost view = { λ _. tt };
}

/// No byte.
pub(super) fn nothing(alloc: Global) -> Printed {
    let bytes = HeadBuffer::new(alloc);
    Printed { bytes }
}

pub(super) fn push(rt: &impl Abort, printed: &mut Printed, more: &[u8]) {
    printed.bytes.push(more).expect(rt, "memory");
}

pub(super) fn clear(printed: &mut Printed) {
    printed.bytes.clear();
}

pub(super) fn bytes_of(printed: &Printed) -> &[u8] {
    printed.bytes.as_slice()
}

pub(super) fn count_bytes(printed: &Printed) -> usize {
    printed.bytes.len()
}

pub(super) fn into_bytes(printed: Printed) -> Vec<u8> {
    let Printed { bytes } = printed;
    bytes.into_bytes()
}

/// Prints the head of a reply of the moment of RFC 9110, section 5.6.7.
pub(super) fn print(rt: &impl Abort, replied: &Replied, keep: bool, printed: &mut Printed) {
    let date = get_cached_date(784_111_777_999);
    assert!(rt; is_http_1(replied.head.version()));
    print_reply_head(&replied.head, &date, keep, &mut printed.bytes).expect(rt, "memory");
}

/// A date that is kept, of which contracts see nothing.
#[derive(Drop)]
pub(super) struct Dated {
    cache: CacheableDate,
}

impl Model for Dated {
    ghost Value = { Unit {0} };

    ghost view = { λ _. tt };
}

/// The date of the first moment.
pub(super) fn first_date() -> Dated {
    let cache = CacheableDate::new(0);
    Dated { cache }
}

/// The date of this moment, in milliseconds.
pub(super) fn date_at(rt: &impl Abort, dated: &mut Dated, now: u64) -> [u8; 29] {
    assert!(rt; now < YEAR_10000);
    dated.cache.get_date(now)
}
