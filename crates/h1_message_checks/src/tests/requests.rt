//! Heads of requests, and the calls of them.
use bytes::BytesMut;
use h1_error::{Error, ErrorType};
use h1_head::{
    RequestHeader, http_req_header_to_wire, req_header_as_http_date, validate_request_authority,
};
use http::{Request, Version};
use std::alloc::Global;
use std::marker::Model;
use std::process::Abort;

/// The head of a request, of which contracts see nothing.
#[derive(Drop)]
pub(super) struct Asked {
    pub head: RequestHeader,
}

impl Model for Asked {
    ghost Value = { Unit {0} };

    ghost view = { λ _. tt };
}

/// A request without a line.
pub(super) fn bare(rt: &impl Abort, alloc: Global, method: &[u8], target: &[u8]) -> Asked {
    let head = RequestHeader::build(alloc, method, target, None).expect(rt, "a request");
    Asked { head }
}

/// A request without a line, and room for so many.
pub(super) fn roomy(rt: &impl Abort, alloc: Global, target: &[u8], room: usize) -> Asked {
    let head = RequestHeader::build(alloc, b"GET", target, Some(room)).expect(rt, "a request");
    Asked { head }
}

/// Why there is no request with this method.
pub(super) fn method_fault(alloc: Global, method: &[u8]) -> Option<Error> {
    RequestHeader::build(alloc, method, b"/", None).err()
}

/// A request of other types, with one line.
pub(super) fn of_other_types(rt: &impl Abort, alloc: Global, uri: &str) -> Asked {
    let request = Request::get(alloc, uri).header("X-Id", "1").body(());
    let parts = request.expect(rt, "a request").into_parts().0;
    let head = RequestHeader::from_parts(alloc, parts).expect(rt, "a head");
    Asked { head }
}

pub(super) fn add_host(rt: &impl Abort, asked: &mut Asked, host: &[u8]) {
    asked.head.append_header(b"Host", host).expect(rt, "a line");
}

/// A request with one line.
pub(super) fn with_line(
    rt: &impl Abort,
    alloc: Global,
    method: &[u8],
    name: &[u8],
    value: &[u8],
) -> Asked {
    let mut asked = bare(rt, alloc, method, b"/");
    append(rt, &mut asked, name, value);
    asked
}

pub(super) fn append(rt: &impl Abort, asked: &mut Asked, name: &[u8], value: &[u8]) {
    asked.head.append_header(name, value).expect(rt, "a line");
}

/// The second that the date of this name is, from the start of 1970.
pub(super) fn second_of(asked: &Asked, name: &[u8]) -> Result<Option<u64>, Error> {
    match req_header_as_http_date(&asked.head, name) {
        Ok(Some(date)) => Ok(Some(date.unix_secs())),
        Ok(None) => Ok(None),
        Err(error) => Err(error),
    }
}

pub(super) fn copy(rt: &impl Abort, asked: &Asked) -> Asked {
    let head = asked.head.copy().expect(rt, "memory");
    Asked { head }
}

pub(super) fn copy_to(rt: &impl Abort, asked: &Asked, place: &mut Asked) {
    asked.head.copy_to(&mut place.head).expect(rt, "memory");
}

/// How a request is written, where it is.
pub(super) fn wire_of(rt: &impl Abort, asked: &Asked) -> Option<BytesMut> {
    http_req_header_to_wire(&asked.head).expect(rt, "memory")
}

pub(super) fn line_of<'a>(asked: &'a Asked, name: &[u8]) -> Option<&'a [u8]> {
    asked.head.get(name)
}

pub(super) fn first_line(asked: &Asked) -> Option<(&[u8], &[u8])> {
    asked.head.fields().iter().next()
}

pub(super) fn method(asked: &Asked) -> &str {
    asked.head.method().as_str()
}

pub(super) fn target(asked: &Asked) -> &[u8] {
    asked.head.raw_path()
}

pub(super) fn authority(asked: &Asked) -> Option<&[u8]> {
    asked.head.authority()
}

/// Why the Host of a request is refused.
pub(super) fn authority_fault(asked: &Asked) -> Option<ErrorType> {
    match validate_request_authority(&asked.head) {
        Ok(()) => None,
        Err(error) => Some(error.kind),
    }
}

pub(super) fn set_version(asked: &mut Asked, version: Version) {
    asked.head.set_version(version);
}

/// Whether the stream ends with the head, where HTTP/2 asks that.
pub(super) fn ends_stream(asked: &Asked) -> Option<bool> {
    asked.head.send_end_stream()
}

pub(super) fn set_ends_stream(asked: &mut Asked, ends: bool) {
    asked.head.set_send_end_stream(ends);
}
