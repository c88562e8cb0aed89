//! Heads of responses, as they are received and as they are read. Each row is read whole, with
//! bytes behind it, and from each front of its bytes.
use h1_body::{Framing, response_framing};
use h1_error::{Error, HeadFault};
use h1_head::{
    MAX_HEADER_SIZE, ResponseHeader, ResponseStep, is_http_1, is_interim, push_response_head,
    read_response_head,
};
use std::alloc::Global;

/// A head as it is received, and the same as it is read, written anew.
type Row = (&'static [u8], &'static [u8]);

/// The first is the example of RFC 9110, section 3.9.
const PLAIN: [Row; 10] = [
    (
        b"HTTP/1.1 200 OK\r\nDate: Mon, 27 Jul 2009 12:28:53 GMT\r\nServer: Apache\r\n\
            Last-Modified: Wed, 22 Jul 2009 19:15:56 GMT\r\nETag: \"34aa387-d-1568eb00\"\r\n\
            Accept-Ranges: bytes\r\nContent-Length: 51\r\nVary: Accept-Encoding\r\n\
            Content-Type: text/plain\r\n\r\n",
        b"HTTP/1.1 200 OK\r\nDate: Mon, 27 Jul 2009 12:28:53 GMT\r\nServer: Apache\r\n\
            Last-Modified: Wed, 22 Jul 2009 19:15:56 GMT\r\nETag: \"34aa387-d-1568eb00\"\r\n\
            Accept-Ranges: bytes\r\nContent-Length: 51\r\nVary: Accept-Encoding\r\n\
            Content-Type: text/plain\r\n\r\n",
    ),
    (
        b"HTTP/1.1 100 Continue\r\n\r\n",
        b"HTTP/1.1 100 Continue\r\n\r\n",
    ),
    (
        b"HTTP/1.0 404 Nowhere\r\n\r\n",
        b"HTTP/1.0 404 Nowhere\r\n\r\n",
    ),
    (b"HTTP/1.1 200\r\n\r\n", b"HTTP/1.1 200 \r\n\r\n"),
    (b"HTTP/1.1 999 \r\n\r\n", b"HTTP/1.1 999 \r\n\r\n"),
    (b"HTTP/1.1 200 A : b\r\n\r\n", b"HTTP/1.1 200 A : b\r\n\r\n"),
    (
        b"HTTP/1.1 204 No Content\n\n",
        b"HTTP/1.1 204 No Content\r\n\r\n",
    ),
    (
        b"\r\n\nHTTP/1.1 200 OK\r\nA:\t b \r\n\n",
        b"HTTP/1.1 200 OK\r\nA: b\r\n\r\n",
    ),
    (
        b"HTTP/1.1 200 OK\r\nContent-Length: 3\r\nA: b\r\nTransfer-Encoding: chunked\r\n\
            content-length: 4\r\n\r\n",
        b"HTTP/1.1 200 OK\r\nA: b\r\nTransfer-Encoding: chunked\r\n\r\n",
    ),
    (
        b"HTTP/1.1 200 OK\r\nContent-Length: 3\r\ncontent-length: x\r\n\r\n",
        b"HTTP/1.1 200 OK\r\nContent-Length: 3\r\ncontent-length: x\r\n\r\n",
    ),
];

/// Lines that are continued (RFC 9112, section 5.2), and white space before colons (section 5.1).
const CHANGED: [Row; 10] = [
    (
        b"HTTP/1.1 200 OK\r\nA: b\r\n c\r\n\r\n",
        b"HTTP/1.1 200 OK\r\nA: b c\r\n\r\n",
    ),
    (
        b"HTTP/1.1 200 OK\r\nA: b\r\n\t \tc\n d\r\nE: f\n\tg\n\n",
        b"HTTP/1.1 200 OK\r\nA: b c d\r\nE: f g\r\n\r\n",
    ),
    (
        b"HTTP/1.1 200 OK\r\nA: b \t\r\n c\r\n\r\n",
        b"HTTP/1.1 200 OK\r\nA: b \t c\r\n\r\n",
    ),
    (
        b"HTTP/1.1 200 OK\r\nA: b\r\n  \r\nC: d\r\n\r\n",
        b"HTTP/1.1 200 OK\r\nA: b\r\nC: d\r\n\r\n",
    ),
    (
        b"HTTP/1.1 200 OK\r\nA:\r\n b\r\n\r\n",
        b"HTTP/1.1 200 OK\r\nA: b\r\n\r\n",
    ),
    (
        b"HTTP/1.1 200 OK\r\nA : b\r\n\r\n",
        b"HTTP/1.1 200 OK\r\nA: b\r\n\r\n",
    ),
    (
        b"\r\nHTTP/1.1 200 A : b\r\nC \t \t: d : e\r\nF: g\r\nH\t:\r\n\r\n",
        b"HTTP/1.1 200 A : b\r\nC: d : e\r\nF: g\r\nH: \r\n\r\n",
    ),
    // The lines are joined before white space goes.
    (
        b"HTTP/1.1 200 OK\r\nA\r\n : b\r\n\r\n",
        b"HTTP/1.1 200 OK\r\nA: b\r\n\r\n",
    ),
    (
        b"HTTP/1.1 200 OK\r\nA: b\r\n C: d\r\n\r\n",
        b"HTTP/1.1 200 OK\r\nA: b C: d\r\n\r\n",
    ),
    (
        b"HTTP/1.1 200 OK\r\nContent-Length : 3\r\nTransfer-Encoding: gzip,\r\n chunked\r\n\r\n",
        b"HTTP/1.1 200 OK\r\nTransfer-Encoding: gzip, chunked\r\n\r\n",
    ),
];

const REFUSED: [(&'static [u8], HeadFault); 16] = [
    (b"HTTP/1.1 099 A\r\n\r\n", HeadFault::BadStatus),
    (b"HTTP/1.1 000 A\r\nB : c\r\n\r\n", HeadFault::BadStatus),
    (b"HTTP/1.1 99 A\r\n\r\n", HeadFault::NotAHead),
    (b"HTTP/1.1 1000 A\r\n\r\n", HeadFault::NotAHead),
    (b"HTTP/2 200 OK\r\n\r\n", HeadFault::NotAHead),
    (b"HTTP/1.1  200 OK\r\n\r\n", HeadFault::NotAHead),
    (b"GET / HTTP/1.1\r\n\r\n", HeadFault::NotAHead),
    // The first field line goes on with none.
    (b"HTTP/1.1 200 OK\r\n A: b\r\n\r\n", HeadFault::NotAHead),
    (b"HTTP/1.1 200 OK\r\n : b\r\n\r\n", HeadFault::NotAHead),
    (b"HTTP/1.1 200 OK\r\nA\r\n\r\n", HeadFault::NotAHead),
    (b"HTTP/1.1 200 OK\r\nA B: c\r\n\r\n", HeadFault::NotAHead),
    (
        b"HTTP/1.1 200 OK\r\nA\r\n B: c\r\n\r\n",
        HeadFault::NotAHead,
    ),
    (
        b"HTTP/1.1 200 OK\r\nA: b\r\n: c\r\n\r\n",
        HeadFault::NotAHead,
    ),
    (b"HTTP/1.1 200 OK\r\nA: b\rc\r\n\r\n", HeadFault::NotAHead),
    (
        b"HTTP/1.1 200 OK\r\nA: b\r\r\n c\r\n\r\n",
        HeadFault::NotAHead,
    ),
    (b"HTTP/1.1 200 OK\r\nA: b\0\r\n\r\n", HeadFault::NotAHead),
];

#[test]
fn a_head_of_the_grammar_is_read_as_it_came(rt: HostRuntime) {
    for (received, said) in &PLAIN {
        assert_eq!(rt;
            is_read(rt.alloc(), received, said),
            Ok(true),
            "{}",
            received.len()
        );
    }
}

#[test]
fn continued_lines_are_joined_and_white_space_before_a_colon_goes(rt: HostRuntime) {
    for (received, said) in &CHANGED {
        assert_eq!(rt;
            is_read(rt.alloc(), received, said),
            Ok(true),
            "{}",
            received.len()
        );
    }
}

#[test]
fn other_heads_are_refused(rt: HostRuntime) {
    for (received, fault) in &REFUSED {
        assert_eq!(rt;
            is_refused(rt.alloc(), received, *fault),
            Ok(true),
            "{}",
            received.len()
        );
    }
}

/// Whether the bytes are read as a head that says this, whole, with more behind, and in pieces.
fn is_read(alloc: Global, received: &[u8], said: &[u8]) -> Result<bool, Error> {
    let mut more = Vec::new(alloc);
    more.extend_from_slice(received)?;
    more.extend_from_slice(b"HTTP/1.1 200 OK\r\n\r\n")?;
    Ok(
        says(alloc, received, received, said)?
            && says(alloc, more.as_slice(), received, said)?
            && comes_last(alloc, received)?,
    )
}

/// Whether the head at the front of the bytes is this one, and says this.
fn says(alloc: Global, bytes: &[u8], head: &[u8], said: &[u8]) -> Result<bool, Error> {
    match read_response_head(alloc, bytes)? {
        ResponseStep::Whole(read, len) => {
            Ok(
                len == head.len()
                    && read.raw.as_slice() == head
                    && is_written(alloc, &read.header, said)?,
            )
        }
        _ => Ok(false),
    }
}

/// Whether this is what the head says.
fn is_written(alloc: Global, header: &ResponseHeader, said: &[u8]) -> Result<bool, Error> {
    let mut out = Vec::new(alloc);
    if is_http_1(header.version()) {
        push_response_head(header, &mut out)?;
    }
    Ok(out.as_slice() == said)
}

/// Whether the head comes with the last of the bytes, and not before.
fn comes_last(alloc: Global, bytes: &[u8]) -> Result<bool, Error> {
    let mut early = false;
    for len in 0..bytes.len() {
        match read_response_head(alloc, &bytes[..len])? {
            ResponseStep::NotYet => {}
            _ => early = true,
        }
    }
    Ok(!early)
}

/// Whether the bytes are refused for this.
fn is_refused(alloc: Global, received: &[u8], fault: HeadFault) -> Result<bool, Error> {
    match read_response_head(alloc, received)? {
        ResponseStep::Refused(other) => Ok(other == fault),
        _ => Ok(false),
    }
}

#[test]
fn a_head_has_256_fields_at_most(rt: HostRuntime) {
    assert_eq!(rt; reads_fields(rt.alloc(), 16, b"a:\r\n"), Ok(true));
    assert_eq!(rt; reads_fields(rt.alloc(), 17, b"a:\r\n"), Ok(true));
    assert_eq!(rt; reads_fields(rt.alloc(), 256, b"a:\r\n"), Ok(true));
    assert_eq!(rt; reads_fields(rt.alloc(), 256, b"a :\r\n"), Ok(true));
    assert_eq!(rt; reads_fields(rt.alloc(), 256, b"a:\r\n b\r\n"), Ok(true));
    assert_eq!(rt; reads_fields(rt.alloc(), 257, b"a:\r\n"), Ok(false));
    assert_eq!(rt; reads_fields(rt.alloc(), 257, b"a :\r\n"), Ok(false));
}

/// Whether a head of so many fields, each of these bytes, is accepted.
fn reads_fields(alloc: Global, count: usize, field: &[u8]) -> Result<bool, Error> {
    let mut head = Vec::new(alloc);
    head.extend_from_slice(b"HTTP/1.1 200 OK\r\n")?;
    for _ in 0..count {
        head.extend_from_slice(field)?;
    }
    head.extend_from_slice(b"\r\n")?;
    match read_response_head(alloc, head.as_slice())? {
        ResponseStep::Whole(read, _) => Ok(read.header.fields().len() == count),
        _ => Ok(false),
    }
}

#[test]
fn a_head_has_1048575_bytes_at_most(rt: HostRuntime) {
    assert_eq!(rt; is_whole(rt.alloc(), MAX_HEADER_SIZE), Ok(true));
    assert_eq!(rt; is_too_long(rt.alloc(), MAX_HEADER_SIZE), Ok(false));
    assert_eq!(rt; is_too_long(rt.alloc(), MAX_HEADER_SIZE + 1), Ok(true));
}

/// A head of so many bytes, whose phrase is long.
fn long_head(alloc: Global, len: usize) -> Result<Vec<u8>, Error> {
    let mut head = Vec::new(alloc);
    head.extend_from_slice(b"HTTP/1.1 200 ")?;
    head.resize(len.saturating_sub(4), b'a')?;
    head.extend_from_slice(b"\r\n\r\n")?;
    Ok(head)
}

fn is_whole(alloc: Global, len: usize) -> Result<bool, Error> {
    match read_response_head(alloc, long_head(alloc, len)?.as_slice())? {
        ResponseStep::Whole(_, whole) => Ok(whole == len),
        _ => Ok(false),
    }
}

fn is_too_long(alloc: Global, len: usize) -> Result<bool, Error> {
    match read_response_head(alloc, long_head(alloc, len)?.as_slice())? {
        ResponseStep::Refused(fault) => Ok(fault == HeadFault::TooLong),
        _ => Ok(false),
    }
}

#[test]
fn responses_of_1xx_but_101_are_interim(rt: HostRuntime) {
    for (status, expected) in [
        (100, true),
        (101, false),
        (102, true),
        (199, true),
        (200, false),
        (304, false),
    ] {
        assert_eq!(rt; is_interim(status), expected, "{status}");
    }
}

/// A request for the head alone, or for another protocol, a response to it, and its framing.
const FRAMED: [(bool, bool, &'static [u8], Framing); 12] = [
    (
        false,
        false,
        b"HTTP/1.1 200 OK\r\nContent-Length: 5\r\n\r\n",
        Framing::Counted(5),
    ),
    (
        false,
        false,
        b"HTTP/1.1 200 OK\r\nTransfer-Encoding: gzip, chunked\r\nContent-Length: 5\r\n\r\n",
        Framing::Chunked,
    ),
    (
        false,
        false,
        b"HTTP/1.1 200 OK\r\nTransfer-Encoding: gzip\r\nContent-Length: 5\r\n\r\n",
        Framing::UntilClose,
    ),
    (
        false,
        false,
        b"HTTP/1.1 200 OK\r\n\r\n",
        Framing::UntilClose,
    ),
    (
        false,
        false,
        b"HTTP/1.1 200 OK\r\nContent-Length: 5x\r\n\r\n",
        Framing::UntilClose,
    ),
    (
        true,
        false,
        b"HTTP/1.1 200 OK\r\nContent-Length: 5\r\n\r\n",
        Framing::Counted(0),
    ),
    (
        true,
        true,
        b"HTTP/1.1 101 Switching Protocols\r\n\r\n",
        Framing::Counted(0),
    ),
    (
        false,
        false,
        b"HTTP/1.1 204 No Content\r\nTransfer-Encoding: chunked\r\n\r\n",
        Framing::Counted(0),
    ),
    (
        false,
        true,
        b"HTTP/1.1 304 Not Modified\r\nContent-Length: 5\r\n\r\n",
        Framing::Counted(0),
    ),
    (
        false,
        true,
        b"HTTP/1.1 101 Switching Protocols\r\nContent-Length: 5\r\n\r\n",
        Framing::UntilClose,
    ),
    (
        false,
        false,
        b"HTTP/1.1 101 Switching Protocols\r\nContent-Length: 5\r\n\r\n",
        Framing::Counted(5),
    ),
    (
        false,
        true,
        b"HTTP/1.1 200 OK\r\nContent-Length: 5\r\n\r\n",
        Framing::Counted(5),
    ),
];

#[test]
fn a_response_is_framed_by_its_request_its_status_and_its_fields(rt: HostRuntime) {
    for (head_only, upgrade, head, framing) in &FRAMED {
        assert_eq!(rt;
            is_framed(rt.alloc(), *head_only, *upgrade, head, *framing),
            Ok(true),
            "{}",
            head.len()
        );
    }
}

fn is_framed(
    alloc: Global,
    head_only: bool,
    upgrade: bool,
    head: &[u8],
    framing: Framing,
) -> Result<bool, Error> {
    match read_response_head(alloc, head)? {
        ResponseStep::Whole(read, _) => Ok(
            response_framing(head_only, upgrade, &read.header) == framing,
        ),
        _ => Ok(false),
    }
}
