//! Responses, each in one piece and byte by byte (RFC 9110, section 15.2; RFC 9112, section 6.3).
use super::End::*;
use super::ErrorType;
use super::exchange::{Row, play};
use h1_error::HeadFault;

/// A GET whose response ends by itself, and has no body.
const GET: Row<'static> = Row {
    method: b"GET",
    response: b"",
    ends: false,
    statuses: &[200],
    payload: b"",
    end: Kept,
};

fn rows<'a>() -> &'a [Row<'a>] {
    &ROWS
}

static ROWS: [Row<'static>; 16] = [
    Row {
        response: b"HTTP/1.1 200 OK\r\nContent-Length: 2\r\n\r\nok",
        payload: b"ok",
        ..GET
    },
    Row {
        response: b"HTTP/1.1 200 OK\r\nContent-Length: 0\r\n\r\n",
        payload: b"",
        ..GET
    },
    Row {
        response: b"HTTP/1.1 200 OK\r\nTransfer-Encoding: chunked\r\n\r\n3\r\nabc\r\n0\r\n\r\n",
        payload: b"abc",
        ..GET
    },
    Row {
        statuses: &[100, 200],
        response: b"HTTP/1.1 100 Continue\r\n\r\nHTTP/1.1 200 OK\r\nContent-Length: 0\r\n\r\n",
        payload: b"",
        ..GET
    },
    Row {
        statuses: &[100, 103, 200],
        response: b"HTTP/1.1 100 Continue\r\n\r\nHTTP/1.1 103 Early Hints\r\nLink: a\r\n\r\n\
            HTTP/1.1 200 OK\r\nContent-Length: 2\r\n\r\nok",
        payload: b"ok",
        ..GET
    },
    Row {
        method: b"HEAD",
        response: b"HTTP/1.1 200 OK\r\nContent-Length: 5\r\n\r\n",
        payload: b"",
        ..GET
    },
    Row {
        statuses: &[204],
        response: b"HTTP/1.1 204 No Content\r\n\r\n",
        payload: b"",
        ..GET
    },
    Row {
        statuses: &[304],
        response: b"HTTP/1.1 304 Not Modified\r\nContent-Length: 5\r\n\r\n",
        payload: b"",
        ..GET
    },
    Row {
        ends: true,
        end: Closed,
        response: b"HTTP/1.1 200 OK\r\n\r\nabc",
        payload: b"abc",
        ..GET
    },
    Row {
        end: Waits,
        response: b"HTTP/1.1 200 OK\r\n\r\nabc",
        payload: b"abc",
        ..GET
    },
    Row {
        end: Closed,
        response: b"HTTP/1.1 200 OK\r\nConnection: close\r\nContent-Length: 2\r\n\r\nok",
        payload: b"ok",
        ..GET
    },
    Row {
        ends: true,
        end: Fails(ErrorType::ConnectionClosed, false),
        response: b"HTTP/1.1 200 OK\r\nContent-Length: 3\r\n\r\nok",
        payload: b"ok",
        ..GET
    },
    Row {
        statuses: &[503],
        end: Fails(ErrorType::InvalidBody, false),
        response: b"HTTP/1.1 503 Service Unavailable\r\nTransfer-Encoding: chunked\r\n\r\nZZ\r\n",
        payload: b"",
        ..GET
    },
    Row {
        statuses: &[],
        ends: true,
        end: Fails(ErrorType::ConnectionClosed, true),
        response: b"HTTP/1.1 200 OK\r\n",
        payload: b"",
        ..GET
    },
    Row {
        statuses: &[],
        end: Fails(
            ErrorType::InvalidHTTPHeader(HeadFault::BadContentLength),
            false,
        ),
        response: b"HTTP/1.1 200 OK\r\nContent-Length: 3, 4\r\n\r\n",
        payload: b"",
        ..GET
    },
    Row {
        statuses: &[],
        end: Fails(ErrorType::InvalidHTTPHeader(HeadFault::NotAHead), false),
        response: b"HTTX\r\n\r\n",
        payload: b"",
        ..GET
    },
];

#[test]
fn responses_are_read_in_one_piece_and_byte_by_byte(rt: HostRuntime) {
    for row in rows() {
        for size in [4096, 1] {
            play(&rt, rt.alloc(), *row, size);
        }
    }
}
