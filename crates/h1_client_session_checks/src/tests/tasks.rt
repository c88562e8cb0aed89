//! Responses read as tasks, and payload that is lent (RFC 9110, sections 7.8 and 15.2; RFC 9112,
//! sections 4 and 6).
use self::Part::*;
use futures::task::Poll;
use h1_client::v1::HttpSession;
use h1_error::{Error, ErrorType, HeadFault};
use h1_head::{HttpTask, RequestHeader};
use h1_link::MemLink;
use h1_transfer::Step;
use std::alloc::Global;
use std::marker::Model;
use std::process::Abort;

/// A session that wrote a request. Contracts see nothing of it.
#[derive(Drop)]
struct Asking {
    session: HttpSession<MemLink>,
}

impl Model for Asking {
    ghost Value = { Unit {0} };

    ghost view = { λ _. tt };
}

/// What a read of a task is to answer.
#[derive(Clone, Copy, Debug, PartialEq, Eq)]
enum Part {
    Header(u16, bool),
    Body(&'static [u8], bool),
    Upgraded(&'static [u8], bool),
    Done,
    Fails(ErrorType, bool),
    Waits,
}

/// An exchange: whether the request asks for another protocol, the bytes of the responses, whether
/// the link ends behind them, and what is read.
#[derive(Clone, Copy)]
struct Row {
    upgrade: bool,
    response: &'static [u8],
    ends: bool,
    parts: &'static [Part],
}

static ROWS: [Row; 11] = [
    Row {
        upgrade: false,
        response: b"HTTP/1.1 100 Continue\r\n\r\nHTTP/1.1 200 OK\r\nContent-Length: 0\r\n\r\n",
        ends: false,
        parts: &[Header(100, false), Header(200, true), Done, Done],
    },
    Row {
        upgrade: false,
        response: b"HTTP/1.1 503 Service Unavailable\r\nTransfer-Encoding: chunked\r\n\r\nZZ\r\n",
        ends: false,
        parts: &[
            Header(503, false),
            Fails(ErrorType::InvalidBody, false),
            Fails(ErrorType::InvalidBody, false),
        ],
    },
    Row {
        upgrade: false,
        response: b"HTTP/1.1 200 OK\r\nContent-Length: 2\r\n\r\nok",
        ends: false,
        parts: &[Header(200, false), Body(b"ok", true), Done],
    },
    Row {
        upgrade: false,
        response: b"HTTP/1.1 200 OK\r\nTransfer-Encoding: chunked\r\n\r\n3\r\nabc\r\n2\r\nde\r\n0\r\n\r\n",
        ends: false,
        parts: &[
            Header(200, false),
            Body(b"abc", false),
            Body(b"de", false),
            Done,
        ],
    },
    Row {
        upgrade: false,
        response: b"HTTP/1.1 200 OK\r\n\r\nabc",
        ends: true,
        parts: &[Header(200, false), Body(b"abc", false), Done, Done],
    },
    Row {
        upgrade: false,
        response: b"HTTP/1.1 200 OK\r\n\r\nabc",
        ends: false,
        parts: &[Header(200, false), Body(b"abc", false), Waits],
    },
    Row {
        upgrade: false,
        response: b"HTTP/1.1 200 OK\r\nContent-Length: 3\r\n\r\nok",
        ends: true,
        parts: &[
            Header(200, false),
            Body(b"ok", false),
            Fails(ErrorType::ConnectionClosed, false),
            Fails(ErrorType::ConnectionClosed, false),
        ],
    },
    Row {
        upgrade: true,
        response: b"HTTP/1.1 101 Switching Protocols\r\nUpgrade: x\r\n\r\nhi",
        ends: false,
        parts: &[Header(101, false), Upgraded(b"hi", false), Waits],
    },
    Row {
        upgrade: true,
        response: b"HTTP/1.1 200 OK\r\nContent-Length: 2\r\n\r\nhi",
        ends: false,
        parts: &[Header(200, false), Body(b"hi", true), Done],
    },
    Row {
        upgrade: false,
        response: b"HTTX\r\n\r\n",
        ends: false,
        parts: &[
            Fails(ErrorType::InvalidHTTPHeader(HeadFault::NotAHead), false),
            Fails(ErrorType::InvalidHTTPHeader(HeadFault::NotAHead), false),
        ],
    },
    Row {
        upgrade: false,
        response: b"",
        ends: true,
        parts: &[Fails(ErrorType::ConnectionClosed, true)],
    },
];

/// A request, which asks for another protocol, or doesn't.
fn head_of(alloc: Global, upgrade: bool) -> Result<RequestHeader, Error> {
    let mut head = RequestHeader::build(alloc, b"GET", b"/x", None)?;
    if upgrade {
        head.append_header(b"Upgrade", b"x")?;
    }
    Ok(head)
}

/// Writes the head of a request.
fn ask(asking: &mut Asking, head: RequestHeader) {
    if asking.session.outgoing().step == Step::Free && !asking.session.has_request_begun() {
        let _told = asking.session.poll_write_request_header(&mut Some(head), 0);
    }
}

/// The peer sends these bytes.
fn receive(asking: &mut Asking, bytes: &[u8]) -> bool {
    asking.session.with_link(|link| link.give(bytes)).is_ok()
}

/// The peer sends no further byte.
fn end(asking: &mut Asking) {
    asking.session.with_link(|link| link.end());
}

/// A session that asked, and whose peer sent these bytes.
fn asked(rt: &(impl Abort + AllocGlobal), upgrade: bool, response: &[u8]) -> Asking {
    let mut asking = Asking {
        session: HttpSession::new(rt.alloc(), MemLink::new(rt.alloc())),
    };
    let Ok(head) = head_of(rt.alloc(), upgrade) else {
        panic!(rt; "there is memory for a head");
    };
    ask(&mut asking, head);
    assert!(rt; receive(&mut asking, response));
    asking
}

/// Whether a read of a task answers so.
fn reads(asking: &mut Asking, part: Part) -> bool {
    if !asking.session.has_request_begun() {
        return false;
    }
    match (asking.session.poll_read_response_task(0), part) {
        (Poll::Ready(Ok(task)), part) => is_part(&task, part),
        (Poll::Ready(Err(error)), Fails(kind, retry)) => error.kind == kind && error.retry == retry,
        (Poll::Pending, Waits) => true,
        _ => false,
    }
}

fn is_part(task: &HttpTask, part: Part) -> bool {
    match (task, part) {
        (HttpTask::Header(head, end), Header(status, done)) => {
            head.status() == status && *end == done
        }
        (HttpTask::Body(Some(piece), end), Body(bytes, done)) => {
            piece.as_slice() == bytes && *end == done
        }
        (HttpTask::UpgradedBody(Some(piece), end), Upgraded(bytes, done)) => {
            piece.as_slice() == bytes && *end == done
        }
        (HttpTask::Done, Done) => true,
        _ => false,
    }
}

fn play(rt: &(impl Abort + AllocGlobal), row: Row) {
    let mut asking = asked(rt, row.upgrade, row.response);
    if row.ends {
        end(&mut asking);
    }
    for part in row.parts {
        assert!(rt; reads(&mut asking, *part), "{part:?}");
    }
}

#[test]
fn responses_are_read_as_tasks(rt: HostRuntime) {
    for row in ROWS {
        play(&rt, row);
    }
}

/// Whether a read that lends payload answers these bytes, or the end.
fn lends(asking: &mut Asking, bytes: Option<&[u8]>) -> bool {
    if !asking.session.has_request_begun() || !asking.session.has_final_head() {
        return false;
    }
    match asking.session.poll_read_body_ref(0) {
        Poll::Ready(Ok(lent)) => lent == bytes,
        _ => false,
    }
}

/// How much payload was received.
fn count(asking: &Asking) -> u64 {
    asking.session.body_bytes_received()
}

#[test]
fn payload_is_lent_and_counted(rt: HostRuntime) {
    let mut asking = asked(
        &rt,
        false,
        b"HTTP/1.1 200 OK\r\nTransfer-Encoding: chunked\r\n\r\n2\r\nab\r\n",
    );
    assert!(rt; reads(&mut asking, Header(200, false)));
    assert_eq!(rt; count(&asking), 0);
    assert!(rt; lends(&mut asking, Some(b"ab")));
    assert_eq!(rt; count(&asking), 2);
    assert!(rt; receive(&mut asking, b"3\r\ncde\r\n0\r\n\r\n"));
    assert!(rt; lends(&mut asking, Some(b"cde")));
    assert_eq!(rt; count(&asking), 5);
    assert!(rt; lends(&mut asking, None));
    assert_eq!(rt; count(&asking), 5);
}
