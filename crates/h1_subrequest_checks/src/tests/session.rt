//! A session by its head, and by what is asked of it.
use futures::task::Poll;
use h1_error::{Error, ErrorType, HeadFault};
use h1_rings::{ListRx, ListTx, OnceTx, once};
use h1_subrequest::HttpSession;
use std::alloc::Global;
use std::marker::Model;
use std::process::Abort;
use std::sync::Wait;
use std::test::*;

/// What a read of a head answers.
#[derive(Clone, Copy, Debug, PartialEq, Eq)]
enum Told {
    Whole(usize),
    Nothing,
    Refused(ErrorType),
    Waits,
}

/// A session over ends in memory. Contracts see nothing of it.
#[derive(Drop)]
struct Begun<W: Wait + Drop> {
    session: HttpSession<ListTx, ListRx, W>,
}

impl<W: Wait + Drop> Model for Begun<W> {
    ghost Value = { Unit {0} };

    ghost view = { λ _. tt };
}

/// A session with this head.
fn session_with<W: Abort + Wait + Drop>(
    rt: &W,
    alloc: Global,
    head: &str,
    told: Option<OnceTx<Error, W>>,
) -> Begun<W> {
    let session = HttpSession::with_ends(
        alloc,
        head.as_bytes(),
        ListTx::new(),
        ListRx::new(),
        None,
        told,
    );
    Begun {
        session: session.expect(rt, "memory"),
    }
}

impl<W: Wait + Drop> Begun<W> {
    /// Reads the head, once.
    fn read(&mut self) -> Told {
        if self.session.has_request() {
            return Told::Waits;
        }
        match self.session.poll_read_request(0) {
            Poll::Ready(Ok(Some(len))) => Told::Whole(len),
            Poll::Ready(Ok(None)) => Told::Nothing,
            Poll::Ready(Err(error)) => Told::Refused(error.kind),
            Poll::Pending => Told::Waits,
        }
    }

    /// Whether the body is read to its end and has no byte. Before the head nothing is asked.
    fn is_empty(&mut self) -> bool {
        self.session.has_request() && self.session.is_body_empty()
    }

    fn has(&self, name: &[u8], expected: Option<&[u8]>) -> bool {
        match (self.session.get_header(name), expected) {
            (Some(value), Some(other)) => value == other,
            (None, None) => self.session.get_header_bytes(name).is_empty(),
            _ => false,
        }
    }

    fn clear(&mut self) {
        self.session.clear_request_body_headers();
    }

    fn fail(&mut self, kind: ErrorType) {
        self.session.on_proxy_failure(Error::from(kind));
    }

    fn asks_for_upgrade(&self) -> bool {
        self.session.is_upgrade_req()
    }

    fn was_upgraded(&self) -> bool {
        self.session.was_upgraded()
    }

    fn has_written(&self) -> bool {
        self.session.response_written().is_some()
    }
}

/// The summary of the session is this.
fn is_summary<W: Abort + Wait + Drop>(rt: &W, session: &Begun<W>, expected: &str) -> bool {
    session
        .session
        .request_summary()
        .expect(rt, "memory")
        .as_str()
        == expected
}

#[test]
fn a_head_is_read_from_the_bytes_that_are_there(rt: HostRuntime) {
    let cut = Told::Refused(ErrorType::ConnectionClosed);
    let bad = Told::Refused(ErrorType::InvalidHTTPHeader(HeadFault::NotAHead));
    let rows: [(&str, Told); 5] = [
        ("", Told::Nothing),
        ("GET / HTTP/1.1\r\nHost: a\r\n\r\n", Told::Whole(27)),
        ("GET / HTTP/1.1\r\nHost: a\r\n\r\nabc", Told::Whole(27)),
        ("GET / HTTP/1.1\r\nHost: a\r\n", cut),
        ("GET\r\n\r\n", bad),
    ];
    for (head, expected) in rows {
        let mut session = session_with(&rt, rt.alloc(), head, None);
        assert_eq!(rt; session.read(), expected, "{head}");
        // A refusal comes again; a head is there once.
        let again = match expected {
            Told::Whole(_) => Told::Waits,
            other => other,
        };
        assert_eq!(rt; session.read(), again, "{head}");
    }
}

#[test]
fn a_summary_names_a_subrequest(rt: HostRuntime) {
    let mut session = session_with(
        &rt,
        rt.alloc(),
        "GET /a?b HTTP/1.1\r\nhost: c\r\n\r\n",
        None,
    );
    assert!(rt; is_summary(&rt, &session, "- , Host:  (subrequest)"));
    assert!(rt; session.has(b"Host", None));
    let _ = session.read();
    assert!(rt; is_summary(&rt, &session, "GET /a?b, Host: c (subrequest)"));
    assert!(rt; session.has(b"Host", Some(b"c")));
    assert!(rt; !session.has_written());
}

const POST: &str = "POST / HTTP/1.1\r\nHost: a\r\nContent-Length: 3\r\nContent-Type: b\r\n\r\n";

#[test]
fn a_body_is_taken_off_before_the_head_or_behind_it(rt: HostRuntime) {
    let mut session = session_with(&rt, rt.alloc(), POST, None);
    session.clear();
    let _ = session.read();
    assert!(rt; session.is_empty());
    assert!(rt; session.has(b"Content-Length", None));
    assert!(rt; session.has(b"Content-Type", None));
    assert!(rt; session.has(b"Host", Some(b"a")));

    let mut session = session_with(&rt, rt.alloc(), POST, None);
    let _ = session.read();
    assert!(rt; session.has(b"Content-Length", Some(b"3")));
    session.clear();
    assert!(rt; session.has(b"Content-Length", None));
    assert!(rt; session.is_empty());
}

#[test]
fn a_body_that_was_asked_for_stays(rt: HostRuntime) {
    let mut session = session_with(&rt, rt.alloc(), POST, None);
    let _ = session.read();
    assert!(rt; !session.is_empty());
    session.clear();
    assert!(rt; session.has(b"Content-Length", None));
    assert!(rt; !session.is_empty());
}

#[test]
fn the_first_error_of_the_proxy_alone_is_sent(rt: HostRuntime) {
    let (tx, mut rx) = once::<Error, HostRuntime>(&rt, rt.alloc()).expect(&rt, "memory");
    let mut session = session_with(&rt, rt.alloc(), POST, Some(tx));
    session.fail(ErrorType::TaskFailed(1));
    session.fail(ErrorType::TaskFailed(2));
    match rx.try_take() {
        Some(error) => assert_eq!(rt; error.kind, ErrorType::TaskFailed(1)),
        None => assert!(rt; false),
    }
    assert!(rt; rx.try_take().is_none());
}

#[test]
fn a_request_of_version_11_with_an_upgrade_line_asks_for_one(rt: HostRuntime) {
    let rows: [(&str, bool); 3] = [
        ("GET / HTTP/1.1\r\nHost: a\r\nUpgrade: b\r\n\r\n", true),
        ("GET / HTTP/1.0\r\nHost: a\r\nUpgrade: b\r\n\r\n", false),
        ("GET / HTTP/1.1\r\nHost: a\r\n\r\n", false),
    ];
    for (head, expected) in rows {
        let mut session = session_with(&rt, rt.alloc(), head, None);
        assert!(rt; !session.asks_for_upgrade(), "{head}");
        let _ = session.read();
        assert_eq!(rt; session.asks_for_upgrade(), expected, "{head}");
        assert!(rt; !session.was_upgraded(), "{head}");
    }
}
