//! The calls of a session, each with what it tells.
use super::Timed;
use super::Told::{self, *};
use bytes::Bytes;
use futures::task::Poll;
use h1_error::{Error, YEAR_10000};
use h1_head::ResponseHeader;
use h1_server::{NoRequest, ReadRequest, Step};
use std::process::Abort;

/// Reads the head of a request.
pub(crate) fn read_head(rt: &impl Abort, timed: &mut Timed, now: u64) -> Told {
    assert!(rt; !timed.session.has_request());
    told_of_head(timed.session.poll_read_request(now))
}

/// Reads payload of the request's body.
pub(crate) fn read_body(rt: &impl Abort, timed: &mut Timed, now: u64) -> Told {
    match poll_payload(rt, timed, now) {
        Poll::Pending => Waits,
        Poll::Ready(Ok(Some(piece))) => Gives(piece.len()),
        Poll::Ready(Ok(None)) => Done,
        Poll::Ready(Err(error)) => Fails(error.kind),
    }
}

/// Reads payload of the request's body, where there is any.
pub(crate) fn payload(rt: &impl Abort, timed: &mut Timed, now: u64) -> Option<Bytes> {
    match poll_payload(rt, timed, now) {
        Poll::Ready(Ok(piece)) => piece,
        _ => None,
    }
}

fn poll_payload(
    rt: &impl Abort,
    timed: &mut Timed,
    now: u64,
) -> Poll<Result<Option<Bytes>, Error>> {
    assert!(rt; timed.session.has_request());
    timed.session.poll_read_body_bytes(now)
}

/// Reads the rest of the request's body.
pub(crate) fn drain(rt: &impl Abort, timed: &mut Timed, now: u64) -> Told {
    assert!(rt; timed.session.has_request());
    told(timed.session.poll_drain_request_body(now))
}

/// Asks whether the link may serve the next request.
pub(crate) fn reuse(rt: &impl Abort, timed: &mut Timed, now: u64) -> Told {
    assert!(rt; timed.session.has_request() && timed.session.is_free());
    told_of_reuse(timed.session.poll_reuse(now))
}

/// Begins the next request.
pub(crate) fn go_on(rt: &impl Abort, timed: &mut Timed) {
    assert!(rt; timed.session.is_reusable());
    timed.session.next_request();
}

/// Whether nothing was read of a request, no header was taken up, and no other request may follow.
pub(crate) fn is_new(timed: &Timed) -> bool {
    !timed.session.has_request() && !timed.session.is_headed() && !timed.session.is_reusable()
}

/// Hands in the final header of a reply of this length.
pub(crate) fn hand_in_header(
    rt: &(impl Abort + AllocGlobal),
    timed: &mut Timed,
    len: u64,
    now: u64,
) -> Told {
    let header = header_of(rt, len);
    assert!(rt; timed.session.has_request() && timed.session.is_free());
    assert!(rt; header.status() >= 200 && now < YEAR_10000);
    let mut header = Some(header);
    told(timed.session.poll_write_response_header(&mut header, now))
}

fn header_of(rt: &(impl Abort + AllocGlobal), len: u64) -> ResponseHeader {
    let mut header = ResponseHeader::build(rt.alloc(), 200, None).expect(rt, "a header");
    assert!(rt; header.set_content_length(len).is_ok());
    header
}

/// Goes on with the header before.
pub(crate) fn go_on_with_header(rt: &impl Abort, timed: &mut Timed, now: u64) -> Told {
    assert!(rt; timed.session.has_request() && now < YEAR_10000);
    assert!(rt; timed.session.step() == Step::Head);
    let mut none = None;
    told(timed.session.poll_write_response_header(&mut none, now))
}

/// Hands in a piece.
pub(crate) fn hand_in_piece(rt: &impl Abort, timed: &mut Timed, piece: Bytes, now: u64) -> Told {
    let mut piece = Some(piece);
    assert!(rt; timed.session.is_headed() && timed.session.is_free());
    told_of_body(timed.session.poll_write_body(&mut piece, now))
}

/// A piece of this length.
pub(crate) fn piece_of(rt: &(impl Abort + AllocGlobal), len: usize) -> Bytes {
    let bytes = vec![in rt.alloc(); b'a'; len].expect(rt, "bytes");
    Bytes::copy_from_slice(rt.alloc(), &bytes).expect(rt, "a piece")
}

/// Goes on with the piece before.
pub(crate) fn go_on_with_piece(rt: &impl Abort, timed: &mut Timed, now: u64) -> Told {
    assert!(rt; timed.session.is_headed());
    let Step::Piece(_) = timed.session.step() else {
        return Nothing;
    };
    let mut none = None;
    told_of_body(timed.session.poll_write_body(&mut none, now))
}

/// Ends the body of the reply, or goes on with its end.
pub(crate) fn end(rt: &impl Abort, timed: &mut Timed, now: u64) -> Told {
    let step = timed.session.step();
    assert!(rt; step == Step::Free || step == Step::Finish);
    told_of_body(timed.session.poll_finish_body(now))
}

/// What a read of a head tells that answered so.
fn told_of_head(answer: Poll<Result<ReadRequest, Error>>) -> Told {
    match answer {
        Poll::Pending => Waits,
        Poll::Ready(Ok(ReadRequest::Head(len))) => Gives(len),
        Poll::Ready(Ok(ReadRequest::None(NoRequest::IdleTimeout))) => Idle,
        Poll::Ready(Ok(ReadRequest::None(NoRequest::Closed))) => Closed,
        Poll::Ready(Err(error)) => Fails(error.kind),
    }
}

/// What a link tells that was asked so.
fn told_of_reuse(answer: Poll<Result<bool, Error>>) -> Told {
    match answer {
        Poll::Pending => Waits,
        Poll::Ready(Ok(true)) => Done,
        Poll::Ready(Ok(false)) => Refused,
        Poll::Ready(Err(error)) => Fails(error.kind),
    }
}

/// What a call tells that answered so.
fn told(answer: Poll<Result<(), Error>>) -> Told {
    match answer {
        Poll::Pending => Waits,
        Poll::Ready(Ok(())) => Done,
        Poll::Ready(Err(error)) => Fails(error.kind),
    }
}

/// What a call on the body of the reply tells that answered so.
fn told_of_body(answer: Poll<Result<Option<usize>, Error>>) -> Told {
    match answer {
        Poll::Pending => Waits,
        Poll::Ready(Ok(Some(len))) => Gives(len),
        Poll::Ready(Ok(None)) => Nothing,
        Poll::Ready(Err(error)) => Fails(error.kind),
    }
}
