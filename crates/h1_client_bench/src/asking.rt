//! Exchanges over one link, one behind the other.
use crate::flow::Flow;
use futures::task::Poll;
use h1_asking::{ask, finish, read_piece, read_response};
use h1_client::v1::HttpSession;
use h1_client::{IdleLink, Peer};
use h1_error::Error;
use h1_head::RequestHeader;
use std::alloc::Global;

/// So often a call is made at most that waits.
const MOST_POLLS: u32 = 1_000_000;

/// A request of three fields.
fn request(alloc: Global) -> Result<RequestHeader, Error> {
    let mut head = RequestHeader::build(alloc, b"GET", b"/news/today", Some(3))?;
    head.append_header(b"Host", b"www.example.org")?;
    head.append_header(b"User-Agent", b"client/1.0")?;
    head.append_header(b"Accept", b"*/*")?;
    Ok(head)
}

/// Writes the request and reads the response, and says how many bytes its body has.
fn exchange(session: &mut HttpSession<Flow>, head: RequestHeader) -> usize {
    let mut head = Some(head);
    for _ in 0..MOST_POLLS {
        if let Poll::Ready(_) = ask(session, &mut head, 0) {
            break;
        }
    }
    for _ in 0..MOST_POLLS {
        if let Poll::Ready(_) = finish(session, 0) {
            break;
        }
    }
    for _ in 0..MOST_POLLS {
        if let Poll::Ready(_) = read_response(session, 0) {
            break;
        }
    }
    body_len(session)
}

/// Reads the body to its end.
fn body_len(session: &mut HttpSession<Flow>) -> usize {
    let mut length = 0usize;
    for _ in 0..MOST_POLLS {
        match read_piece(session, 0) {
            Poll::Ready(Ok(Some(piece))) => length = length.saturating_add(piece.len()),
            Poll::Ready(_) => break,
            Poll::Pending => {}
        }
    }
    length
}

/// Asks so often over a link that gives the response each time, and says how many bytes the bodies
/// have in all; None where the link isn't kept. The request is made anew each time, or once.
pub(crate) fn ask_often(
    alloc: Global,
    response: Vec<u8>,
    count: usize,
    is_anew: bool,
) -> Result<Option<usize>, Error> {
    let peer = Peer {
        key: 1,
        allow_h1_response_invalid_content_length: false,
    };
    let asked = request(alloc)?;
    let mut session = HttpSession::new(alloc, Flow::new(response, count));
    let mut length = 0usize;
    for _ in 0..count {
        let head = if is_anew {
            request(alloc)?
        } else {
            asked.copy()?
        };
        length = length.saturating_add(exchange(&mut session, head));
        session.respect_keepalive();
        let Some(idle) = IdleLink::from_session(session, None, 0) else {
            return Ok(None);
        };
        session = idle.into_session(alloc, &peer);
    }
    Ok(Some(length))
}
