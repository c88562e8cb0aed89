//! A server's session that reads a request with its body.
use super::{Reader, Row};
use futures::task::Poll;
use h1_head::Fields;
use h1_link::MemLink;
use h1_server::{HttpSession, ReadRequest};
use std::process::Abort;

/// A session whose peer sent these bytes, and read the request at their front with its whole body.
pub(crate) fn reader_of(rt: &(impl Abort + AllocGlobal), bytes: &[u8]) -> Reader {
    let mut link = MemLink::new(rt.alloc());
    assert!(rt; link.give(bytes).is_ok());
    let session = match HttpSession::new(rt.alloc(), link) {
        Ok(session) => session,
        Err(_) => panic!(rt; "no memory for a session"),
    };
    let mut reader = Reader {
        session,
        payload: Vec::new(rt.alloc()),
    };
    read_head(rt, &mut reader);
    for _ in 0..64u8 {
        if !read_part(rt, &mut reader) {
            break;
        }
    }
    reader
}

/// Reads the head.
fn read_head(rt: &impl Abort, reader: &mut Reader) {
    assert!(rt; !reader.session.has_request());
    match reader.session.poll_read_request(0) {
        Poll::Ready(Ok(ReadRequest::Head(_))) => {}
        _ => panic!(rt; "no head was read"),
    }
}

/// Reads a part of the body more. False where it ended.
fn read_part(rt: &impl Abort, reader: &mut Reader) -> bool {
    assert!(rt; reader.session.has_request());
    match reader.session.poll_read_body_bytes(0) {
        Poll::Ready(Ok(Some(piece))) => {
            assert!(rt; reader.payload.extend_from_slice(piece.as_slice()).is_ok());
            true
        }
        Poll::Ready(Ok(None)) => false,
        _ => panic!(rt; "the body isn't whole"),
    }
}

/// What was read is the request of the row.
pub(crate) fn meets(rt: &impl Abort, reader: &mut Reader, row: Row) {
    assert!(rt; reader.session.has_request());
    let header = reader.session.req_header();
    assert_eq!(rt; header.method().as_str().as_bytes(), row.method);
    assert_eq!(rt; header.raw_path(), row.target);
    lines_meet(rt, header.fields(), row.lines);
    assert_eq!(rt; reader.payload.as_slice(), row.payload);
}

/// These are the lines, in order.
fn lines_meet(rt: &impl Abort, fields: &Fields, lines: &'static [(&'static [u8], &'static [u8])]) {
    assert_eq!(rt; fields.len(), lines.len());
    let mut place = 0usize;
    for (name, value) in fields.iter() {
        let Some(line) = lines.get(place) else {
            panic!(rt; "a line too many");
        };
        assert_eq!(rt; name, line.0);
        assert_eq!(rt; value, line.1);
        place = place.saturating_add(1);
    }
}

/// These bytes were read, and all of them are used.
pub(crate) fn ends(rt: &impl Abort, reader: &Reader, bytes: &[u8]) {
    assert!(rt; reader.session.is_body_read());
    assert!(rt; !reader.session.has_prefix());
    assert_eq!(rt; reader.session.link().given(), bytes);
}
