//! Heads that are read, by example.
use super::head_rows::{accepted, refused};
use super::requests::{add_host, authority_fault, bare};
use h1_error::{ErrorType, HeadFault};
use h1_head::{HeadSearch, HeadStep, RequestHead, read_request_head, search_request_head};
use std::alloc::Global;
use std::marker::Model;
use std::process::Abort;

/// A head that was read, of which contracts see nothing, and its length.
#[derive(Drop)]
struct Whole {
    read: RequestHead,
    len: usize,
}

impl Model for Whole {
    ghost Value = { Unit {0} };

    ghost view = { λ _. tt };
}

/// The head at the front of the bytes.
fn head_of(rt: &impl Abort, alloc: Global, bytes: &[u8]) -> Whole {
    match read_request_head(alloc, bytes).expect(rt, "memory") {
        HeadStep::Whole(read, len) => Whole { read, len },
        _ => panic!(rt; "the head is accepted: {bytes:?}"),
    }
}

/// The same by a search.
fn search_of(rt: &impl Abort, alloc: Global, bytes: &[u8]) -> Whole {
    let mut search = HeadSearch::new();
    match search_request_head(alloc, &mut search, bytes).expect(rt, "memory") {
        HeadStep::Whole(read, len) => Whole { read, len },
        _ => panic!(rt; "the head is accepted: {bytes:?}"),
    }
}

/// Whether no head at the front of the bytes is judged.
fn is_not_yet(rt: &impl Abort, alloc: Global, bytes: &[u8]) -> bool {
    matches!(
        read_request_head(alloc, bytes).expect(rt, "memory"),
        HeadStep::NotYet
    )
}

/// The fault of a refused head at the front of the bytes.
fn fault_of(rt: &impl Abort, alloc: Global, bytes: &[u8]) -> Option<HeadFault> {
    match read_request_head(alloc, bytes).expect(rt, "memory") {
        HeadStep::Refused(fault) => Some(fault),
        _ => None,
    }
}

fn target(whole: &Whole) -> &[u8] {
    whole.read.header.raw_path()
}

fn count_fields(whole: &Whole) -> usize {
    whole.read.header.fields().len()
}

/// How many bytes are held of the head.
fn count_held(whole: &Whole) -> usize {
    whole.read.raw.len()
}

/// Whether lengths went.
fn has_both(whole: &Whole) -> bool {
    whole.read.both
}

fn wishes_keep_alive(whole: &Whole) -> bool {
    whole.read.header.wishes_keep_alive(whole.read.both)
}

#[test]
fn a_head_is_read_once_it_is_there(rt: HostRuntime) {
    let bytes = b"GET /a b HTTP/1.1\r\nHost: a\r\n\r\nrest";
    assert!(rt; is_not_yet(&rt, rt.alloc(), &bytes[..20]));
    let head = search_of(&rt, rt.alloc(), bytes);
    assert_eq!(rt; head.len, 30);
    assert_eq!(rt; target(&head), b"/a%20b".as_slice());
    assert_eq!(rt; count_held(&head), 32);
    assert!(rt; wishes_keep_alive(&head));
}

#[test]
fn content_length_beside_transfer_encoding_goes(rt: HostRuntime) {
    let bytes = b"POST / HTTP/1.1\r\nContent-Length: x\r\nTransfer-Encoding: a,, Chunked,\r\n\r\n";
    let head = head_of(&rt, rt.alloc(), bytes);
    assert!(rt; has_both(&head));
    assert_eq!(rt; count_fields(&head), 1);
    assert!(rt; !wishes_keep_alive(&head));
}

/// No front of a head is judged, from no byte of it to all of its bytes but the last.
fn is_unread_in_front(rt: &impl Abort, alloc: Global, head: &[u8]) {
    for cut in 0..head.len() {
        assert!(rt; is_not_yet(rt, alloc, &head[..cut]), "{head:?}");
    }
}

/// A head, and the next one after it.
fn followed(rt: &impl Abort, alloc: Global, head: &[u8]) -> Vec<u8> {
    let mut all = Vec::new(alloc);
    all.extend_from_slice(head).expect(rt, "memory");
    all.extend_from_slice(b"GET /a b HTTP/1.1\r\n\r\n")
        .expect(rt, "memory");
    all
}

/// The head at the front of the bytes has this length, this target, so many fields, and lengths
/// went or not.
fn accepts(rt: &impl Abort, alloc: Global, bytes: &[u8], expected: (usize, &[u8], usize, bool)) {
    let head = head_of(rt, alloc, bytes);
    let read = (
        head.len,
        target(&head),
        count_fields(&head),
        has_both(&head),
    );
    assert_eq!(rt; read, expected, "{bytes:?}");
}

#[test]
fn an_accepted_head_is_read_once_it_is_there(rt: HostRuntime) {
    for &(head, target, fields, both) in accepted() {
        is_unread_in_front(&rt, rt.alloc(), head);
        let expected = (head.len(), target, fields, both);
        accepts(&rt, rt.alloc(), head, expected);
        let all = followed(&rt, rt.alloc(), head);
        accepts(&rt, rt.alloc(), &all, expected);
    }
}

#[test]
fn a_head_is_refused_with_its_first_fault(rt: HostRuntime) {
    for &(head, fault) in refused() {
        is_unread_in_front(&rt, rt.alloc(), head);
        assert_eq!(rt; fault_of(&rt, rt.alloc(), head), Some(fault), "{head:?}");
        let all = followed(&rt, rt.alloc(), head);
        assert_eq!(rt; fault_of(&rt, rt.alloc(), &all), Some(fault), "{head:?}");
    }
}

/// A head with so many fields.
fn of_fields(rt: &impl Abort, alloc: Global, count: usize) -> Vec<u8> {
    let mut head = Vec::new(alloc);
    head.extend_from_slice(b"GET / HTTP/1.1\r\n")
        .expect(rt, "memory");
    for _ in 0..count {
        head.extend_from_slice(b"a:\r\n").expect(rt, "memory");
    }
    head.extend_from_slice(b"\r\n").expect(rt, "memory");
    head
}

#[test]
fn a_head_has_at_most_256_fields(rt: HostRuntime) {
    let most = of_fields(&rt, rt.alloc(), 256);
    assert_eq!(rt; count_fields(&head_of(&rt, rt.alloc(), &most)), 256);
    let more = of_fields(&rt, rt.alloc(), 257);
    assert_eq!(rt; fault_of(&rt, rt.alloc(), &more), Some(HeadFault::NotAHead));
}

#[test]
fn a_connect_may_name_the_host_of_its_target(rt: HostRuntime) {
    let mut same = bare(&rt, rt.alloc(), b"CONNECT", b"a%2f.example:443");
    add_host(&rt, &mut same, b"a%2f.example:443");
    assert_eq!(rt; authority_fault(&same), None);
    let mut other = bare(&rt, rt.alloc(), b"CONNECT", b"a%2f.example:443");
    add_host(&rt, &mut other, b"other.example");
    assert_eq!(rt;
        authority_fault(&other),
        Some(ErrorType::InvalidHTTPHeader(HeadFault::ConnectHostDiffers))
    );
}
