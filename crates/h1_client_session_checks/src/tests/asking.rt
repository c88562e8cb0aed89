//! Requests on the wire (RFC 9112, section 3).
use super::Client;
use super::Told::{self, *};
use super::calls::{
    add_line, ask, block, finish, flushed, go_on_asking, go_on_with_piece, hand_in, has_asked,
    head_of, make_room, new, sent,
};
use h1_error::{ErrorType, HeadFault};
use std::process::Abort;

/// What the peer got, all of it flushed.
fn judge(rt: &impl Abort, client: &Client, wire: &[u8]) {
    assert!(rt; sent(client) == wire);
    assert_eq!(rt; flushed(client), wire.len() as u64);
}

#[test]
fn a_request_head_is_on_the_wire(rt: HostRuntime) {
    let mut client = new(rt.alloc());
    let mut head = head_of(&rt, rt.alloc(), b"GET", b"/x");
    add_line(&rt, &mut head, b"Host", b"a");
    assert_eq!(rt; ask(&rt, &mut client, head, 0), Gives(28));
    assert_eq!(rt; finish(&rt, &mut client, 0), Gives(0));
    judge(&rt, &client, b"GET /x HTTP/1.1\r\nHost: a\r\n\r\n");
}

/// The head of 19 bytes goes on, where the peer takes one byte more.
fn goes_on(rt: &impl Abort, client: &mut Client, expected: Told) {
    make_room(client, 1);
    assert_eq!(rt; go_on_asking(rt, client, 0), expected);
}

#[test]
fn a_request_head_is_written_byte_by_byte(rt: HostRuntime) {
    let mut client = new(rt.alloc());
    make_room(&mut client, 1);
    let head = head_of(&rt, rt.alloc(), b"GET", b"/x");
    assert_eq!(rt; ask(&rt, &mut client, head, 0), Waits);
    for _ in 0..17u8 {
        goes_on(&rt, &mut client, Waits);
    }
    goes_on(&rt, &mut client, Gives(19));
    judge(&rt, &client, b"GET /x HTTP/1.1\r\n\r\n");
}

#[test]
fn a_target_with_a_space_is_refused(rt: HostRuntime) {
    let mut client = new(rt.alloc());
    let head = head_of(&rt, rt.alloc(), b"GET", b"/a b");
    let fault = ErrorType::InvalidHTTPHeader(HeadFault::BadRequestLine);
    assert_eq!(rt; ask(&rt, &mut client, head, 0), Fails(fault));
    assert!(rt; !has_asked(&client));
    judge(&rt, &client, b"");
}

/// A session that wrote the head of a request with this line.
fn posted(rt: &(impl Abort + AllocGlobal), name: &[u8], value: &[u8]) -> Client {
    let mut client = new(rt.alloc());
    let mut head = head_of(rt, rt.alloc(), b"POST", b"/x");
    add_line(rt, &mut head, name, value);
    assert!(rt; matches!(ask(rt, &mut client, head, 0), Gives(_)));
    client
}

#[test]
fn a_request_body_is_written_by_its_framing(rt: HostRuntime) {
    let mut client = posted(&rt, b"Transfer-Encoding", b"chunked");
    assert_eq!(rt; hand_in(&rt, &mut client, b"abc", 0), Gives(3));
    assert_eq!(rt; finish(&rt, &mut client, 0), Gives(3));
    assert_eq!(rt; finish(&rt, &mut client, 0), Done);
    judge(
        &rt,
        &client,
        b"POST /x HTTP/1.1\r\nTransfer-Encoding: chunked\r\n\r\n3\r\nabc\r\n0\r\n\r\n",
    );
    let mut client = posted(&rt, b"Content-Length", b"2");
    assert_eq!(rt; hand_in(&rt, &mut client, b"abc", 0), Gives(2));
    assert_eq!(rt; hand_in(&rt, &mut client, b"d", 0), Done);
    assert_eq!(rt; finish(&rt, &mut client, 0), Gives(2));
    judge(
        &rt,
        &client,
        b"POST /x HTTP/1.1\r\nContent-Length: 2\r\n\r\nab",
    );
}

#[test]
fn a_request_body_that_is_short_is_refused(rt: HostRuntime) {
    let mut client = posted(&rt, b"Content-Length", b"4");
    assert_eq!(rt; hand_in(&rt, &mut client, b"abc", 0), Gives(3));
    let short = Fails(ErrorType::PrematureBodyEnd);
    assert_eq!(rt; finish(&rt, &mut client, 0), short);
}

#[test]
fn a_piece_goes_on_where_the_peer_takes_more(rt: HostRuntime) {
    let mut client = posted(&rt, b"Content-Length", b"3");
    block(&mut client);
    assert_eq!(rt; hand_in(&rt, &mut client, b"abc", 0), Waits);
    make_room(&mut client, 2);
    assert_eq!(rt; go_on_with_piece(&rt, &mut client, 0), Waits);
    make_room(&mut client, 1);
    assert_eq!(rt; go_on_with_piece(&rt, &mut client, 0), Gives(3));
    assert_eq!(rt; go_on_with_piece(&rt, &mut client, 0), Done);
}
