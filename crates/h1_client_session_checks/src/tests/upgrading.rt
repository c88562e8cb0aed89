//! The body of a request behind a change of the protocol (RFC 9110, section 7.8).
use super::Client;
use super::Told::*;
use super::calls::{
    add_line, ask, finish, give, hand_in, head_of, is_body_done, is_reused, keeps, new, pass_on,
    read_head, read_part, sent,
};
use h1_head::RequestHeader;
use std::process::Abort;

static SWITCHES: &[u8] = b"HTTP/1.1 101 Switching Protocols\r\nUpgrade: x\r\n\r\nhi";

/// A request of chunks, which asks for another protocol or doesn't, the response to it, and the
/// bytes of the request with a piece behind the response.
#[derive(Clone, Copy)]
struct Row {
    upgrade: bool,
    response: &'static [u8],
    wire: &'static [u8],
}

static ROWS: [Row; 4] = [
    Row {
        upgrade: true,
        response: b"HTTP/1.1 101 Switching Protocols\r\n\r\n",
        wire: b"POST /x HTTP/1.1\r\nTransfer-Encoding: chunked\r\nUpgrade: x\r\n\r\nabc",
    },
    Row {
        upgrade: true,
        response: b"HTTP/1.1 200 OK\r\nContent-Length: 0\r\n\r\n",
        wire: b"POST /x HTTP/1.1\r\nTransfer-Encoding: chunked\r\nUpgrade: x\r\n\r\n3\r\nabc\r\n",
    },
    Row {
        upgrade: true,
        response: b"HTTP/1.0 101 Switching Protocols\r\n\r\n",
        wire: b"POST /x HTTP/1.1\r\nTransfer-Encoding: chunked\r\nUpgrade: x\r\n\r\n3\r\nabc\r\n",
    },
    Row {
        upgrade: false,
        response: b"HTTP/1.1 101 Switching Protocols\r\n\r\n",
        wire: b"POST /x HTTP/1.1\r\nTransfer-Encoding: chunked\r\n\r\n3\r\nabc\r\n",
    },
];

/// A session that wrote this head, and read that of this response.
fn answered(rt: &(impl Abort + AllocGlobal), head: RequestHeader, response: &[u8]) -> Client {
    let mut client = new(rt.alloc());
    assert!(rt; matches!(ask(rt, &mut client, head, 0), Gives(_)));
    give(rt, &mut client, response);
    assert!(rt; matches!(read_head(rt, &mut client, 0), Gives(_)));
    client
}

/// The same with the request of this row.
fn posted(rt: &(impl Abort + AllocGlobal), row: Row) -> Client {
    let mut head = head_of(rt, rt.alloc(), b"POST", b"/x");
    add_line(rt, &mut head, b"Transfer-Encoding", b"chunked");
    if row.upgrade {
        add_line(rt, &mut head, b"Upgrade", b"x");
    }
    answered(rt, head, row.response)
}

#[test]
fn a_body_passes_as_it_is_only_behind_a_change_of_protocol(rt: HostRuntime) {
    for row in ROWS {
        let mut client = posted(&rt, row);
        pass_on(&mut client);
        assert_eq!(rt; hand_in(&rt, &mut client, b"abc", 0), Gives(3));
        assert!(rt; sent(&client) == row.wire);
    }
}

/// A session whose request without a body changed the protocol.
fn switched(rt: &(impl Abort + AllocGlobal)) -> Client {
    let mut head = head_of(rt, rt.alloc(), b"GET", b"/x");
    add_line(rt, &mut head, b"Upgrade", b"x");
    answered(rt, head, SWITCHES)
}

/// A piece is taken up whole.
fn takes(rt: &impl Abort, client: &mut Client, piece: &'static [u8]) {
    assert_eq!(rt; hand_in(rt, client, piece, 0), Gives(piece.len()));
}

/// What the peer got, and what was read of it.
fn judge(rt: &impl Abort, client: &Client, wire: &[u8], payload: &[u8]) {
    assert!(rt; sent(client) == wire);
    assert!(rt; client.payload.as_slice() == payload);
}

#[test]
fn bytes_pass_both_ways_until_the_request_ends(rt: HostRuntime) {
    let mut client = switched(&rt);
    assert_eq!(rt; hand_in(&rt, &mut client, b"no", 0), Done);
    pass_on(&mut client);
    takes(&rt, &mut client, b"0\r\n");
    assert_eq!(rt; read_part(&rt, &mut client, 0), Gives(2));
    // A body that passes already stays as it is, with its count.
    pass_on(&mut client);
    takes(&rt, &mut client, b"\r\n");
    assert!(rt; !is_body_done(&rt, &client));
    assert_eq!(rt; finish(&rt, &mut client, 0), Gives(5));
    assert!(rt; is_body_done(&rt, &client));
    give(&rt, &mut client, b"late");
    assert_eq!(rt; read_part(&rt, &mut client, 0), Done);
    judge(
        &rt,
        &client,
        b"GET /x HTTP/1.1\r\nUpgrade: x\r\n\r\n0\r\n\r\n",
        b"hi",
    );
}

#[test]
fn no_link_is_given_behind_a_change_of_protocol(rt: HostRuntime) {
    let mut client = switched(&rt);
    pass_on(&mut client);
    assert_eq!(rt; finish(&rt, &mut client, 0), Gives(0));
    assert!(rt; is_body_done(&rt, &client));
    assert!(rt; !keeps(&mut client));
    assert!(rt; !is_reused(client));
}

#[test]
fn a_response_goes_on_where_the_request_kept_its_framing(rt: HostRuntime) {
    let mut client = switched(&rt);
    assert_eq!(rt; finish(&rt, &mut client, 0), Gives(0));
    assert!(rt; !is_body_done(&rt, &client));
    assert_eq!(rt; read_part(&rt, &mut client, 0), Gives(2));
    assert_eq!(rt; read_part(&rt, &mut client, 0), Waits);
}
