//! Whole exchanges.
use super::Told::Gives;
use super::calls::{
    ask, end, finish, give, has_final_head, head_of, is_body_done, is_exchanged, keeps, new,
    read_head, read_part, wants_head,
};
use super::{Client, End, Fault};
use std::alloc::Global;
use std::process::Abort;

/// An exchange: what is sent to the client, and what it reads.
#[derive(Clone, Copy)]
pub(crate) struct Row<'a> {
    pub method: &'a [u8],
    /// The bytes of the responses, and whether the link ends behind them.
    pub response: &'a [u8],
    pub ends: bool,
    pub statuses: &'a [u16],
    pub payload: &'a [u8],
    pub end: End,
}

/// A session that wrote a request with this method and no body.
pub(crate) fn client_of(rt: &impl Abort, alloc: Global, method: &[u8]) -> Client {
    asked(rt, alloc, new(alloc), method)
}

/// The same of this session.
pub(crate) fn asked(rt: &impl Abort, alloc: Global, client: Client, method: &[u8]) -> Client {
    let mut client = client;
    let head = head_of(rt, alloc, method, b"/x");
    ask(rt, &mut client, head, 0);
    finish(rt, &mut client, 0);
    client
}

/// Reads what is there: heads, and then a body.
fn read_on(rt: &impl Abort, client: &mut Client) {
    for _ in 0..8u8 {
        if !goes_on_with_heads(rt, client) {
            break;
        }
    }
    for _ in 0..64u8 {
        if !goes_on_with_body(rt, client) {
            break;
        }
    }
}

/// Reads one head more, where one is wanted: whether it came.
fn goes_on_with_heads(rt: &impl Abort, client: &mut Client) -> bool {
    if !wants_head(client) {
        return false;
    }
    matches!(read_head(rt, client, 0), Gives(_))
}

/// Reads a part of the body more, where there is one: whether it came.
fn goes_on_with_body(rt: &impl Abort, client: &mut Client) -> bool {
    if !has_final_head(client) {
        return false;
    }
    matches!(read_part(rt, client, 0), Gives(_))
}

/// The peer sends so many bytes of these at a time, and the client reads.
pub(crate) fn receive(rt: &impl Abort, client: &mut Client, bytes: &[u8], size: usize) {
    let mut left = bytes;
    for _ in 0..bytes.len() {
        let Some((piece, rest)) = left.split_at_checked(size.min(left.len())) else {
            break;
        };
        give(rt, client, piece);
        left = rest;
        read_on(rt, client);
    }
}

/// The peer ends the link, and the client reads.
fn close(rt: &impl Abort, client: &mut Client) {
    end(client);
    read_on(rt, client);
}

/// What came of the exchange.
pub(crate) fn end_of(rt: &impl Abort, client: &mut Client) -> End {
    if let Some(Fault { kind, retry }) = client.fault {
        return End::Fails(kind, retry);
    }
    if !has_final_head(client) || !is_body_done(rt, client) {
        return End::Waits;
    }
    if keeps(client) {
        End::Kept
    } else {
        End::Closed
    }
}

/// Plays a row with a session of its own, so many bytes at a time.
pub(crate) fn play(rt: &impl Abort, alloc: Global, row: Row<'_>, size: usize) {
    let mut client = client_of(rt, alloc, row.method);
    receive(rt, &mut client, row.response, size);
    if row.ends {
        close(rt, &mut client);
    }
    judge(rt, &mut client, row);
}

/// Whether these statuses were read.
fn has_statuses(client: &Client, statuses: &[u16]) -> bool {
    client.statuses.as_slice() == statuses
}

/// Whether this payload was read.
fn has_payload(client: &Client, payload: &[u8]) -> bool {
    client.payload.as_slice() == payload
}

/// Whether the link may serve the next request.
fn is_kept(client: &Client) -> bool {
    is_exchanged(client) && client.session.will_keepalive()
}

/// Judges what came of it: the link is given back exactly where it is kept.
fn judge(rt: &impl Abort, client: &mut Client, row: Row<'_>) {
    assert!(rt; has_statuses(client, row.statuses));
    assert!(rt; has_payload(client, row.payload));
    assert_eq!(rt; end_of(rt, client), row.end);
    assert_eq!(rt; is_kept(client), row.end == End::Kept);
}
