//! The calls of a session, each with what it tells, and what its peer does.
ghost use Rattle.std.specs.Prelude.{◌≡◌};

use super::Told::{self, *};
use super::{Client, Fault, HttpSession, MemLink};
use bytes::Bytes;
use futures::task::Poll;
use h1_client::Peer;
use h1_error::Error;
use h1_head::RequestHeader;
use h1_transfer::Step;
use std::alloc::Global;
use std::process::Abort;

/// A session that is to ask the peer of key 1.
pub(crate) fn new(alloc: Global) -> Client {
    new_with(alloc, 1)
}

/// A session that is to ask the peer of this key.
pub(crate) fn new_with(alloc: Global, key: u64) -> Client {
    Client {
        session: session_of(alloc, &peer_of(key)),
        statuses: Vec::new(alloc),
        payload: Vec::new(alloc),
        fault: None,
    }
}

fn session_of(alloc: Global, peer: &Peer) -> HttpSession<MemLink> {
    HttpSession::new_with_options(alloc, MemLink::new(alloc), peer)
}

/// A peer that tolerates nothing.
pub(crate) fn peer_of(key: u64) -> Peer
    ensures { result.key ≡ key }
{
    Peer {
        key,
        allow_h1_response_invalid_content_length: false,
    }
}

/// The head of a request without a line.
pub(crate) fn head_of(
    rt: &impl Abort,
    alloc: Global,
    method: &[u8],
    target: &[u8],
) -> RequestHeader {
    RequestHeader::build(alloc, method, target, None).expect(rt, "a request")
}

/// Adds a line to the head of a request.
pub(crate) fn add_line(rt: &impl Abort, head: &mut RequestHeader, name: &[u8], value: &[u8]) {
    head.append_header(name, value).expect(rt, "a line");
}

/// Hands in the head of a request.
pub(crate) fn ask(rt: &impl Abort, client: &mut Client, head: RequestHeader, now: u64) -> Told {
    assert!(rt; client.session.outgoing().step == Step::Free);
    assert!(rt; !client.session.has_request_begun());
    let mut head = Some(head);
    let answer = client.session.poll_write_request_header(&mut head, now);
    told(client, answer)
}

/// Goes on with the head before.
pub(crate) fn go_on_asking(rt: &impl Abort, client: &mut Client, now: u64) -> Told {
    assert!(rt; client.session.outgoing().step == Step::Head);
    let mut none = None;
    let answer = client.session.poll_write_request_header(&mut none, now);
    told(client, answer)
}

/// Whether the head of a request was taken up.
pub(crate) fn has_asked(client: &Client) -> bool {
    client.session.has_request_begun()
}

/// Hands in a piece of the request's body.
pub(crate) fn hand_in(
    rt: &impl Abort,
    client: &mut Client,
    piece: &'static [u8],
    now: u64,
) -> Told {
    assert!(rt; client.session.has_request_begun());
    assert!(rt; client.session.outgoing().step == Step::Free);
    let mut piece = Some(Bytes::from_static(piece));
    let answer = client.session.poll_write_body(&mut piece, now);
    told_of_body(client, answer)
}

/// Goes on with the piece before.
pub(crate) fn go_on_with_piece(rt: &impl Abort, client: &mut Client, now: u64) -> Told {
    assert!(rt; client.session.has_request_begun());
    let Step::Piece(_) = client.session.outgoing().step else {
        return Done;
    };
    let mut none = None;
    let answer = client.session.poll_write_body(&mut none, now);
    told_of_body(client, answer)
}

/// Ends the body of the request, or goes on with its end.
pub(crate) fn finish(rt: &impl Abort, client: &mut Client, now: u64) -> Told {
    let step = client.session.outgoing().step;
    assert!(rt; client.session.has_request_begun());
    assert!(rt; step == Step::Free || step == Step::Finish);
    let answer = client.session.poll_finish_body(now);
    told_of_body(client, answer)
}

/// Whether a head of a response is still to come.
pub(crate) fn wants_head(client: &Client) -> bool {
    client.session.wants_head()
}

/// Reads the head of a response, and keeps its status.
pub(crate) fn read_head(rt: &impl Abort, client: &mut Client, now: u64) -> Told {
    assert!(rt; client.session.wants_head());
    let answer = client.session.poll_read_response(now);
    let told = told(client, answer);
    if let Gives(_) = told {
        keep_status(rt, client);
    }
    told
}

/// Keeps the status of the response that was read last.
fn keep_status(rt: &impl Abort, client: &mut Client) {
    let status = client.session.get_status().expect(rt, "a response");
    client.statuses.push(status).expect(rt, "memory");
}

/// Whether the head of the final response was read.
pub(crate) fn has_final_head(client: &Client) -> bool {
    client.session.has_final_head()
}

/// Reads a part of the final response's body, and keeps it.
pub(crate) fn read_part(rt: &impl Abort, client: &mut Client, now: u64) -> Told {
    match poll_part(rt, client, now) {
        Poll::Pending => Waits,
        Poll::Ready(Ok(Some(part))) => keep_part(rt, client, part),
        Poll::Ready(Ok(None)) => Done,
        Poll::Ready(Err(error)) => fails(client, error),
    }
}

fn poll_part(rt: &impl Abort, client: &mut Client, now: u64) -> Poll<Result<Option<Bytes>, Error>> {
    assert!(rt; client.session.has_request_begun());
    assert!(rt; client.session.has_final_head());
    client.session.poll_read_body_bytes(now)
}

fn keep_part(rt: &impl Abort, client: &mut Client, part: Bytes) -> Told {
    client
        .payload
        .extend_from_slice(part.as_slice())
        .expect(rt, "memory");
    Gives(part.len())
}

/// Whether the body of the final response ended or failed.
pub(crate) fn is_body_done(rt: &impl Abort, client: &Client) -> bool {
    assert!(rt; client.session.has_final_head());
    client.session.is_body_done()
}

/// Lets the request's body pass as it is, where the protocol changed.
pub(crate) fn pass_on(client: &mut Client) {
    client.session.maybe_upgrade_body_writer();
}

/// Whether the session gives its link for the next request.
pub(crate) fn is_reused(client: Client) -> bool {
    client.session.reuse().is_some()
}

/// Notes whether the link serves the next request, and says it.
pub(crate) fn keeps(client: &mut Client) -> bool {
    client.session.respect_keepalive();
    client.session.will_keepalive()
}

/// Whether the exchange is whole.
pub(crate) fn is_exchanged(client: &Client) -> bool {
    client.session.is_exchanged()
}

/// The peer sends these bytes.
pub(crate) fn give(rt: &impl Abort, client: &mut Client, bytes: &[u8]) {
    let given = client.session.with_link(|link| link.give(bytes));
    given.expect(rt, "memory");
}

/// The peer sends nothing more.
pub(crate) fn end(client: &mut Client) {
    client.session.with_link(|link| link.end());
}

/// The peer takes so many bytes more.
pub(crate) fn make_room(client: &mut Client, count: u64) {
    client.session.with_link(|link| link.room(count));
}

/// The peer takes nothing more, and no flush.
pub(crate) fn block(client: &mut Client) {
    client.session.with_link(|link| link.block());
}

/// The next read of the link fails.
pub(crate) fn break_reads(client: &mut Client) {
    client.session.with_link(|link| link.fail_next_read());
}

/// The bytes that the peer got.
pub(crate) fn sent(client: &Client) -> &[u8] {
    client.session.link().written()
}

/// How many bytes were flushed.
pub(crate) fn flushed(client: &Client) -> u64 {
    client.session.link().flushed()
}

/// Sets how long a read may wait.
pub(crate) fn set_read_timeout(client: &mut Client, timeout: Option<u64>) {
    client.session.set_read_timeout(timeout);
}

/// Sets how long a write may wait.
pub(crate) fn set_write_timeout(client: &mut Client, timeout: Option<u64>) {
    client.session.set_write_timeout(timeout);
}

/// What a call tells that answered so.
fn told(client: &mut Client, answer: Poll<Result<usize, Error>>) -> Told {
    match answer {
        Poll::Pending => Waits,
        Poll::Ready(Ok(len)) => Gives(len),
        Poll::Ready(Err(error)) => fails(client, error),
    }
}

/// What a call on the body of the request tells that answered so.
fn told_of_body(client: &mut Client, answer: Poll<Result<Option<usize>, Error>>) -> Told {
    match answer {
        Poll::Pending => Waits,
        Poll::Ready(Ok(Some(len))) => Gives(len),
        Poll::Ready(Ok(None)) => Done,
        Poll::Ready(Err(error)) => fails(client, error),
    }
}

/// Notes a refusal.
fn fails(client: &mut Client, error: Error) -> Told {
    client.fault = Some(Fault {
        kind: error.kind,
        retry: error.retry,
    });
    Fails(error.kind)
}
