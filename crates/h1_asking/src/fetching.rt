//! One request and the response to it.
ghost use Rattle.std.specs.Prelude.{◌≡◌, ℕ, List, [], Option, Some, None, OnOk, IfOk, IfErr};
ghost use Rattle.std.specs.Option.{option_map};
ghost use Rattle.h1_client.specs.ClientView.{request_of, response_of};
ghost use Rattle.h1_client.specs.Words.{RequestView, ResponseView, begun, framing};
ghost use Rattle.h1_asking.specs.Fetching.{Connects, Exchanges, Fetches, FetchFault, IsFaultOf, NoSession};
ghost use Rattle.h1_asking.specs.Reading.{Counts, ReadsSoFar, ReadsWhole, Unread, count_of};
ghost use Rattle.h1_asking.specs.Writing.{HasPut, IsFlushed, Takes, bytes_behind, writer_behind};

use crate::turns::{ask, finish, read_piece, read_response, write_piece};
use bytes::Bytes;
use futures::task::Poll;
use h1_client::v1::HttpSession;
use h1_client::{Connector, Peer};
use h1_error::{Error, ErrorType};
use h1_head::RequestHeader;
use h1_link::{Clock, Dialer, Link};
use std::sync::Wait;

/// How long a read or a write may wait without bytes, and a link stand idle, in milliseconds.
pub const TIMEOUT: u64 = 60_000;

/// How often a call is made at most that waits.
pub const MOST_POLLS: u32 = 1_000_000;

/// What came for a request.
#[derive(Clone, Copy, Debug, PartialEq, Eq)]
pub struct Fetched {
    pub status: u16,
    /// How many bytes of payload the response has; it stops at 2^64 - 1.
    pub length: u64,
    /// The link had served a request before.
    pub is_reused: bool,
    /// The link is kept for the next request.
    pub is_kept: bool,
}

/// The status of a response, and how many bytes of payload its body has.
#[derive(Clone, Copy, Debug, PartialEq, Eq)]
pub(crate) struct Came {
    pub status: u16,
    pub length: u64,
}

/// Whether more of a body may come.
#[derive(Clone, Copy, Debug, PartialEq, Eq)]
pub(crate) enum Part {
    More,
    End,
}

/// Why nothing came for a request.
#[derive(Clone, Copy, Debug, PartialEq, Eq)]
pub enum Fault {
    /// There was no memory.
    Memory,
    /// The server can't be reached.
    Server(Error),
    /// The request could not be written, or no response to it be read.
    Response(Error),
}

/// Asks once, with a body that is handed in whole, reads the response to its end, and keeps the link
/// where both sides keep it. The head is the caller's: what it states of the body's length or coding
/// decides how the body is written, and bytes beyond a stated length are left out.
pub fn fetch<R: Wait, D: Dialer, T: Clock>(
    rt: &R,
    connector: &Connector<D::Link>,
    dialer: &mut D,
    clock: &mut T,
    peer: &Peer,
    head: RequestHeader,
    body: Option<Bytes>,
) -> Result<Fetched, Fault>
    ensures ok { IfOk result
        (Fetches D.Link.state D.state peer.now head body dialer.old dialer.new) }
    ensures err { IfErr result
        (FetchFault D.Link.state D.state peer.now dialer.old dialer.new) }
{
    let (mut session, is_reused) = match connect(rt, connector, dialer, clock, peer) {
        Ok(handed) => handed,
        Err(error) => return Err(server_fault(error)),
    };
    let came = match exchange(&mut session, clock, head, body) {
        Ok(came) => came,
        Err(error) => return Err(response_fault(error)),
    };
    let now = clock.now();
    match connector.release_http_session(rt, session, peer, Some(TIMEOUT), now) {
        Ok(is_kept) => Ok(Fetched {
            status: came.status,
            length: came.length,
            is_reused,
            is_kept,
        }),
        Err(_) => Err(Fault::Memory),
    }
}

fn server_fault(error: Error) -> Fault
    ensures { IsFaultOf Fault.Server error result }
{
    if error.kind == ErrorType::NoMemory {
        Fault::Memory
    } else {
        Fault::Server(error)
    }
}

fn response_fault(error: Error) -> Fault
    ensures { IsFaultOf Fault.Response error result }
{
    if error.kind == ErrorType::NoMemory {
        Fault::Memory
    } else {
        Fault::Response(error)
    }
}

/// A session with the peer, over a link that served before or over one that is dialled.
fn connect<R: Wait, D: Dialer, T: Clock>(
    rt: &R,
    connector: &Connector<D::Link>,
    dialer: &mut D,
    clock: &mut T,
    peer: &Peer,
) -> Result<(HttpSession<D::Link>, bool), Error>
    ensures ok { IfOk result (λ handed. Connects D.Link.state D.state peer.now dialer.old dialer.new
        (Ok handed)) }
    ensures err { IfErr result (NoSession D.Link.state D.state peer.now dialer.old dialer.new) }
{
    for waits in 0..MOST_POLLS {
        let now = clock.now();
        match connector.poll_get_http_session(rt, dialer, peer, now) {
            Poll::Ready(answer) => return answer,
            Poll::Pending => {}
        }
    }
    Err(Error::from(ErrorType::ReadTimedout))
}

/// Writes the request and reads the response to it.
fn exchange<L: Link + Drop, T: Clock>(
    session: &mut HttpSession<L>,
    clock: &mut T,
    head: RequestHeader,
    body: Option<Bytes>,
) -> Result<Came, Error>
    requires fresh { request_of session.old ≡ None }
    requires unread { Unread L.state (L.state session.old.transfer.link).given session.old }
    ensures ok { IfOk result (λ came. Exchanges L.state head body session.old session.new came.status
        came.length) }
    ensures key { OnOk result (session.new.settings.key ≡ session.old.settings.key) }
{
    session.set_read_timeout(Some(TIMEOUT));
    session.set_write_timeout(Some(TIMEOUT));
    write_head(session, clock, head)?;
    write_body(session, clock, body)?;
    write_end(session, clock)?;
    let status = read_head(session, clock)?;
    let length = read_body(session, clock)?;
    Ok(Came { status, length })
}

/// Writes the head of the request.
fn write_head<L: Link + Drop, T: Clock>(
    session: &mut HttpSession<L>,
    clock: &mut T,
    head: RequestHeader,
) -> Result<(), Error>
    requires { request_of session.old ≡ None }
    ensures request { OnOk result (request_of session.new ≡ Some head) }
    ensures settings { session.new.settings ≡ session.old.settings }
    ensures puts { OnOk result (HasPut L.state (L.state session.old.transfer.link).written head
        (begun (framing head)) [] session.new) }
    ensures unread { (before : Option (List ℕ)) → Unread L.state before session.old
        → Unread L.state before session.new }
{
    let mut handed = Some(head);
    for _ in 0..MOST_POLLS {
        match ask(session, &mut handed, clock.now()) {
            Poll::Ready(Ok(_)) => return Ok(()),
            Poll::Ready(Err(error)) => return Err(error),
            Poll::Pending => {}
        }
    }
    Err(Error::from(ErrorType::WriteTimedout))
}

/// Writes the body of the request, if it has one.
fn write_body<L: Link + Drop, T: Clock>(
    session: &mut HttpSession<L>,
    clock: &mut T,
    body: Option<Bytes>,
) -> Result<(), Error>
    ensures request { request_of session.new ≡ request_of session.old }
    ensures settings { session.new.settings ≡ session.old.settings }
    ensures puts { OnOk result ((before : Option (List ℕ)) (request : RequestView)
        → HasPut L.state before request (begun (framing request)) [] session.old
        → HasPut L.state before request (writer_behind request body) (bytes_behind request body)
        session.new) }
    ensures unread { (before : Option (List ℕ)) → Unread L.state before session.old
        → Unread L.state before session.new }
{
    let mut piece = body;
    if piece.is_none() {
        return Ok(());
    }
    for _ in 0..MOST_POLLS {
        match write_piece(session, &mut piece, clock.now()) {
            Poll::Ready(Ok(_)) => return Ok(()),
            Poll::Ready(Err(error)) => return Err(error),
            Poll::Pending => {}
        }
    }
    Err(Error::from(ErrorType::WriteTimedout))
}

/// Writes the end of the request.
fn write_end<L: Link + Drop, T: Clock>(
    session: &mut HttpSession<L>,
    clock: &mut T,
) -> Result<(), Error>
    ensures request { request_of session.new ≡ request_of session.old }
    ensures settings { session.new.settings ≡ session.old.settings }
    ensures takes { OnOk result ((before : Option (List ℕ)) (request : RequestView)
        (body : Option (List ℕ))
        → HasPut L.state before request (writer_behind request body) (bytes_behind request body)
        session.old
        → Takes before (L.state session.new.transfer.link).written request body
        × IsFlushed (L.state session.new.transfer.link)) }
    ensures unread { (before : Option (List ℕ)) → Unread L.state before session.old
        → Unread L.state before session.new }
{
    for _ in 0..MOST_POLLS {
        match finish(session, clock.now()) {
            Poll::Ready(Ok(_)) => return Ok(()),
            Poll::Ready(Err(error)) => return Err(error),
            Poll::Pending => {}
        }
    }
    Err(Error::from(ErrorType::WriteTimedout))
}

/// Reads the heads of responses to that of the final one, and gives its status.
fn read_head<L: Link + Drop, T: Clock>(
    session: &mut HttpSession<L>,
    clock: &mut T,
) -> Result<u16, Error>
    ensures request { request_of session.new ≡ request_of session.old }
    ensures settings { session.new.settings ≡ session.old.settings }
    ensures ok { IfOk result (λ status. (before : Option (List ℕ)) (request : RequestView)
        → request_of session.old ≡ Some request → Unread L.state before session.old
        → (said : ResponseView) × (response_of session.new ≡ Some said)
        × ReadsSoFar L.state before request said [] session.new.transfer × (status ≡ said.status)) }
    ensures wrote { (L.state session.new.transfer.link).written
        ≡ (L.state session.old.transfer.link).written }
{
    for _ in 0..MOST_POLLS {
        if let Some(status) = final_status(session) {
            return Ok(status);
        }
        if let Poll::Ready(Err(error)) = read_response(session, clock.now()) {
            return Err(error);
        }
    }
    Err(Error::from(ErrorType::ReadTimedout))
}

/// The status of the final response, once its head was read.
fn final_status<L: Link + Drop>(session: &HttpSession<L>) -> Option<u16>
    ensures { result ≡ option_map (λ said. said.status) (response_of session.now) }
{
    if session.has_final_head() {
        session.get_status()
    } else {
        None
    }
}

/// Reads the body of the response to its end, and gives the length of its payload.
fn read_body<L: Link + Drop, T: Clock>(
    session: &mut HttpSession<L>,
    clock: &mut T,
) -> Result<u64, Error>
    ensures request { request_of session.new ≡ request_of session.old }
    ensures settings { session.new.settings ≡ session.old.settings }
    ensures response { response_of session.new ≡ response_of session.old }
    ensures ok { IfOk result (λ length. (before : Option (List ℕ)) (request : RequestView)
        (said : ResponseView)
        → request_of session.old ≡ Some request → response_of session.old ≡ Some said
        → ReadsSoFar L.state before request said [] session.old.transfer
        → (payload : List ℕ) × ReadsWhole L.state before request said payload session.new.transfer
        × (length ≡ count_of payload)) }
    ensures wrote { (L.state session.new.transfer.link).written
        ≡ (L.state session.old.transfer.link).written }
{
    let mut length = 0u64;
    for _ in 0..MOST_POLLS {
        match count_part(session, clock.now(), &mut length)? {
            Part::More => {}
            Part::End => return Ok(length),
        }
    }
    Err(Error::from(ErrorType::ReadTimedout))
}

/// Reads a part of the body, and counts its payload.
fn count_part<L: Link + Drop>(
    session: &mut HttpSession<L>,
    now: u64,
    length: &mut u64,
) -> Result<Part, Error>
    ensures request { request_of session.new ≡ request_of session.old }
    ensures settings { session.new.settings ≡ session.old.settings }
    ensures response { response_of session.new ≡ response_of session.old }
    ensures ok { IfOk result (λ part. (before : Option (List ℕ)) (request : RequestView)
        (said : ResponseView) (payload : List ℕ)
        → request_of session.old ≡ Some request → response_of session.old ≡ Some said
        → ReadsSoFar L.state before request said payload session.old.transfer
        → length.old ≡ count_of payload
        → Counts L.state before request said session.new.transfer length.new part) }
    ensures wrote { (L.state session.new.transfer.link).written
        ≡ (L.state session.old.transfer.link).written }
{
    match read_piece(session, now) {
        Poll::Ready(Ok(Some(piece))) => {
            *length = length.saturating_add(piece.len() as u64);
            Ok(Part::More)
        }
        Poll::Ready(Ok(None)) => Ok(Part::End),
        Poll::Ready(Err(error)) => Err(error),
        Poll::Pending => Ok(Part::More),
    }
}
