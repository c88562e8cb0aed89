//! Requests for one path, one after another, each told in a line.
ghost use Rattle.std.specs.Prelude.{◌≡◌, ◌+◌, ◌<◌, ◌≤◌, ◌-◌, ◌^◌, IfOk, OnOk, IfErr};
ghost use Rattle.std.specs.Option.{option_copied};
ghost use Rattle.h1_fetch.specs.Getting.{GetCause, link_text, links_line, no_response_line, one_if, peer_at, response_line};
ghost use Rattle.h1_fetch.specs.Output.{WriteCause, Wrote};
ghost use Rattle.h1_fetch.specs.Request.{whole_request};
ghost use Rattle.h1_fetch.specs.Telling.{DoneCause, GivesUp, TellCause, ToldFault};

use crate::output::{Written, write_whole};
use crate::request::ask_for;
use crate::status::Status;
use crate::words::Asked;
use h1_asking::{Fault, Fetched};
use h1_client::{Connector, Peer};
use h1_error::{End, Error, Progress};
use h1_link::{Clock, Dialer, Sink};
use h1_words::Text;
use std::alloc::Global;
use std::sync::Wait;

/// Asks so many times, over links that are kept where both sides keep them. Each response has a line,
/// which is written and flushed before the next request; the last line tells of the links. Where no
/// response comes a line on `messages` tells why.
pub(crate) fn get<R: Wait, K: Sink, M: Sink, D: Dialer, T: Clock>(
    rt: &R,
    alloc: Global,
    asked: Asked<'_>,
    sink: &mut K,
    messages: &mut M,
    dialer: &mut D,
    clock: &mut T,
) -> Status
    ensures { GetCause D.Link.state D.state (peer_at asked.entry.port)
        (whole_request asked.entry.path.now (option_copied asked.entry.body)) asked.entry.count
        (K.state sink.old) (K.state sink.new) (M.state messages.old) (M.state messages.new)
        dialer.old dialer.new result }
{
    let Ok(connector) = Connector::new(alloc) else {
        return Status::Memory;
    };
    let peer = peer_at(asked.port);
    let mut reused = 0u32;
    for number in 0..asked.count {
        let (path, body) = (asked.path, asked.body);
        match ask_for(rt, alloc, &connector, dialer, clock, &peer, path, body) {
            Ok(fetched) => {
                reused += one_if(fetched.is_reused);
                if let Err(status) = tell(alloc, number, fetched, sink) {
                    return status;
                }
            }
            Err(fault) => return give_up(alloc, number, fault, messages),
        }
    }
    tell_links(alloc, asked.count - reused, reused, sink)
}

fn one_if(is_reused: bool) -> u32
    ensures { result ≡ one_if is_reused }
{
    if is_reused { 1 } else { 0 }
}

/// The server at this port of this machine.
fn peer_at(port: u16) -> Peer
    ensures { result ≡ peer_at port }
{
    Peer {
        key: u64::from(port),
        allow_h1_response_invalid_content_length: false,
    }
}

/// Writes the line of a response.
fn tell<K: Sink>(alloc: Global, number: u32, fetched: Fetched, sink: &mut K) -> Result<(), Status>
    ensures ok { OnOk result (Wrote (K.state sink.old) (K.state sink.new)
        (response_line number fetched)) }
    ensures err { IfErr result (TellCause (K.state sink.old) (K.state sink.new)) }
{
    let Ok(line) = response_line(alloc, number, fetched) else {
        return Err(Status::Memory);
    };
    match write_whole(sink, line.as_slice()) {
        Written::Whole => Ok(()),
        Written::Failed => Err(Status::Sink),
        Written::NoMemory => Err(Status::Memory),
    }
}

/// response I: STATUS N reused, or new
fn response_line(alloc: Global, number: u32, fetched: Fetched) -> Result<Text, Error>
    ensures { IfOk result (λ text. text ≡ response_line number fetched) }
{
    let mut text = Text::new(alloc);
    text.push(b"response ")?;
    text.push_number(alloc, u64::from(number))?;
    text.push(b": ")?;
    text.push_number(alloc, u64::from(fetched.status))?;
    text.push(b" ")?;
    text.push_number(alloc, fetched.length)?;
    text.push(link_text(fetched.is_reused).as_bytes())?;
    text.push(b"\n")?;
    Ok(text)
}

fn link_text(is_reused: bool) -> &'static str
    ensures { result.now ≡ link_text is_reused }
{
    if is_reused { " reused" } else { " new" }
}

/// Writes the last line.
fn tell_links<K: Sink>(alloc: Global, dialled: u32, reused: u32, sink: &mut K) -> Status
    ensures { DoneCause (K.state sink.old) (K.state sink.new) (links_line dialled reused) result }
{
    let Ok(line) = links_line(alloc, dialled, reused) else {
        return Status::Memory;
    };
    match write_whole(sink, line.as_slice()) {
        Written::Whole => Status::Done,
        Written::Failed => Status::Sink,
        Written::NoMemory => Status::Memory,
    }
}

/// dialled N, reused N
fn links_line(alloc: Global, dialled: u32, reused: u32) -> Result<Text, Error>
    ensures { IfOk result (λ text. text ≡ links_line dialled reused) }
{
    let mut text = Text::new(alloc);
    text.push(b"dialled ")?;
    text.push_number(alloc, u64::from(dialled))?;
    text.push(b", reused ")?;
    text.push_number(alloc, u64::from(reused))?;
    text.push(b"\n")?;
    Ok(text)
}

/// Tells why there is no response to the request of this number.
fn give_up<M: Sink>(alloc: Global, number: u32, fault: Fault, messages: &mut M) -> Status
    ensures { GivesUp (M.state messages.old) (M.state messages.new) number fault result }
{
    match fault {
        Fault::Memory => Status::Memory,
        Fault::Server(error) => tell_fault(alloc, number, error, messages, Status::Server),
        Fault::Response(error) => tell_fault(alloc, number, error, messages, Status::Response),
    }
}

/// Writes the line of a request that has no response. Whether it is taken is no matter to the status.
fn tell_fault<M: Sink>(
    alloc: Global,
    number: u32,
    error: Error,
    messages: &mut M,
    status: Status,
) -> Status
    ensures { ToldFault (M.state messages.old) (M.state messages.new) number error status result }
{
    let Ok(line) = no_response_line(alloc, number, error) else {
        return Status::Memory;
    };
    write_whole(messages, line.as_slice());
    status
}

/// response I: failed K TEXT
fn no_response_line(alloc: Global, number: u32, error: Error) -> Result<Text, Error>
    ensures { IfOk result (λ text. text ≡ no_response_line number error) }
{
    let mut text = Text::new(alloc);
    text.push(b"response ")?;
    text.push_number(alloc, u64::from(number))?;
    text.push(b": ")?;
    text.push_answer(alloc, Progress::Ready(End::Failed(error)))?;
    text.push(b"\n")?;
    Ok(text)
}
