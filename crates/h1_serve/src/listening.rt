//! Peers that are served one after another, each told in a line.
ghost use Rattle.std.specs.Prelude.{◌≡◌, IfOk, IfErr, OnOk, MatchOption, true};
ghost use Rattle.std.specs.Arc.{arc_value};
ghost use Rattle.h1_error.specs.Memory.{no_memory};
ghost use Rattle.h1_app.specs.View.{terms_of};
ghost use Rattle.h1_serving.specs.Peer.{clock_of};
ghost use Rattle.h1_serve.specs.ListenPeer.{listen_terms, IsAnswered, IsPeer};
ghost use Rattle.h1_serve.specs.Listening.{listen_line, AnswersNone, AnswersOne, ServesOne, StopCause};
ghost use Rattle.h1_serve.specs.Listening.{Accepts, Listens, GoesOn, ListenCause};

use crate::output::{Written, write_whole};
use crate::scripted::options_of;
use crate::status::Status;
use h1_app::{History, HttpServer, NoModules};
use h1_echo::EchoApp;
use h1_error::{End, Error, Progress};
use h1_link::{Acceptor, Clock, Link, Sink};
use h1_serving::{close_link, serve_peer};
use h1_words::Text;
use std::alloc::Global;
use std::sync::Arc;

/// How many requests more than the first a connection may serve.
pub(crate) const REQUEST_LIMIT: u32 = 999;

/// Serves so many peers at this port, one after another. A line is written for each, and flushed
/// before the next peer is waited for.
pub(crate) fn listen<K: Sink, A: Acceptor, T: Clock>(
    alloc: Global,
    port: u16,
    count: u32,
    sink: &mut K,
    net: &mut A,
    clock: &mut T,
) -> Status
    ensures cause { ListenCause (IsPeer A.Link.state A.Link.same_plan) port count
        (K.state sink.old) (K.state sink.new) (A.state net.old) (A.state net.new)
        (clock_of T.moment T.asked clock.old) (clock_of T.moment T.asked clock.new) result }
    ensures net { Listens port count (A.state net.old) (A.state net.new) }
    ensures clock { GoesOn (clock_of T.moment T.asked clock.old)
        (clock_of T.moment T.asked clock.new) }
{
    if !net.bind(port) {
        return Status::Acceptor;
    }
    for number in 0..count {
        if let Err(status) = serve_next(alloc, number, sink, net, clock) {
            return status;
        }
    }
    Status::Done
}

/// Serves the next peer and writes its line.
fn serve_next<K: Sink, A: Acceptor, T: Clock>(
    alloc: Global,
    number: u32,
    sink: &mut K,
    net: &mut A,
    clock: &mut T,
) -> Result<(), Status>
    ensures ok { OnOk result (ServesOne (IsPeer A.Link.state A.Link.same_plan) number
        (K.state sink.old) (K.state sink.new) (A.state net.old) (A.state net.new)
        (clock_of T.moment T.asked clock.old) (clock_of T.moment T.asked clock.new)) }
    ensures err { IfErr result (StopCause (K.state sink.old) (K.state sink.new) (A.state net.old)
        (A.state net.new) (clock_of T.moment T.asked clock.old)
        (clock_of T.moment T.asked clock.new)) }
    ensures net { Accepts 1 (A.state net.old) (A.state net.new) }
    ensures clock { GoesOn (clock_of T.moment T.asked clock.old)
        (clock_of T.moment T.asked clock.new) }
{
    let Some(answer) = answer_next(alloc, net, clock) else {
        return Err(Status::Acceptor);
    };
    let Ok(line) = listen_line(alloc, number, answer) else {
        return Err(Status::Memory);
    };
    match write_whole(sink, line.as_slice()) {
        Written::Whole => Ok(()),
        Written::Failed => Err(Status::Sink),
        Written::NoMemory => Err(Status::Memory),
    }
}

/// Waits for the next peer, serves it and hands its link back. `None` where the acceptor fails.
fn answer_next<A: Acceptor, T: Clock>(alloc: Global, net: &mut A, clock: &mut T) -> Option<Progress>
    ensures answer { MatchOption result
        (AnswersNone (A.state net.old) (A.state net.new) (clock_of T.moment T.asked clock.old)
        (clock_of T.moment T.asked clock.new))
        (AnswersOne (IsPeer A.Link.state A.Link.same_plan) (A.state net.old) (A.state net.new)
        (clock_of T.moment T.asked clock.old) (clock_of T.moment T.asked clock.new)) }
    ensures net { Accepts 1 (A.state net.old) (A.state net.new) }
    ensures clock { GoesOn (clock_of T.moment T.asked clock.old)
        (clock_of T.moment T.asked clock.new) }
{
    let link = net.accept()?;
    let (answer, link) = serve_echo(alloc, link, clock);
    net.hand_back(link);
    Some(answer)
}

/// Serves the peer behind this link. Where there is no memory for that, this connection alone ends
/// so, and its link is closed as it is.
fn serve_echo<L: Link + Drop, T: Clock>(alloc: Global, link: L, clock: &mut T) -> (Progress, L)
    ensures answer { IsAnswered L.state L.same_plan (clock_of T.moment T.asked clock.old)
        (clock_of T.moment T.asked clock.new) link result.1 result.0 }
    ensures clock { GoesOn (clock_of T.moment T.asked clock.old)
        (clock_of T.moment T.asked clock.new) }
{
    match echo_server(alloc) {
        Ok(server) => serve_peer(alloc, server, link, clock),
        Err(error) => {
            let mut link = link;
            close_link(&mut link);
            (Progress::Ready(End::Failed(error)), link)
        }
    }
}

/// The server of one connection.
fn echo_server(alloc: Global) -> Result<Arc<HttpServer<EchoApp, NoModules>>, Error>
    ensures ok { IfOk result (λ server.
        terms_of (arc_value server).server_options true ≡ listen_terms) }
    ensures err { IfErr result (λ error. error ≡ no_memory) }
{
    let mut server = HttpServer::new_app(alloc, EchoApp);
    server.server_options = options_of(Some(REQUEST_LIMIT), History::Forgotten);
    Ok(Arc::new(alloc, server)?)
}

fn listen_line(alloc: Global, number: u32, answer: Progress) -> Result<Text, Error>
    ensures { IfOk result (λ text. text ≡ listen_line number answer) }
{
    let mut text = Text::new(alloc);
    text.push(b"connection ")?;
    text.push_number(alloc, u64::from(number))?;
    text.push(b": ")?;
    text.push_answer(alloc, answer)?;
    text.push(b"\n")?;
    Ok(text)
}
