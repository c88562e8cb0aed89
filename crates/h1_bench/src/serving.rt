//! A connection that is given input in pieces.
ghost use Rattle.std.specs.Prelude.{◌<◌};

use crate::flow::Flow;
use h1_app::{Connection, History, HttpServer, HttpServerOptions, NoModules};
use h1_echo::EchoApp;
use h1_error::{Error, Progress, Waiting};
use h1_link::{Link, MemLink};
use std::alloc::Global;
use std::sync::Arc;

/// So often a connection is polled after a piece at most.
const MOST_POLLS: u32 = 1_000_000;

/// What is done with the input.
#[derive(Clone, Copy, Debug, PartialEq, Eq)]
pub(crate) enum Work {
    /// It is given to a link in memory in pieces.
    Serve,
    /// It is only given to the link, and nothing is polled.
    Give,
    /// It comes again and again from a link that keeps nothing.
    Flow,
}

/// What was served.
#[derive(Clone, Copy, Debug)]
pub(crate) struct Served {
    pub requests: usize,
    pub bytes_out: usize,
    /// The connection ended, though its link did not.
    pub ended: bool,
}

/// A connection of the echo application that forgets its exchanges.
type Echoed<L> = Connection<L, EchoApp, NoModules, ()>;

/// A new connection over this link.
fn connect<L: Link + Drop>(alloc: Global, link: L) -> Result<Echoed<L>, Error> {
    let mut server = HttpServer::new_app(alloc, EchoApp);
    server.server_options = Some(HttpServerOptions {
        history: History::Forgotten,
        ..HttpServerOptions::default()
    });
    Connection::new(alloc, Arc::new(alloc, server)?, link)
}

/// Polls the connection until it waits for its peer, or ends.
fn poll_on<L: Link + Drop>(connection: &mut Echoed<L>) {
    for _ in 0..MOST_POLLS {
        if connection.poll(0, false) != Progress::Pending(Waiting::Budget) {
            break;
        }
    }
}

/// Serves so many copies of these bytes over a link that keeps none of them.
pub(crate) fn serve_flow(alloc: Global, bytes: Vec<u8>, copies: usize) -> Result<Served, Error> {
    let mut connection = connect(alloc, Flow::new(bytes, copies))?;
    poll_on(&mut connection);
    Ok(Served {
        requests: connection.transcript().len(),
        bytes_out: connection.link().written(),
        ended: connection.end().is_some(),
    })
}

/// Serves these bytes in pieces of so many bytes.
pub(crate) fn serve(alloc: Global, bytes: &[u8], piece: usize, work: Work) -> Result<Served, Error>
    requires { 0 < piece }
{
    let mut connection = connect(alloc, MemLink::new(alloc))?;
    for part in bytes.chunks(piece) {
        connection.with_link(|link| link.give(part))?;
        if work != Work::Give {
            poll_on(&mut connection);
        }
    }
    Ok(Served {
        requests: connection.transcript().len(),
        bytes_out: connection.link().written().len(),
        ended: connection.end().is_some(),
    })
}
