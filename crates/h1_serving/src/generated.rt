//! A connection over requests that are made.
ghost use Rattle.std.specs.Prelude.{◌≡◌, ◌≤◌, IfOk, IfErr, Some, None};
ghost use Rattle.h1_error.specs.declared.error.ErrorType.TheVariants.{NoMemory};
ghost use Rattle.h1_serving.specs.Whole.{failure_of, IsReady, IsServedWhole};

use crate::serving::{Echoed, serve_link};
use h1_app::{Connection, History, HttpServer, HttpServerOptions};
use h1_echo::EchoApp;
use h1_error::{End, Error, Progress};
use h1_generator::generate;
use h1_link::{MemLink, SetClock};
use h1_words::MOST_GENERATED;
use std::alloc::Global;
use std::sync::Arc;

/// Serves `count` requests over a link in memory that ends after them. Nothing is not ready, so the
/// connection ends, and where there is memory all requests are served.
pub fn serve_gen(alloc: Global, count: u32) -> Result<Echoed<MemLink>, Error>
    requires { count ≤ MOST_GENERATED }
    ensures ok { IfOk result (IsServedWhole count) }
    ensures err { IfErr result (λ error. error.kind ≡ NoMemory) }
{
    let mut connection = connect(alloc, count)?;
    let mut clock = SetClock::new(0);
    let answer = serve_link(&mut connection, &mut clock);
    connection.link().rule();
    handed_back(connection, answer)
}

/// A connection of the echo application over a link that these requests are ahead on.
fn connect(alloc: Global, count: u32) -> Result<Echoed<MemLink>, Error>
    requires { count ≤ MOST_GENERATED }
    ensures ok { IfOk result (IsReady count) }
    ensures err { IfErr result (λ error. error.kind ≡ NoMemory) }
{
    let bytes = generate(alloc, count)?;
    let mut link = MemLink::new(alloc);
    link.give(bytes.as_slice())?;
    link.end();
    let mut server = HttpServer::new_app(alloc, EchoApp);
    server.server_options = Some(HttpServerOptions {
        history: History::Forgotten,
        ..HttpServerOptions::default()
    });
    let server = Arc::new(alloc, server)?;
    Connection::new(alloc, server, link)
}

/// The connection, but for one that ended with an error.
fn handed_back(connection: Echoed<MemLink>, answer: Progress) -> Result<Echoed<MemLink>, Error>
    ensures ok { IfOk result (λ served. (served ≡ connection) × (failure_of answer ≡ None)) }
    ensures err { IfErr result (λ error. failure_of answer ≡ Some error) }
{
    match answer {
        Progress::Ready(End::Failed(error)) => Err(error),
        _ => Ok(connection),
    }
}
