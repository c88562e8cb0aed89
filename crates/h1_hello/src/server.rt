//! The server: the application, the gate before it, and what a connection may hold.
ghost use Rattle.std.specs.Prelude.{◌≡◌, ◌∷◌, [], IfOk, IfErr, Some, take, false};
ghost use Rattle.h1_error.specs.Memory.{no_memory};
ghost use Rattle.h1_link.specs.MemState.{new_mem_state};
ghost use Rattle.h1_transcript.specs.Agrees.{Agrees};
ghost use Rattle.h1_app.specs.View.{entries, terms_of};
ghost use Rattle.h1_hello.specs.Gate.{gate, gated};
ghost use Rattle.h1_hello.specs.Hello.{IsServed, hello_terms};

use crate::{Gate, Hello};
use h1_app::{Connection, HeadModule, History, HttpServer, HttpServerOptions, Responds};
use h1_error::Error;
use h1_link::{MemLink, SetClock};
use h1_serving::serve_link;
use std::alloc::Global;
use std::sync::Arc;

/// How many requests more than the first a connection may serve.
pub const REQUEST_LIMIT: u32 = 999;

/// A server that says hello behind the gate.
pub type HelloServer = HttpServer<Responds<Hello>, HeadModule<Gate>>;

/// A server whose connections serve at most 1,000 requests each, and forget each exchange once it
/// is over. The only error is being out of memory.
pub fn hello_server(alloc: Global) -> Result<HelloServer, Error>
    ensures app { IfOk result (λ server. server.modules ≡ gate ∷ []) }
    ensures terms { IfOk result (λ server. terms_of server.server_options false ≡ hello_terms) }
    ensures err { IfErr result (λ error. error ≡ no_memory) }
{
    let mut server = HttpServer::new_app(alloc, Responds(Hello));
    server.add_module(HeadModule::new(Gate, 1))?;
    server.server_options = Some(HttpServerOptions {
        keepalive_request_limit: Some(REQUEST_LIMIT),
        history: History::Forgotten,
        ..HttpServerOptions::default()
    });
    Ok(server)
}

/// A connection of that server, over memory.
pub type Greeted = Connection<MemLink, Responds<Hello>, HeadModule<Gate>, ()>;

/// Serves a peer that sends these bytes and no more.
pub fn say_hello(alloc: Global, given: &[u8]) -> Result<Greeted, Error>
    // The peer's bytes, or the first of them, are what the link gave.
    ensures given { IfOk result (λ served. served.session.link.state.given
        ≡ Some (take served.session.link.state.bytes_in given.now)) }
    ensures served { IfOk result (IsServed gated.filters (λ job. 0)) }
    ensures agrees { IfOk result (λ served. Agrees gated hello_terms new_mem_state.state
        served.session.link.state (entries served)) }
    ensures err { IfErr result (λ error. error ≡ no_memory) }
{
    let server = hello_server(alloc)?;
    let mut link = MemLink::new(alloc);
    link.give(given)?;
    link.end();
    let mut connection = Connection::new(alloc, Arc::new(alloc, server)?, link)?;
    serve_link(&mut connection, &mut SetClock::new(0));
    connection.link().rule();
    Ok(connection)
}
