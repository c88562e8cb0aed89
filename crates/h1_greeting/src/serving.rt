//! A connection that serves given bytes, whatever modules its server has.
ghost use Rattle.std.specs.Prelude.{◌≡◌, IfOk, IfErr, None, Some, take, false};
ghost use Rattle.h1_error.specs.Memory.{no_memory};
ghost use Rattle.h1_link.specs.MemState.{new_mem_state};
ghost use Rattle.h1_transcript.specs.Agrees.{Agrees};
ghost use Rattle.h1_app.specs.Filtering.{chain_of, rules_with};
ghost use Rattle.h1_app.specs.View.{entries, terms_of};
ghost use Rattle.h1_greeting.specs.Greeting.{Greeting};
ghost use Rattle.h1_greeting.specs.Polled.{Polled};

use crate::Greets;
use h1_app::{Connection, HttpServer, LawfulFor};
use h1_error::Error;
use h1_link::MemLink;
use std::alloc::Global;
use std::sync::Arc;

/// How often a connection is polled at most.
pub const MOST_POLLS: u32 = 1_000;

/// Has a server of [`Greets`] serve a peer that sends these bytes and no more, until the connection
/// ends or was polled [`MOST_POLLS`] times.
pub fn serve<B: LawfulFor<MemLink, (), Greets> + Drop>(
    alloc: Global,
    server: HttpServer<Greets, B>,
    given: &[u8],
) -> Result<Connection<MemLink, Greets, B, ()>, Error>
    requires { server.server_options ≡ None }
    // The peer's bytes, or the first of them, are what the link gave.
    ensures given { IfOk result
        (λ served. served.session.link.state.given
        ≡ Some (take served.session.link.state.bytes_in given.now)) }
    // What was sent is what the modules make of greetings.
    ensures agrees { IfOk result
        (λ served. Agrees
        (rules_with Greeting (chain_of B.HttpModuleBuilder B.Module.HttpModule server.modules))
        (terms_of None false) new_mem_state.state served.session.link.state (entries served)) }
    // It ended, or each of its polls moved bytes in 64 calls: no poll waited for the link or for the
    // application.
    ensures polled { IfOk result
        (λ served. Polled MOST_POLLS served.end served.session.link.state) }
    ensures err { IfErr result (λ error. error ≡ no_memory) }
{
    let mut link = MemLink::new(alloc);
    link.give(given)?;
    link.end();
    let mut connection = Connection::new(alloc, Arc::new(alloc, server)?, link)?;
    for _ in 0..MOST_POLLS {
        if connection.end().is_some() {
            break;
        }
        connection.poll(0, false);
        connection.link().rule();
    }
    connection.link().rule();
    Ok(connection)
}
