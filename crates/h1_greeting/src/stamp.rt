//! A filter that stamps the header of each reply, and a caller that has it run.
ghost use Rattle.std.specs.Prelude.{◌≡◌, Ok, None, Some, take, IfOk, IfErr, IfSome, false};
ghost use Rattle.std.specs.List.{All};
ghost use Rattle.h1_error.specs.Memory.{no_memory};
ghost use Rattle.h1_link.specs.MemState.{new_mem_state};
ghost use Rattle.h1_transcript.specs.Agrees.{Agrees};
ghost use Rattle.h1_app.specs.View.{entries, terms_of};
ghost use Rattle.h1_greeting.specs.Greeting.{greeting};
ghost use Rattle.h1_greeting.specs.Polled.{Polled};
ghost use Rattle.h1_greeting.specs.Stamped.{stamped, stamped_greeting};

use crate::Greets;
use crate::serving::{MOST_POLLS, serve};
use h1_app::{Connection, HeadFilter, HeadModule, HttpServer, LawfulFilter};
use h1_error::Error;
use h1_head::{RequestHeader, ResponseHeader};
use h1_link::MemLink;
use std::alloc::Global;

/// Puts the line `x-served-by: greeting` behind all others of the header of each reply, and refuses
/// nothing.
#[derive(Clone, Copy, Debug, PartialEq, Eq)]
pub struct Stamp;

/// A connection that [`Greets`] serves behind [`Stamp`].
pub type Stamped = Connection<MemLink, Greets, HeadModule<Stamp>, ()>;

impl HeadFilter for Stamp {
    ghost response = { λ _ header. Ok (stamped header) };

    fn filter_request(&self, _: Global, _: &mut RequestHeader) -> Result<(), Error> {
        Ok(())
    }

    #[tactic(auto, unfolding(httparse::specs::Grammar::is_token_byte))]
    fn filter_response(&self, _: Global, resp: &mut ResponseHeader) -> Result<(), Error> {
        resp.append_header(b"x-served-by", b"greeting")
    }
}

impl LawfulFilter for Stamp {
    ghost use Rattle.std.specs.Prelude.{codes, refl};
    ghost use Rattle.h1_app.specs.LawfulHeads.{line_keeps};

    ghost keeps = { λ _. line_keeps (codes "x-served-by") (codes "greeting") refl };
}

/// Serves a peer that sends these bytes and no more, behind [`Stamp`], until the connection ends or
/// was polled [`MOST_POLLS`] times.
pub fn greet_stamped(alloc: Global, given: &[u8]) -> Result<Stamped, Error>
    // The peer's bytes, or the first of them, are what the link gave.
    ensures given { IfOk result
        (λ served. served.session.link.state.given
        ≡ Some (take served.session.link.state.bytes_in given.now)) }
    ensures agrees { IfOk result
        (λ served. Agrees stamped_greeting (terms_of None false) new_mem_state.state
        served.session.link.state (entries served)) }
    ensures stamped { IfOk result
        (λ served. All (λ exchange. IfSome exchange.sent_head
        (λ header. header ≡ stamped greeting.header)) (entries served)) }
    ensures polled { IfOk result
        (λ served. Polled MOST_POLLS served.end served.session.link.state) }
    ensures err { IfErr result (λ error. error ≡ no_memory) }
{
    let mut server = HttpServer::new_app(alloc, Greets);
    server.add_module(HeadModule::new(Stamp, 1))?;
    serve(alloc, server, given)
}
