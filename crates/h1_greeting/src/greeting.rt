//! The application that greets, and a caller that has it serve given bytes.
ghost use Rattle.std.specs.Prelude.{◌≡◌, [], IfOk, IfErr, IfSome, None, Some, take, false};
ghost use Rattle.std.specs.List.{All};
ghost use Rattle.h1_error.specs.Memory.{no_memory};
ghost use Rattle.h1_link.specs.MemState.{new_mem_state};
ghost use Rattle.h1_transcript.specs.Agrees.{Agrees};
ghost use Rattle.h1_transcript.specs.Rules.{plain};
ghost use Rattle.h1_app.specs.View.{entries, terms_of};
ghost use Rattle.h1_greeting.specs.Greeting.{Greeting, greeting};
ghost use Rattle.h1_greeting.specs.Polled.{Polled};

use crate::serving::{MOST_POLLS, serve};
use futures::task::Poll;
use h1_app::{BodyBytes, Connection, HttpServer, HttpSession, NoModules, Reply, ServeHttp};
use h1_error::Error;
use h1_head::ResponseHeader;
use h1_link::{Link, MemLink};
use std::alloc::Global;

/// Greets whatever is asked. It lets the next request follow at once, and reads no body.
#[derive(Clone, Copy, Debug, PartialEq, Eq)]
pub struct Greets;

/// A connection that [`Greets`] serves.
pub type Greeted = Connection<MemLink, Greets, NoModules, ()>;

impl<L: Link + Drop, C: Drop> ServeHttp<L, C> for Greets {
    type Job = Global;

    ghost use Rattle.h1_greeting.specs.GreetingLaw.{greeting_lawful};

    ghost gives = { λ _. Greeting };

    ghost begins = { λ job. Unit {0} };

    ghost lawful = { λ _. greeting_lawful };

    ghost pends = { λ _. 0 };

    // Nothing was set and nothing read since the job began.
    ghost runs = { λ _ job head began now payload limit. (now ≡ began) × (payload ≡ []) };

    ghost takes_whole = { λ _. false };

    fn gathers(&self) -> bool {
        false
    }

    fn start(&self, alloc: Global) -> Result<Global, Error> {
        Ok(alloc)
    }

    fn poll_response(
        &self,
        job: &mut Global,
        http: &mut HttpSession<L, C>,
        now: u64,
    ) -> Poll<Result<Reply, Error>> {
        http.set_pipelining_enabled(true);
        Poll::Ready(greeting(*job))
    }
}

#[tactic(auto, unfolding(httparse::specs::Grammar::is_token_byte))]
fn greeting(alloc: Global) -> Result<Reply, Error>
    ensures ok { IfOk result (λ reply. reply ≡ greeting) }
    ensures err { IfErr result (λ error. error ≡ no_memory) }
{
    let body = BodyBytes::from_slice(alloc, b"hello\n")?;
    let mut header = ResponseHeader::build(alloc, 200, Some(1))?;
    header.append_header(b"content-length", b"6")?;
    Ok(Reply { header, body })
}

/// Serves a peer that sends these bytes and no more, until the connection ends or was polled
/// [`MOST_POLLS`] times.
pub fn greet(alloc: Global, given: &[u8]) -> Result<Greeted, Error>
    // The peer's bytes, or the first of them, are what the link gave.
    ensures given { IfOk result
        (λ served. served.session.link.state.given
        ≡ Some (take served.session.link.state.bytes_in given.now)) }
    ensures agrees { IfOk result
        (λ served. Agrees (plain Greeting) (terms_of None false) new_mem_state.state
        served.session.link.state (entries served)) }
    ensures greeted { IfOk result
        (λ served. All (λ exchange. IfSome exchange.reply (λ reply. reply ≡ greeting))
        (entries served)) }
    // It ended, or each of its polls moved bytes in 64 calls: no poll waited for the link or for the
    // application.
    ensures polled { IfOk result
        (λ served. Polled MOST_POLLS served.end served.session.link.state) }
    ensures err { IfErr result (λ error. error ≡ no_memory) }
{
    serve(alloc, HttpServer::new_app(alloc, Greets), given)
}
