//! The filter: it lets nobody to `/private` without a key, and marks each reply.
ghost use Rattle.std.specs.Prelude.{Ok};
ghost use Rattle.h1_hello.specs.Gate.{asked, marked};

use h1_app::{HeadFilter, LawfulFilter};
use h1_error::{Error, ErrorType};
use h1_head::{RequestHeader, ResponseHeader};
use std::alloc::Global;

/// Refuses each request for `/private` without a line `authorization`, with the number 401, and puts
/// the line `x-gate: passed` behind all others of the header of each reply. A request that is
/// refused gets no reply: its connection ends.
#[derive(Clone, Copy, Debug, PartialEq, Eq)]
pub struct Gate;

impl HeadFilter for Gate {
    ghost request = { λ _ head. asked head };

    ghost response = { λ _ header. Ok (marked header) };

    fn filter_request(&self, _: Global, req: &mut RequestHeader) -> Result<(), Error> {
        let private = req.raw_path() == b"/private".as_slice();
        if private && req.get(b"authorization").is_none() {
            Err(Error::from(ErrorType::ModuleFailed(401)))
        } else {
            Ok(())
        }
    }

    #[tactic(auto, unfolding(httparse::specs::Grammar::is_token_byte))]
    fn filter_response(&self, _: Global, resp: &mut ResponseHeader) -> Result<(), Error> {
        resp.append_header(b"x-gate", b"passed")
    }
}

impl LawfulFilter for Gate {
    ghost use Rattle.std.specs.Prelude.{codes, refl};
    ghost use Rattle.h1_app.specs.LawfulHeads.{line_keeps};

    ghost keeps = { λ _. line_keeps (codes "x-gate") (codes "passed") refl };
}
