//! The filters: one marks the header of each reply, one refuses the requests for one target.
ghost use Rattle.std.specs.Prelude.{◌≡◌, OnOk, OnErr, IsOkUnless};
ghost use Rattle.h1_error.specs.Memory.{no_memory};
ghost use Rattle.h1_marking.specs.Marking.{asks_refusal, marked, filtered_request, filtered_header};

use h1_app::{HeadFilter, HeadModule, LawfulFilter};
use h1_error::{Error, ErrorType};
use h1_head::{RequestHeader, ResponseHeader};
use std::alloc::Global;

/// A filter of heads.
#[derive(Clone, Copy, Debug, PartialEq, Eq)]
pub enum Marking {
    /// Adds the line `x-mark` with this number, in decimal, behind all others of a reply's header.
    Mark(u32),
    /// Refuses each request for the target `/refuse` with this number.
    Refuse(u32),
}

/// The module of one of them, which begins each exchange as it was added.
pub type MarkingModule = HeadModule<Marking>;

impl HeadFilter for Marking {
    ghost request = { filtered_request };

    ghost response = { filtered_header };

    fn filter_request(&self, _: Global, req: &mut RequestHeader) -> Result<(), Error> {
        match *self {
            Marking::Mark(_) => Ok(()),
            Marking::Refuse(number) => {
                if asks_refusal(req) {
                    return Err(Error::from(ErrorType::ModuleFailed(number)));
                }
                Ok(())
            }
        }
    }

    fn filter_response(&self, alloc: Global, resp: &mut ResponseHeader) -> Result<(), Error> {
        match *self {
            Marking::Mark(number) => mark(alloc, resp, number),
            Marking::Refuse(_) => Ok(()),
        }
    }
}

impl LawfulFilter for Marking {
    ghost use Rattle.std.specs.Prelude.{codes, decimal, refl};
    ghost use Rattle.h1_app.specs.LawfulHeads.{line_keeps};
    ghost use Rattle.h1_marking.specs.declared.marking.Marking.TheVariants.{Mark, Refuse};

    ghost keeps = { elim [
      | Mark number ↦ line_keeps (codes "x-mark") (decimal number) refl
      | Refuse number ↦ λ header lawful. lawful
    ] };
}

/// Whether a request is for the target that is refused.
fn asks_refusal(req: &RequestHeader) -> bool
    ensures { result ≡ asks_refusal req.now }
{
    req.raw_path() == b"/refuse".as_slice()
}

/// Adds the line of a mark behind all others.
fn mark(alloc: Global, resp: &mut ResponseHeader, number: u32) -> Result<(), Error>
    ensures ok { OnOk result (resp.new ≡ marked number resp.old) }
    ensures err { IsOkUnless result no_memory }
    ensures same { OnErr result (resp.new ≡ resp.old) }
{
    let digits = number.to_string(alloc)?;
    resp.append_header(b"x-mark", digits.as_bytes())
}
