//! A module for tests, which tells in the header of a reply what its filter was told, changes heads
//! and bodies as it is set, and refuses in one filter.
ghost use Rattle.std.specs.Prelude.{◌≡◌, ◌==◌, ◌++◌, ◌∷◌, [], Bool, Ok, Err, None, Some, IfOk, IsOkUnless, pos, unwrap_or, codes, if◌then◌else◌};
ghost use Rattle.h1_error.specs.Memory.{no_memory};
ghost use Rattle.h1_head.specs.Request.{new_request};

use bytes::Bytes;
use h1_app::{HttpModule, HttpModuleBuilder, LawfulFor, ServeHttp};
use h1_error::{Error, ErrorType};
use h1_head::{Fields, RequestHeader, ResponseHeader};
use h1_link::Link;
use std::alloc::Global;

/// The filters that a connection runs.
pub const REQUEST: u8 = 0;

pub const HEADER: u8 = 1;

pub const BODY: u8 = 2;

/// No filter.
pub const NEVER: u8 = 3;

/// Puts a line `x-acts` behind all others of a reply's header: `more` where a body follows, `end`
/// where none does, and `again` where it put one in this exchange before. It is its own builder.
#[derive(Clone, Copy)]
pub struct Acts {
    pub key: u32,
    /// The filter in which it refuses, with its key.
    pub refuses_at: u8,
    /// Whether it has the application asked to GET nothing, whatever was asked.
    pub blanks: bool,
    /// Whether it takes the body of a reply away.
    pub empties: bool,
    /// Whether it puts an exclamation mark behind the body of a reply.
    pub exclaims: bool,
    /// Whether it put its line in this exchange.
    pub told: bool,
}

/// One that refuses nothing and puts its line alone.
pub const ACTS: Acts = Acts {
    key: 1,
    refuses_at: NEVER,
    blanks: false,
    empties: false,
    exclaims: false,
    told: false,
};

impl Acts {
    fn word(&self, end: bool) -> &'static [u8]
        ensures { result.now ≡ (if self.now.told then codes "again"
            else (if end then codes "end" else codes "more")) }
    {
        if self.told {
            b"again"
        } else if end {
            b"end"
        } else {
            b"more"
        }
    }
}

/// A body with an exclamation mark behind it.
fn exclaimed(alloc: Global, body: &Option<Bytes>) -> Result<Bytes, Error>
    ensures ok { IfOk result (λ made. made ≡ unwrap_or body.now [] ++ 33 ∷ []) }
    ensures err { IsOkUnless result no_memory }
{
    let mut bytes = Vec::new(alloc);
    if let Some(body) = body {
        bytes.extend_from_slice(body.as_slice())?;
    }
    bytes.push(b'!')?;
    let made = Bytes::from_vec(bytes)?;
    Ok(made)
}

impl HttpModule for Acts {
    ghost request_header = { λ acts req. if acts.refuses_at == 0 then Err acts.key
        else Ok (acts, if acts.blanks then new_request (codes "GET") [] else req) };

    ghost request_body = { λ end acts body. Ok (acts, body) };

    ghost response_header = { λ end acts resp. if acts.refuses_at == 1 then Err acts.key
        else Ok (
          record acts { told = Bool.true },
          record resp {
            fields = resp.fields
                ++ (
                  codes "x-acts",
                  if acts.told then codes "again"
                      else (if end then codes "end" else codes "more"),
                ) ∷ [];
          },
        ) };

    ghost response_body = { λ end acts body. if acts.refuses_at == 2 then Err acts.key
        else Ok (
          acts,
          if acts.empties then None
              else (if acts.exclaims then Some (unwrap_or body [] ++ 33 ∷ []) else body),
        ) };

    ghost response_trailer = { λ acts trailers. Ok (acts, (trailers, None)) };

    ghost response_done = { λ acts. Ok (acts, None) };

    fn request_header_filter(
        &mut self,
        alloc: Global,
        req: &mut RequestHeader,
    ) -> Result<(), Error> {
        if self.refuses_at == REQUEST {
            return Err(Error::from(ErrorType::ModuleFailed(self.key)));
        }
        if self.blanks {
            *req = RequestHeader::new(alloc);
        }
        Ok(())
    }

    fn request_body_filter(
        &mut self,
        _: Global,
        _: &mut Option<Bytes>,
        _: bool,
    ) -> Result<(), Error> {
        Ok(())
    }

    fn response_header_filter(
        &mut self,
        _: Global,
        resp: &mut ResponseHeader,
        end: bool,
    ) -> Result<(), Error> {
        if self.refuses_at == HEADER {
            return Err(Error::from(ErrorType::ModuleFailed(self.key)));
        }
        match resp.append_header(b"x-acts", self.word(end)) {
            Ok(()) => {
                self.told = true;
                Ok(())
            }
            Err(_) => Err(Error::from(ErrorType::NoMemory)),
        }
    }

    fn response_body_filter(
        &mut self,
        alloc: Global,
        body: &mut Option<Bytes>,
        _: bool,
    ) -> Result<(), Error> {
        if self.refuses_at == BODY {
            return Err(Error::from(ErrorType::ModuleFailed(self.key)));
        }
        if self.empties {
            *body = None;
        } else if self.exclaims {
            *body = Some(exclaimed(alloc, body)?);
        }
        Ok(())
    }

    fn response_trailer_filter(
        &mut self,
        _: Global,
        _: &mut Option<Fields>,
    ) -> Result<Option<Bytes>, Error> {
        Ok(None)
    }

    fn response_done_filter(&mut self, _: Global) -> Result<Option<Bytes>, Error> {
        Ok(None)
    }
}

impl HttpModuleBuilder for Acts {
    type Module = Acts;

    ghost order = { λ acts. pos 0 };

    ghost key = { λ acts. acts.key };

    ghost begins = { λ acts. acts };

    fn order(&self) -> i16 {
        0
    }

    fn init(&self, _: Global) -> Result<Acts, Error> {
        Ok(*self)
    }

    fn key(&self) -> u32 {
        self.key
    }
}

impl<L: Link + Drop, C: Drop, SV: ServeHttp<L, C>> LawfulFor<L, C, SV> for Acts {
    ghost use Rattle.h1_app.specs.Filtering.{chain_of};
    ghost use Rattle.h1_app.specs.LawfulModules.{chain_lawful};
    ghost use Rattle.h1_checks.specs.declared.tests.acts.Acts.{Acts};
    ghost use Rattle.h1_checks.specs.Refusing.{refused_or, acts_frames_nothing};
    ghost use Rattle.h1_modules.specs.Keeping.{run_keeps};
    ghost use Rattle.h1_transcript.specs.Lawful.{IsLawful};
    ghost use Rattle.h1_transcript.specs.LawfulLines.{lawful_behind};

    ghost lawful = { λ app builders. chain_lawful (SV.gives app) (SV.lawful app)
        (chain_of ⟦<Acts as HttpModuleBuilder>⟧ ⟦<Acts as HttpModule>⟧ builders)
        (λ end. run_keeps IsLawful _
        (λ (acts : Acts) resp lawful. refused_or (acts.refuses_at == 1) acts.key
        (record acts { told = Bool.true })
        (record resp {
          fields = resp.fields
              ++ (
                codes "x-acts",
                if acts.told then codes "again"
                    else (if end then codes "end" else codes "more"),
              ) ∷ [];
        })
        (lawful_behind resp (
          codes "x-acts",
          if acts.told then codes "again"
              else (if end then codes "end" else codes "more"),
        ) acts_frames_nothing lawful))) };
}
