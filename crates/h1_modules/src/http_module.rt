//! What a module is, and what makes one for each exchange.
ghost use Rattle.std.specs.Prelude.{◌≡◌, ℕ, ℤ, Bool, List, Option, Ok, IfOk, IfErr, OnOk, OnErr, IsOkUnless};
ghost use Rattle.h1_error.specs.Memory.{no_memory};
ghost use Rattle.h1_fields.specs.Lines.{Line};
ghost use Rattle.h1_head.specs.Views.{RequestView, ResponseView};
ghost use Rattle.h1_modules.specs.Outcome.{Outcome, Piece, TrailerRefusal, ErrsBy, refused_by, trailer_error};

use bytes::Bytes;
use h1_error::Error;
use h1_head::{Fields, RequestHeader, ResponseHeader};
use std::alloc::Global;

/// A module of one exchange: six filters, and what it keeps between them.
///
/// The module itself is the state that contracts see. Each filter has one outcome for the module and
/// the value before, and for the end flag where there is one: the module and the value after, with
/// the buffer where the filter gives one, or a refusal. It answers that outcome, or that it had no
/// memory, and an error leaves module and value as they were. A filter that changes nothing has
/// the outcome that it was given, answers `Ok(())` and gives no buffer.
pub trait HttpModule {
    /// What becomes of the head of a request, or the number of a refusal.
    ghost request_header: { Self → RequestView → Outcome Self RequestView ℕ };

    /// What becomes of a piece of a request's body; the flag says that it is the last.
    ghost request_body: { Bool → Self → Piece → Outcome Self Piece ℕ };

    /// What becomes of the head of a response; the flag says that no body follows.
    ghost response_header: { Bool → Self → ResponseView → Outcome Self ResponseView ℕ };

    /// What becomes of a piece of a response's body; the flag says that it is the last.
    ghost response_body: { Bool → Self → Piece → Outcome Self Piece ℕ };

    /// What becomes of a response's trailers, and the buffer that the body gets for them.
    ghost response_trailer: { Self → Option (List Line)
        → Outcome Self (Option (List Line) × Piece) TrailerRefusal };

    /// The buffer that the body gets as the response ends.
    ghost response_done: { Self → Outcome Self Piece ℕ };

    /// Filters the head of a request.
    fn request_header_filter(&mut self, alloc: Global, req: &mut RequestHeader) -> Result<(), Error>
        ensures ok { OnOk result (request_header self.old req.old ≡ Ok (self.new, req.new)) }
        ensures err { IfErr result (ErrsBy refused_by (request_header self.old req.old)) }
        ensures same { OnErr result ((self.new ≡ self.old) × (req.new ≡ req.old)) };

    /// Filters a piece of a request's body.
    fn request_body_filter(
        &mut self,
        alloc: Global,
        body: &mut Option<Bytes>,
        end: bool,
    ) -> Result<(), Error>
        ensures ok { OnOk result (request_body end self.old body.old ≡ Ok (self.new, body.new)) }
        ensures err { IfErr result (ErrsBy refused_by (request_body end self.old body.old)) }
        ensures same { OnErr result ((self.new ≡ self.old) × (body.new ≡ body.old)) };

    /// Filters the head of a response.
    fn response_header_filter(
        &mut self,
        alloc: Global,
        resp: &mut ResponseHeader,
        end: bool,
    ) -> Result<(), Error>
        ensures ok { OnOk result (response_header end self.old resp.old ≡ Ok (self.new, resp.new)) }
        ensures err { IfErr result (ErrsBy refused_by (response_header end self.old resp.old)) }
        ensures same { OnErr result ((self.new ≡ self.old) × (resp.new ≡ resp.old)) };

    /// Filters a piece of a response's body.
    fn response_body_filter(
        &mut self,
        alloc: Global,
        body: &mut Option<Bytes>,
        end: bool,
    ) -> Result<(), Error>
        ensures ok { OnOk result (response_body end self.old body.old ≡ Ok (self.new, body.new)) }
        ensures err { IfErr result (ErrsBy refused_by (response_body end self.old body.old)) }
        ensures same { OnErr result ((self.new ≡ self.old) × (body.new ≡ body.old)) };

    /// Filters the trailers of a response. The body gets the buffer, if one is given.
    fn response_trailer_filter(
        &mut self,
        alloc: Global,
        trailers: &mut Option<Fields>,
    ) -> Result<Option<Bytes>, Error>
        ensures ok { IfOk result (λ buffer. response_trailer self.old trailers.old
            ≡ Ok (self.new, (trailers.new, buffer))) }
        ensures err { IfErr result (ErrsBy trailer_error (response_trailer self.old trailers.old)) }
        ensures same { OnErr result ((self.new ≡ self.old) × (trailers.new ≡ trailers.old)) };

    /// Is told that the response is done. The body gets the buffer, if one is given.
    fn response_done_filter(&mut self, alloc: Global) -> Result<Option<Bytes>, Error>
        ensures ok { IfOk result (λ buffer. response_done self.old ≡ Ok (self.new, buffer)) }
        ensures err { IfErr result (ErrsBy refused_by (response_done self.old)) }
        ensures same { OnErr result (self.new ≡ self.old) };
}

/// What makes a module for each exchange.
pub trait HttpModuleBuilder {
    type Module: HttpModule + Drop;

    /// Where the module runs among others: the higher, the earlier.
    ghost order: { Self → ℤ };

    /// What the module is found by.
    ghost key: { Self → ℕ };

    /// The module that each exchange begins with.
    ghost begins: { Self → Self.Module };

    /// Where the module runs among others; 0 where it doesn't matter.
    fn order(&self) -> i16
        ensures { result ≡ order self.now };

    /// The module of a new exchange. Its only error is being out of memory.
    fn init(&self, alloc: Global) -> Result<Self::Module, Error>
        ensures ok { IfOk result (λ made. made ≡ begins self.now) }
        ensures err { IsOkUnless result no_memory };

    /// A number that no other module of a list has.
    fn key(&self) -> u32
        ensures { result ≡ key self.now };
}
