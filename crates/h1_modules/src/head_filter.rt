//! Filters of heads alone, and the module that each of them makes.
ghost use Rattle.std.specs.Prelude.{◌≡◌, ℕ, ℤ, Result, Ok, None, IfErr, OnOk, OnErr, pos};
ghost use Rattle.h1_head.specs.Views.{RequestView, ResponseView};
ghost use Rattle.h1_modules.specs.Heads.{stateless};
ghost use Rattle.h1_modules.specs.Outcome.{ErrsBy, refused_by};

use crate::{HttpModule, HttpModuleBuilder};
use bytes::Bytes;
use h1_error::Error;
use h1_head::{Fields, RequestHeader, ResponseHeader};
use std::alloc::Global;

/// What filters the heads of requests and of responses, and keeps nothing from one to the other.
///
/// A filter of a head answers its outcome, or that it had no memory, and an error leaves the head
/// as it was. One that passes every head on writes `Ok(())`, and leaves its ghost member out. What
/// keeps state, or filters bodies or trailers, is an [`HttpModule`] of its own.
pub trait HeadFilter: Copy {
    /// What becomes of the head of a request, or the number of a refusal.
    ghost request: { Self → RequestView → Result RequestView ℕ } = { λ _ head. Ok head };

    /// What becomes of the head of a response, or the number of a refusal.
    ghost response: { Self → ResponseView → Result ResponseView ℕ } = { λ _ head. Ok head };

    /// Filters the head of a request. It refuses with `ModuleFailed` and a number, which is no
    /// status: the connection ends without a reply, and its end tells the number.
    fn filter_request(&self, alloc: Global, req: &mut RequestHeader) -> Result<(), Error>
        ensures ok { OnOk result (request self.now req.old ≡ Ok req.new) }
        ensures err { IfErr result (ErrsBy refused_by (request self.now req.old)) }
        ensures same { OnErr result (req.new ≡ req.old) };

    /// Filters the head of a response. It refuses with `ModuleFailed` and a number: the connection
    /// ends in place of this reply, and its end tells the number.
    fn filter_response(&self, alloc: Global, resp: &mut ResponseHeader) -> Result<(), Error>
        ensures ok { OnOk result (response self.now resp.old ≡ Ok resp.new) }
        ensures err { IfErr result (ErrsBy refused_by (response self.now resp.old)) }
        ensures same { OnErr result (resp.new ≡ resp.old) };
}

/// The module that filters heads with what it is given, and leaves bodies, trailers and the end of
/// a response as they are. It is its own builder.
#[derive(Clone, Copy, Debug, PartialEq, Eq)]
pub struct HeadModule<F> {
    pub filter: F,
    /// Where it runs among others: the higher, the earlier; 0 where it doesn't matter.
    pub order: i16,
    /// A number that no other module of a server has.
    pub key: u32,
}

impl<F: HeadFilter> HeadModule<F> {
    /// The module of this filter, whose place among others doesn't matter. The key is a number that
    /// no other module of the server has: a second one of it is refused (`Duplicate`).
    pub fn new(filter: F, key: u32) -> Self
        ensures { result ≡ record { filter = filter; order = pos 0; key = key } }
    {
        HeadModule {
            filter,
            order: 0,
            key,
        }
    }
}

impl<F: HeadFilter> HttpModule for HeadModule<F> {
    ghost request_header = { λ m head. stateless m (F.request m.filter head) };

    ghost request_body = { λ end m piece. Ok (m, piece) };

    ghost response_header = { λ end m head. stateless m (F.response m.filter head) };

    ghost response_body = { λ end m piece. Ok (m, piece) };

    ghost response_trailer = { λ m trailers. Ok (m, (trailers, None)) };

    ghost response_done = { λ m. Ok (m, None) };

    fn request_header_filter(
        &mut self,
        alloc: Global,
        req: &mut RequestHeader,
    ) -> Result<(), Error> {
        self.filter.filter_request(alloc, req)
    }

    fn request_body_filter(
        &mut self,
        _: Global,
        _: &mut Option<Bytes>,
        _: bool,
    ) -> Result<(), Error> {
        Ok(())
    }

    fn response_header_filter(
        &mut self,
        alloc: Global,
        resp: &mut ResponseHeader,
        _: bool,
    ) -> Result<(), Error> {
        self.filter.filter_response(alloc, resp)
    }

    fn response_body_filter(
        &mut self,
        _: Global,
        _: &mut Option<Bytes>,
        _: bool,
    ) -> Result<(), Error> {
        Ok(())
    }

    fn response_trailer_filter(
        &mut self,
        _: Global,
        _: &mut Option<Fields>,
    ) -> Result<Option<Bytes>, Error> {
        Ok(None)
    }

    fn response_done_filter(&mut self, _: Global) -> Result<Option<Bytes>, Error> {
        Ok(None)
    }
}

impl<F: HeadFilter> HttpModuleBuilder for HeadModule<F> {
    type Module = HeadModule<F>;

    ghost order = { λ m. m.order };

    ghost key = { λ m. m.key };

    ghost begins = { λ m. m };

    fn order(&self) -> i16 {
        self.order
    }

    fn init(&self, _: Global) -> Result<HeadModule<F>, Error> {
        Ok(*self)
    }

    fn key(&self) -> u32 {
        self.key
    }
}
