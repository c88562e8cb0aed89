//! The builder of no module.
ghost use Rattle.std.specs.Prelude.{Ok, None, pos};

use crate::{HttpModule, HttpModuleBuilder};
use bytes::Bytes;
use h1_error::Error;
use h1_head::{Fields, RequestHeader, ResponseHeader};
use std::alloc::Global;

/// The builder of servers without modules, and a module that changes nothing.
#[derive(Clone, Copy, Debug, PartialEq, Eq)]
pub struct NoModules;

impl HttpModule for NoModules {
    ghost request_header = { λ none req. Ok (none, req) };

    ghost request_body = { λ end none body. Ok (none, body) };

    ghost response_header = { λ end none resp. Ok (none, resp) };

    ghost response_body = { λ end none body. Ok (none, body) };

    ghost response_trailer = { λ none trailers. Ok (none, (trailers, None)) };

    ghost response_done = { λ none. Ok (none, None) };

    fn request_header_filter(&mut self, _: Global, _: &mut RequestHeader) -> Result<(), Error> {
        Ok(())
    }

    fn request_body_filter(
        &mut self,
        _: Global,
        _: &mut Option<Bytes>,
        _: bool,
    ) -> Result<(), Error> {
        Ok(())
    }

    fn response_header_filter(
        &mut self,
        _: Global,
        _: &mut ResponseHeader,
        _: bool,
    ) -> Result<(), Error> {
        Ok(())
    }

    fn response_body_filter(
        &mut self,
        _: Global,
        _: &mut Option<Bytes>,
        _: bool,
    ) -> Result<(), Error> {
        Ok(())
    }

    fn response_trailer_filter(
        &mut self,
        _: Global,
        _: &mut Option<Fields>,
    ) -> Result<Option<Bytes>, Error> {
        Ok(None)
    }

    fn response_done_filter(&mut self, _: Global) -> Result<Option<Bytes>, Error> {
        Ok(None)
    }
}

impl HttpModuleBuilder for NoModules {
    type Module = NoModules;

    ghost order = { λ none. pos 0 };

    ghost key = { λ none. 0 };

    ghost begins = { λ none. none };

    fn order(&self) -> i16 {
        0
    }

    fn init(&self, _: Global) -> Result<NoModules, Error> {
        Ok(*self)
    }

    fn key(&self) -> u32 {
        0
    }
}
