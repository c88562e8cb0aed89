//! The module that lets gRPC-web clients reach a gRPC server (gRPC's PROTOCOL-WEB.md).
ghost use Rattle.std.specs.Prelude.{◌≡◌, Ok, None, pos};
ghost use Rattle.h1_modules.specs.declared.grpc_web.GrpcWebCtx.TheVariants.{Disabled};
ghost use Rattle.h1_modules.specs.GrpcWeb.{filtered_request, filtered_response, filtered_some};

use crate::{GrpcWebCtx, HttpModule, HttpModuleBuilder};
use bytes::Bytes;
use h1_error::Error;
use h1_head::{Fields, RequestHeader, ResponseHeader};
use std::alloc::Global;
use std::marker::Model;
use std::ops::{Deref, DerefMut};

/// A context of gRPC-web as a module. A contract sees the context. It changes nothing until `init`
/// of the context is called.
#[derive(Debug, Drop)]
pub struct GrpcWebBridge(GrpcWebCtx);

impl Model for GrpcWebBridge {
    ghost use Rattle.h1_modules.specs.declared.grpc_web.GrpcWebCtx.{GrpcWebCtx};

    ghost Value = { GrpcWebCtx };

    ghost view = { λ b. b.0 };
}

impl Default for GrpcWebBridge {
    ghost is_default = { λ b. b ≡ Disabled };

    fn default() -> GrpcWebBridge {
        GrpcWebBridge(GrpcWebCtx::Disabled)
    }
}

impl Deref for GrpcWebBridge {
    type Target = GrpcWebCtx;

    ghost deref_gives = { λ b context. context ≡ b };

    fn deref(&self) -> &GrpcWebCtx {
        &self.0
    }
}

impl DerefMut for GrpcWebBridge {
    ghost use Rattle.std.specs.Borrow.{Lends, sem};
    ghost use Rattle.h1_modules.specs.contracts.bridge.GrpcWebBridge.{the_row};
    ghost use Rattle.h1_modules.specs.contracts.grpc_web.GrpcWebCtx.{the_row as context_row};

    ghost deref_mut_gives = { λ b context. context ≡ b };

    fn deref_mut(&mut self) -> &mut GrpcWebCtx
        ensures* writes_back { sem 𝓛 (Lends the_row context_row self.entry result (λ context. context)) }
        ensures shows { result.now ≡ self.old }
    {
        &mut self.0
    }
}

impl HttpModule for GrpcWebBridge {
    ghost request_header = { λ b req. Ok (filtered_request b req) };

    ghost request_body = { λ end b body. Ok (b, body) };

    ghost response_header = { λ end b resp. Ok (filtered_response b resp) };

    ghost response_body = { λ end b body. Ok (b, body) };

    ghost response_trailer = { λ b trailers. filtered_some b trailers };

    ghost response_done = { λ b. Ok (b, None) };

    fn request_header_filter(
        &mut self,
        alloc: Global,
        req: &mut RequestHeader,
    ) -> Result<(), Error> {
        self.0.request_header_filter(alloc, req)
    }

    fn request_body_filter(
        &mut self,
        _: Global,
        _: &mut Option<Bytes>,
        _: bool,
    ) -> Result<(), Error> {
        Ok(())
    }

    fn response_header_filter(
        &mut self,
        alloc: Global,
        resp: &mut ResponseHeader,
        _: bool,
    ) -> Result<(), Error> {
        self.0.response_header_filter(alloc, resp)
    }

    fn response_body_filter(
        &mut self,
        _: Global,
        _: &mut Option<Bytes>,
        _: bool,
    ) -> Result<(), Error> {
        Ok(())
    }

    fn response_trailer_filter(
        &mut self,
        alloc: Global,
        trailers: &mut Option<Fields>,
    ) -> Result<Option<Bytes>, Error> {
        match trailers {
            Some(trailers) => self.0.response_trailer_filter(alloc, trailers),
            None => Ok(None),
        }
    }

    fn response_done_filter(&mut self, _: Global) -> Result<Option<Bytes>, Error> {
        Ok(None)
    }
}

/// The builder of the module, which begins each exchange with nothing to change.
#[derive(Clone, Copy, Debug, PartialEq, Eq)]
pub struct GrpcWeb;

impl HttpModuleBuilder for GrpcWeb {
    type Module = GrpcWebBridge;

    ghost order = { λ builder. pos 0 };

    ghost key = { λ builder. 1 };

    ghost begins = { λ builder. Disabled };

    fn order(&self) -> i16 {
        0
    }

    fn init(&self, _: Global) -> Result<GrpcWebBridge, Error> {
        Ok(GrpcWebBridge::default())
    }

    fn key(&self) -> u32 {
        1
    }
}
