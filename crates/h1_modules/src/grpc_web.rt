//! gRPC-web taken for gRPC, and gRPC for gRPC-web (gRPC's PROTOCOL-WEB.md).
ghost use Rattle.std.specs.Prelude.{◌≡◌, true, Ok, IfOk, IfErr, OnOk, OnErr, IsOkUnless};
ghost use Rattle.h1_error.specs.Memory.{no_memory};
ghost use Rattle.h1_modules.specs.Outcome.{ErrsBy, trailer_error};
ghost use Rattle.h1_modules.specs.ContentType.{content_type, is_grpc_web, is_grpc};
ghost use Rattle.h1_modules.specs.GrpcWeb.{grpc_request, web_response, filtered_request, filtered_response, filtered_trailers};

use crate::content_type::{as_grpc, as_grpc_web, is_grpc, is_grpc_web};
use crate::trailer_frame::{frame, trailer_block};
use bytes::Bytes;
use h1_error::{Error, ErrorType};
use h1_head::{Fields, RequestHeader, ResponseHeader};
use std::alloc::Global;

/// How many bytes the block of a frame of trailers has at most.
const MAX_BLOCK: usize = 4_294_967_295;

/// Where the exchange of a gRPC-web client with a gRPC server stands.
///
/// An error of a call leaves the context and the head as they were.
#[derive(Clone, Copy, Debug, Default, PartialEq, Eq)]
pub enum GrpcWebCtx {
    /// Nothing is changed.
    #[default]
    Disabled,
    /// The request is looked at.
    Init,
    /// The request was one of gRPC-web, and goes on as one of gRPC.
    Upgrade,
    /// The response goes out as one of gRPC-web, and its trailers are to become a frame of its body.
    Trailers,
    /// The frame was given.
    Done,
}

impl GrpcWebCtx {
    /// Has the next request looked at.
    pub fn init(&mut self)
        ensures { self.new ≡ GrpcWebCtx.Init }
    {
        *self = GrpcWebCtx::Init;
    }

    /// Makes a request of gRPC-web one of gRPC, where it is to be looked at.
    pub fn request_header_filter(
        &mut self,
        alloc: Global,
        req: &mut RequestHeader,
    ) -> Result<(), Error>
        ensures ok { OnOk result ((self.new, req.new) ≡ filtered_request self.old req.old) }
        ensures err { IsOkUnless result no_memory }
        ensures same { OnErr result ((self.new ≡ self.old) × (req.new ≡ req.old)) }
    {
        match *self {
            GrpcWebCtx::Init => {}
            _ => return Ok(()),
        }
        if !is_grpc_web(content_type_of_request(req)) {
            return Ok(());
        }
        *req = grpc_request(alloc, req)?;
        *self = GrpcWebCtx::Upgrade;
        Ok(())
    }

    /// Makes the gRPC response to a request that was changed one of gRPC-web. A 1xx is passed on.
    pub fn response_header_filter(
        &mut self,
        alloc: Global,
        resp: &mut ResponseHeader,
    ) -> Result<(), Error>
        ensures ok { OnOk result ((self.new, resp.new) ≡ filtered_response self.old resp.old) }
        ensures err { IsOkUnless result no_memory }
        ensures same { OnErr result ((self.new ≡ self.old) × (resp.new ≡ resp.old)) }
    {
        match *self {
            GrpcWebCtx::Upgrade => {}
            _ => return Ok(()),
        }
        let status = resp.status();
        if 100 <= status && status < 200 {
            return Ok(());
        }
        if !is_grpc(content_type_of_response(resp)) {
            *self = GrpcWebCtx::Disabled;
            return Ok(());
        }
        *resp = web_response(alloc, resp)?;
        *self = GrpcWebCtx::Trailers;
        Ok(())
    }

    /// Gives the trailers as a frame of the body, where the response was changed. Trailers of
    /// 2^32 bytes and more are refused with `ReadError`.
    pub fn response_trailer_filter(
        &mut self,
        alloc: Global,
        trailers: &mut Fields,
    ) -> Result<Option<Bytes>, Error>
        ensures ok { IfOk result (λ buffer.
            filtered_trailers self.old trailers.old ≡ Ok (self.new, buffer)) }
        ensures err { IfErr result (ErrsBy trailer_error
            (filtered_trailers self.old trailers.old)) }
        ensures same { OnErr result (self.new ≡ self.old) }
        ensures trailers { trailers.new ≡ trailers.old }
    {
        match *self {
            GrpcWebCtx::Trailers => {}
            _ => {
                *self = GrpcWebCtx::Disabled;
                return Ok(None);
            }
        }
        let block = trailer_block(alloc, trailers)?;
        if block.len() > MAX_BLOCK {
            return Err(Error::from(ErrorType::ReadError));
        }
        let made = frame(alloc, &block)?;
        *self = GrpcWebCtx::Done;
        Ok(Some(made))
    }
}

/// The first content type of a request.
fn content_type_of_request(req: &RequestHeader) -> &[u8]
    ensures { result.now ≡ content_type req.now.fields }
{
    match req.get(b"content-type") {
        Some(value) => value,
        None => b"",
    }
}

/// The first content type of a response.
fn content_type_of_response(resp: &ResponseHeader) -> &[u8]
    ensures { result.now ≡ content_type resp.now.fields }
{
    match resp.get(b"content-type") {
        Some(value) => value,
        None => b"",
    }
}

/// The request as one of gRPC, whose `te` shows that no proxy takes trailers away.
fn grpc_request(alloc: Global, req: &RequestHeader) -> Result<RequestHeader, Error>
    requires { is_grpc_web (content_type req.now.fields) ≡ true }
    ensures ok { IfOk result (λ made. made ≡ grpc_request req.now) }
    ensures err { IsOkUnless result no_memory }
{
    let value = as_grpc(alloc, content_type_of_request(req))?;
    let mut made = req.copy()?;
    made.insert_header(b"content-type", &value)?;
    made.insert_header(b"te", b"trailers")?;
    // The end of the body is told by the body, not by the head.
    made.set_send_end_stream(false);
    Ok(made)
}

/// The response as one of gRPC-web, in chunks, since the frame of trailers makes its body longer.
fn web_response(alloc: Global, resp: &ResponseHeader) -> Result<ResponseHeader, Error>
    requires { is_grpc (content_type resp.now.fields) ≡ true }
    ensures ok { IfOk result (λ made. made ≡ web_response resp.now) }
    ensures err { IsOkUnless result no_memory }
{
    let value = as_grpc_web(alloc, content_type_of_response(resp))?;
    let mut made = resp.copy()?;
    made.insert_header(b"content-type", &value)?;
    made.remove_header(b"content-length");
    made.insert_header(b"transfer-encoding", b"chunked")?;
    Ok(made)
}
