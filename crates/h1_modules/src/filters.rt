//! The filters of several modules, one after another, up to the first error.
ghost use Rattle.std.specs.Prelude.{◌≡◌, ℕ, None, Ok, IfOk, IfErr, OnOk};
ghost use Rattle.h1_modules.specs.Outcome.{Piece, ErrsBy, refused_by, trailer_error};
ghost use Rattle.h1_modules.specs.Filters.{run, StoppedAt, keeping_buffer, keeping_last};

use crate::HttpModule;
use bytes::Bytes;
use h1_error::Error;
use h1_head::{Fields, RequestHeader, ResponseHeader};
use std::alloc::Global;

/// Filters the head of a request.
pub(crate) fn filter_request_header<M: HttpModule>(
    modules: &mut [M],
    alloc: Global,
    req: &mut RequestHeader,
) -> Result<(), Error>
    ensures ok { OnOk result (run M.request_header modules.old req.old
        ≡ Ok (modules.new, req.new)) }
    ensures err { IfErr result (ErrsBy refused_by (run M.request_header modules.old req.old)) }
    ensures part { IfErr result (λ error. (count : ℕ)
        × StoppedAt M.request_header refused_by count
        modules.old modules.new req.old req.new error) }
{
    for filter in modules.iter_mut() {
        filter.request_header_filter(alloc, req)?;
    }
    Ok(())
}

/// Filters a piece of a request's body.
pub(crate) fn filter_request_body<M: HttpModule>(
    modules: &mut [M],
    alloc: Global,
    body: &mut Option<Bytes>,
    end: bool,
) -> Result<(), Error>
    ensures ok { OnOk result (run (M.request_body end) modules.old body.old
        ≡ Ok (modules.new, body.new)) }
    ensures err { IfErr result (ErrsBy refused_by
        (run (M.request_body end) modules.old body.old)) }
    ensures part { IfErr result (λ error. (count : ℕ)
        × StoppedAt (M.request_body end) refused_by count
        modules.old modules.new body.old body.new error) }
{
    for filter in modules.iter_mut() {
        filter.request_body_filter(alloc, body, end)?;
    }
    Ok(())
}

/// Filters the head of a response.
pub(crate) fn filter_response_header<M: HttpModule>(
    modules: &mut [M],
    alloc: Global,
    resp: &mut ResponseHeader,
    end: bool,
) -> Result<(), Error>
    ensures ok { OnOk result (run (M.response_header end) modules.old resp.old
        ≡ Ok (modules.new, resp.new)) }
    ensures err { IfErr result (ErrsBy refused_by
        (run (M.response_header end) modules.old resp.old)) }
    ensures part { IfErr result (λ error. (count : ℕ)
        × StoppedAt (M.response_header end) refused_by count
        modules.old modules.new resp.old resp.new error) }
{
    for filter in modules.iter_mut() {
        filter.response_header_filter(alloc, resp, end)?;
    }
    Ok(())
}

/// Filters a piece of a response's body.
pub(crate) fn filter_response_body<M: HttpModule>(
    modules: &mut [M],
    alloc: Global,
    body: &mut Option<Bytes>,
    end: bool,
) -> Result<(), Error>
    ensures ok { OnOk result (run (M.response_body end) modules.old body.old
        ≡ Ok (modules.new, body.new)) }
    ensures err { IfErr result (ErrsBy refused_by
        (run (M.response_body end) modules.old body.old)) }
    ensures part { IfErr result (λ error. (count : ℕ)
        × StoppedAt (M.response_body end) refused_by count
        modules.old modules.new body.old body.new error) }
{
    for filter in modules.iter_mut() {
        filter.response_body_filter(alloc, body, end)?;
    }
    Ok(())
}

/// Filters the trailers of a response, and gives the last buffer.
pub(crate) fn filter_response_trailer<M: HttpModule>(
    modules: &mut [M],
    alloc: Global,
    trailers: &mut Option<Fields>,
) -> Result<Option<Bytes>, Error>
    ensures ok { IfOk result (λ buffer.
        run (keeping_buffer M.response_trailer) modules.old (trailers.old, None)
        ≡ Ok (modules.new, (trailers.new, buffer))) }
    ensures err { IfErr result (ErrsBy trailer_error
        (run (keeping_buffer M.response_trailer) modules.old (trailers.old, None))) }
    ensures part { IfErr result (λ error. (count : ℕ) × (buffer : Piece)
        × StoppedAt (keeping_buffer M.response_trailer) trailer_error count
        modules.old modules.new (trailers.old, None) (trailers.new, buffer) error) }
{
    let mut last: Option<Bytes> = None;
    for filter in modules.iter_mut() {
        let buffer = filter.response_trailer_filter(alloc, trailers)?;
        last = buffer.or(last);
    }
    Ok(last)
}

/// Tells the modules that the response is done, and gives the last buffer.
pub(crate) fn filter_response_done<M: HttpModule>(
    modules: &mut [M],
    alloc: Global,
) -> Result<Option<Bytes>, Error>
    ensures ok { IfOk result (λ buffer.
        run (keeping_last M.response_done) modules.old None ≡ Ok (modules.new, buffer)) }
    ensures err { IfErr result (ErrsBy refused_by
        (run (keeping_last M.response_done) modules.old None)) }
    ensures part { IfErr result (λ error. (count : ℕ) × (buffer : Piece)
        × StoppedAt (keeping_last M.response_done) refused_by count
        modules.old modules.new None buffer error) }
{
    let mut last: Option<Bytes> = None;
    for filter in modules.iter_mut() {
        let given = filter.response_done_filter(alloc)?;
        last = given.or(last);
    }
    Ok(last)
}
