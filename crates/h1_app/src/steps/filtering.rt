//! What the modules of an exchange make of its head and of its reply.
ghost use Rattle.std.specs.Prelude.{◌≡◌, IfErr, IfOk, IfSome, IsSome, Ok, OnOk, Some, map, true, unwrap_or, []};
ghost use Rattle.h1_app.specs.Filtering.{is_empty};
ghost use Rattle.h1_modules.specs.Filters.{run};
ghost use Rattle.h1_modules.specs.Outcome.{ErrsBy, Piece, refused_by};

use crate::Entry;
use bytes::Bytes;
use h1_error::Error;
use h1_head::{RequestHeader, ResponseHeader};
use h1_modules::{HttpModule, HttpModuleBuilder, HttpModuleCtx, HttpModules};
use std::alloc::Global;

/// Begins the modules of an exchange, and filters the head of its request.
pub(super) fn filter_request<B: HttpModuleBuilder + Drop>(
    alloc: Global,
    builders: &HttpModules<B>,
    modules: &mut HttpModuleCtx<B::Module>,
    head: &mut RequestHeader,
) -> Result<(), Error>
    ensures ok { OnOk result (run B.Module.request_header (map B.begins builders.now) head.old
        ≡ Ok (modules.new.modules, head.new)) }
    ensures err { IfErr result (ErrsBy refused_by
        (run B.Module.request_header (map B.begins builders.now) head.old)) }
{
    *modules = builders.build_ctx(alloc)?;
    modules.request_header_filter(alloc, head)
}

/// What the modules make of the reply's header, of which this is a copy.
#[inline(always)]
pub(super) fn sent_header<M: HttpModule + Drop>(
    alloc: Global,
    entry: &Entry,
    modules: &mut HttpModuleCtx<M>,
) -> Result<ResponseHeader, Error>
    requires { IsSome entry.now.reply }
    ensures ok { IfOk result (λ header. IfSome entry.now.reply (λ reply.
        run (M.response_header (is_empty reply.body)) modules.old.modules reply.header
        ≡ Ok (modules.new.modules, header))) }
    ensures err { IfErr result (λ error. IfSome entry.now.reply (λ reply. ErrsBy refused_by
        (run (M.response_header (is_empty reply.body)) modules.old.modules reply.header) error)) }
{
    let Some(reply) = entry.reply() else {
        unreachable!()
    };
    let mut header = reply.header.copy()?;
    if !modules.is_empty() {
        filter_header(alloc, modules, &mut header, reply.body.is_empty())?;
    }
    Ok(header)
}

/// Filters a reply's header, where there are modules.
#[cold]
#[inline(never)]
fn filter_header<M: HttpModule + Drop>(
    alloc: Global,
    modules: &mut HttpModuleCtx<M>,
    header: &mut ResponseHeader,
    end: bool,
) -> Result<(), Error>
    ensures ok { OnOk result (run (M.response_header end) modules.old.modules header.old
        ≡ Ok (modules.new.modules, header.new)) }
    ensures err { IfErr result (ErrsBy refused_by
        (run (M.response_header end) modules.old.modules header.old)) }
{
    modules.response_header_filter(alloc, header, end)
}

/// What the modules make of the reply's body, of which this is all. It is empty where they took it
/// away.
pub(super) fn filter_body<M: HttpModule + Drop>(
    alloc: Global,
    body: Bytes,
    modules: &mut HttpModuleCtx<M>,
) -> Result<Bytes, Error>
    ensures ok { IfOk result (λ bytes. (sent : Piece)
        × (run (M.response_body true) modules.old.modules (Some body)
        ≡ Ok (modules.new.modules, sent)) × (bytes ≡ unwrap_or sent [])) }
    ensures err { IfErr result (ErrsBy refused_by
        (run (M.response_body true) modules.old.modules (Some body))) }
{
    let mut piece = Some(body);
    modules.response_body_filter(alloc, &mut piece, true)?;
    Ok(piece.unwrap_or(Bytes::new()))
}
