//! Reading a request's head off the link (RFC 9112, sections 2.2 and 3).
ghost use Rattle.std.specs.Prelude.{IfOk, IfSome, IsOkUnless};
ghost use Rattle.h1_cut.specs.Limit.{CutsAt};
ghost use Rattle.h1_error.specs.Memory.{no_memory};
ghost use Rattle.h1_head.specs.RequestHead.{RefusedAt, NotYetAt};
ghost use Rattle.h1_head.specs.declared.limits.TheConstants.{MAX_HEADER_SIZE};
ghost use Rattle.h1_transfer.specs.Heads.{FoundIn};
ghost use Rattle.h1_server.specs.Requests.{IsPlaceOf, IsRequestOf};

use crate::Request;
use crate::request_place::RequestPlace;
use h1_error::{Error, HeadFault};
use h1_head::{HeadEnd, HeadSearch, Room, find_head_end};
use h1_transfer::{Head, HeadFound};
use std::alloc::Global;

impl Head for RequestPlace {
    ghost is_at = { IsPlaceOf };

    ghost refuses = { RefusedAt };

    ghost lacks = { NotYetAt };

    #[inline(always)]
    fn search(
        alloc: Global,
        search: &mut HeadSearch,
        bytes: &[u8],
        room: &mut Room,
        found: &mut Self,
    ) -> Result<HeadFound, Error> {
        // Before the first byte there is nothing to look at.
        if bytes.is_empty() {
            return Ok(HeadFound::NotYet);
        }
        // Most heads are whole at the first look, and the grammar tells their end without a search.
        if search.at() == 0 {
            if let Some(known) = judge_first(bytes, room, found)? {
                return Ok(known);
            }
        }
        match find_head_end(search, bytes) {
            HeadEnd::At(len) => judge(alloc, bytes, len, room, &mut found.request),
            HeadEnd::NotYet => Ok(HeadFound::NotYet),
            HeadEnd::TooLong => Ok(HeadFound::Refused(HeadFault::TooLong)),
        }
    }
}

/// Accepts or refuses the head at the front of the bytes, where the grammar tells its end.
#[inline(always)]
fn judge_first(
    bytes: &[u8],
    room: &mut Room,
    place: &mut RequestPlace,
) -> Result<Option<HeadFound>, Error>
    ensures ok { IfOk result (λ known. IfSome known
        (FoundIn IsPlaceOf RefusedAt NotYetAt bytes.now place.new)) }
    ensures err { IsOkUnless result no_memory }
{
    let (request, spans) = (&mut place.request, &mut place.spans);
    match request.read_front(bytes, room, spans)? {
        Some((None, len)) => Ok(Some(HeadFound::Whole(len))),
        Some((Some(fault), _)) => Ok(Some(HeadFound::Refused(fault))),
        None => Ok(None),
    }
}

/// Accepts or refuses the head that ends after so many of the bytes. The request is read into its
/// place, so that it isn't moved. It isn't inlined, since a search that finds no end would pay for
/// its locals.
#[inline(never)]
fn judge(
    alloc: Global,
    bytes: &[u8],
    len: usize,
    room: &mut Room,
    request: &mut Request,
) -> Result<HeadFound, Error>
    requires ends { CutsAt MAX_HEADER_SIZE bytes.now len }
    ensures ok { IfOk result (FoundIn IsRequestOf RefusedAt NotYetAt bytes.now request.new) }
    ensures err { IsOkUnless result no_memory }
{
    match request.read(alloc, &bytes[..len], room)? {
        None => Ok(HeadFound::Whole(len)),
        Some(fault) => Ok(HeadFound::Refused(fault)),
    }
}
