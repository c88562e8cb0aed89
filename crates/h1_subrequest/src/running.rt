//! A subrequest and its handle by any list of events, whichever side makes each.
ghost use Rattle.std.specs.Prelude.{◌≡◌, IfOk, IsOkUnless};
ghost use Rattle.h1_error.specs.Memory.{no_memory};
ghost use Rattle.h1_subrequest.specs.Events.{sub_run};
ghost use Rattle.h1_subrequest.specs.Interleavings.{HoldsTogether};

use crate::{SubCore, SubEvent};
use h1_error::Error;
use h1_head::RequestHeader;
use std::alloc::Global;

/// What these events, in order, leave of a subrequest of this request. Being out of memory is the
/// one error.
pub fn sub_run(
    alloc: Global,
    request: &RequestHeader,
    events: Vec<SubEvent>,
) -> Result<SubCore, Error>
    ensures ok { IfOk result (λ core.
        core ≡ record { request = request.now; state = sub_run request.now events.items }) }
    ensures holds { IfOk result (λ core. HoldsTogether request.now core.state) }
    ensures err { IsOkUnless result no_memory }
{
    match run_all(alloc, request, events) {
        Ok(core) => Ok(core),
        Err(error) => Err(error),
    }
}

fn run_all(alloc: Global, request: &RequestHeader, events: Vec<SubEvent>) -> Result<SubCore, Error>
    ensures ok { IfOk result (λ core.
        core ≡ record { request = request.now; state = sub_run request.now events.items }) }
    ensures err { IsOkUnless result no_memory }
{
    let mut core = SubCore::new(alloc, request)?;
    for event in events {
        core.step(event)?;
    }
    Ok(core)
}
