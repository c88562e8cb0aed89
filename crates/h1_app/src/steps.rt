//! The steps of an exchange: each makes the calls of one stage.
ghost use Rattle.h1_app.specs.Sound.{IsInWork};
ghost use Rattle.h1_app.specs.Asking.{GathersLast};
ghost use Rattle.h1_app.specs.Turn.{LeavesBy};
ghost use Rattle.h1_app.specs.Filtering.{chain_of};
ghost use Rattle.h1_app.specs.FilterSteps.{FilterReady, SteppedWith};
ghost use Rattle.h1_app.specs.Step.{Continues};

mod answering;
mod draining;
mod filtering;
mod joining;
mod reading_head;
mod replying;

use crate::exchange::{Exchange, Outcome, Stage};
use crate::{HttpServer, LawfulFor, ServeHttp};
use h1_link::Link;
use h1_modules::HttpModuleCtx;
pub(crate) use joining::next_exchange;
use std::alloc::Global;

/// Makes one step: the calls of the stage at which the exchange stands.
#[inline(always)]
pub(crate) fn step<L, SV, B, C>(
    alloc: Global,
    server: &HttpServer<SV, B>,
    modules: &mut HttpModuleCtx<B::Module>,
    exchange: &mut Exchange<L, SV::Job, C>,
    now: u64,
    shutdown: bool,
) -> Outcome
where
    L: Link + Drop,
    SV: ServeHttp<L, C> + Drop,
    B: LawfulFor<L, C, SV> + Drop,
    C: Drop,
    requires ready { FilterReady (SV.gives server.now.app) (SV.runs server.now.app)
        (chain_of B.HttpModuleBuilder B.Module.HttpModule server.now.modules) now
        modules.old.modules exchange.old }
    requires unfinished { IsInWork exchange.old.stage }
    requires holds { GathersLast (SV.takes_whole server.now.app) exchange.old.transcript.last }
    ensures stepped { SteppedWith L.state SV.pends (SV.gives server.now.app) (SV.runs server.now.app)
        (chain_of B.HttpModuleBuilder B.Module.HttpModule server.now.modules) now shutdown
        modules.new.modules exchange.old exchange.new result }
    ensures continues { Continues L.state L.same_plan SV.begins SV.pends exchange.old exchange.new
        result }
    ensures leaves { LeavesBy L.state exchange.old exchange.new result }
{
    match exchange.stage {
        Stage::Head => reading_head::read(alloc, server, modules, exchange, now, shutdown),
        Stage::Answer(_) => answering::answer(&server.app, exchange, now),
        Stage::TakeHeader => replying::take_header(alloc, server, modules, exchange, now),
        Stage::Header => replying::write_header(&server.app, exchange, now),
        Stage::TakeBody => replying::take_body(alloc, server, modules, exchange, now),
        Stage::Body => replying::write_body(&server.app, exchange, now),
        Stage::Finish => replying::finish(&server.app, exchange, now),
        Stage::Drain => draining::drain(&server.app, exchange, now),
        Stage::Next => unreachable!(),
    }
}
