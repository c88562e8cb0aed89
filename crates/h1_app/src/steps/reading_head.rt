//! A head is awaited; with it the exchange begins.
ghost use Rattle.std.specs.Prelude.{◌≡◌, [], IsSome, Option, IfOk, IfErr, IfSome, None, Ok, OnOk, Some, map};
ghost use Rattle.h1_error.specs.Memory.{no_memory};
ghost use Rattle.h1_head.specs.Views.{RequestView};
ghost use Rattle.h1_server.specs.declared.settings.Settings.{Settings};
ghost use Rattle.h1_transcript.specs.Begun.{BeginsIn};
ghost use Rattle.h1_transcript.specs.Entries.{with_last};
ghost use Rattle.h1_transcript.specs.Entry.{Entry};
ghost use Rattle.h1_transcript.specs.declared.history.Holding.{Holding};
ghost use Rattle.h1_modules.specs.Filters.{run};
ghost use Rattle.h1_modules.specs.Outcome.{ErrsBy, refused_by};
ghost use Rattle.h1_transcript.specs.Begun.{head_time};
ghost use Rattle.h1_app.specs.Beginning.{BegunAs, BegunFor, HeadFiltered, HeadRefused, IfLast, IsNewEntry, StartedAs, kept_again};
ghost use Rattle.h1_app.specs.Filtering.{chain_of};
ghost use Rattle.h1_app.specs.FilterSteps.{SteppedWith};
ghost use Rattle.h1_app.specs.declared.exchange.Stage.TheVariants as at;
ghost use Rattle.h1_app.specs.Turn.{LeavesBy};
ghost use Rattle.h1_app.specs.Step.{StepReady, Continues};

use super::filtering::filter_request;
use crate::exchange::{Exchange, Outcome, Stage};
use crate::{Entry, HttpServer, ServeHttp, Transcript};
use futures::task::Poll;
use h1_error::{End, Error, Waiting};
use h1_head::RequestHeader;
use h1_link::Link;
use h1_modules::{HttpModuleBuilder, HttpModuleCtx, HttpModules};
use h1_server::{HttpSession, ReadRequest, Request, Settings};
use h1_transcript::KEEPALIVE_SECONDS;
use std::alloc::Global;

/// Reads a head, for which there is a minute. With one, its filters run and the application is
/// started for its request.
#[inline(always)]
pub(super) fn read<L, SV, B, C>(
    alloc: Global,
    server: &HttpServer<SV, B>,
    modules: &mut HttpModuleCtx<B::Module>,
    exchange: &mut Exchange<L, SV::Job, C>,
    now: u64,
    shutdown: bool,
) -> Outcome
where
    L: Link + Drop,
    SV: ServeHttp<L, C> + Drop,
    B: HttpModuleBuilder + Drop,
    C: Drop,
    requires ready { StepReady (SV.runs server.now.app) now exchange.old }
    requires at { exchange.old.stage ≡ at.Head }
    ensures stepped { SteppedWith L.state SV.pends (SV.gives server.now.app) (SV.runs server.now.app)
        (chain_of B.HttpModuleBuilder B.Module.HttpModule server.now.modules) now shutdown modules.new.modules
        exchange.old exchange.new result }
    ensures continues { Continues L.state L.same_plan SV.begins SV.pends exchange.old exchange.new
        result }
    ensures leaves { LeavesBy L.state exchange.old exchange.new result }
{
    // An outcome of its own is written by the call, so that those of the other steps, which make none,
    // need no place in memory.
    match read_head(alloc, server, modules, exchange, now, shutdown) {
        Outcome::Done => Outcome::Done,
        Outcome::Waits(what) => Outcome::Waits(what),
        Outcome::Ends(end) => Outcome::Ends(end),
    }
}

/// The same, apart from the loop over the steps.
fn read_head<L, SV, B, C>(
    alloc: Global,
    server: &HttpServer<SV, B>,
    modules: &mut HttpModuleCtx<B::Module>,
    exchange: &mut Exchange<L, SV::Job, C>,
    now: u64,
    shutdown: bool,
) -> Outcome
where
    L: Link + Drop,
    SV: ServeHttp<L, C> + Drop,
    B: HttpModuleBuilder + Drop,
    C: Drop,
    requires ready { StepReady (SV.runs server.now.app) now exchange.old }
    requires at { exchange.old.stage ≡ at.Head }
    ensures stepped { SteppedWith L.state SV.pends (SV.gives server.now.app) (SV.runs server.now.app)
        (chain_of B.HttpModuleBuilder B.Module.HttpModule server.now.modules) now shutdown modules.new.modules
        exchange.old exchange.new result }
    ensures continues { Continues L.state L.same_plan SV.begins SV.pends exchange.old exchange.new
        result }
    ensures leaves { LeavesBy L.state exchange.old exchange.new result }
{
    exchange.session.set_server_keepalive(keepalive(shutdown));
    match exchange.session.poll_read_request(now) {
        Poll::Pending => Outcome::Waits(Waiting::Read),
        Poll::Ready(Ok(ReadRequest::Head(_))) => begin(
            alloc,
            server,
            modules,
            &mut exchange.session,
            &mut exchange.transcript,
            &mut exchange.stage,
            shutdown,
        ),
        Poll::Ready(Ok(ReadRequest::None(_))) => Outcome::Ends(End::Finished),
        Poll::Ready(Err(error)) => Outcome::Ends(End::Failed(error)),
    }
}

/// Begins the exchange of the head that was read.
#[inline(always)]
fn begin<L, SV, B, C>(
    alloc: Global,
    server: &HttpServer<SV, B>,
    modules: &mut HttpModuleCtx<B::Module>,
    session: &mut HttpSession<L, C>,
    transcript: &mut Transcript,
    stage: &mut Stage<SV::Job>,
    shutdown: bool,
) -> Outcome
where
    L: Link + Drop,
    SV: ServeHttp<L, C> + Drop,
    B: HttpModuleBuilder + Drop,
    C: Drop,
    requires read { IsSome session.old.request }
    requires at { (stage.old ≡ at.Head) × (transcript.old.last ≡ None) }
    ensures begun { BegunAs SV.begins (SV.runs server.now.app)
        (chain_of B.HttpModuleBuilder B.Module.HttpModule server.now.modules)
        (kept_again shutdown session.old) session.new modules.new.modules transcript.new.last
        stage.new result }
    ensures done { transcript.new.done ≡ transcript.old.done }
    ensures holding { transcript.new.holding ≡ transcript.old.holding }
    ensures kept { BeginsIn transcript.old.holding transcript.old.last transcript.new.last }
{
    session.set_server_keepalive(keepalive(shutdown));
    match start(alloc, server, modules, session, transcript) {
        Ok(job) => {
            *stage = Stage::Answer(job);
            Outcome::Done
        }
        Err(error) => Outcome::Ends(End::Failed(error)),
    }
}

/// Puts the exchange of a request where none goes on, and starts the application for what the
/// filters make of its head. Where one refuses, or there is no memory for it, the exchange stays as
/// it began, without a head for the application.
#[inline(always)]
fn start<L, SV, B, C>(
    alloc: Global,
    server: &HttpServer<SV, B>,
    modules: &mut HttpModuleCtx<B::Module>,
    session: &mut HttpSession<L, C>,
    transcript: &mut Transcript,
) -> Result<SV::Job, Error>
where
    L: Link + Drop,
    SV: ServeHttp<L, C> + Drop,
    B: HttpModuleBuilder + Drop,
    C: Drop,
    requires read { IsSome session.old.request }
    requires last { transcript.old.last ≡ None }
    ensures started { StartedAs SV.begins (SV.runs server.now.app)
        (chain_of B.HttpModuleBuilder B.Module.HttpModule server.now.modules) session.old session.new
        modules.new.modules transcript.new.last result }
    ensures done { transcript.new.done ≡ transcript.old.done }
    ensures holding { transcript.new.holding ≡ transcript.old.holding }
    ensures kept { BeginsIn transcript.old.holding transcript.old.last transcript.new.last }
{
    let settings = session.settings();
    let Some(request) = session.request() else {
        unreachable!()
    };
    begin_entry(alloc, request, settings, transcript)?;
    filter_head(alloc, &server.modules, modules, session, transcript)?;
    start_job(alloc, &server.app, transcript)
}

/// An exchange begins with the head of this request, which stands in the place of the head for the
/// application too.
#[inline(always)]
fn begin_entry(
    alloc: Global,
    request: &Request,
    settings: &Settings,
    transcript: &mut Transcript,
) -> Result<(), Error>
    requires { transcript.old.last ≡ None }
    ensures ok { IfOk result (λ done. IfLast transcript.new.last (λ e.
        IsNewEntry request.now settings.now e × (e.filtered ≡ Some request.now.header))) }
    ensures err { IfErr result (λ error. (error ≡ no_memory) × (transcript.new.last ≡ None)) }
    ensures done { transcript.new.done ≡ transcript.old.done }
    ensures holding { transcript.new.holding ≡ transcript.old.holding }
    ensures kept { BeginsIn transcript.old.holding transcript.old.last transcript.new.last }
{
    transcript.begin(alloc, settings, request.both, &request.header)
}

/// Filters the head of the exchange that began, where there are modules, or were. Where one refuses,
/// the exchange stays without a head for the application.
#[inline(always)]
fn filter_head<L, B, C>(
    alloc: Global,
    builders: &HttpModules<B>,
    modules: &mut HttpModuleCtx<B::Module>,
    session: &mut HttpSession<L, C>,
    transcript: &mut Transcript,
) -> Result<(), Error>
where
    L: Link + Drop,
    B: HttpModuleBuilder + Drop,
    C: Drop,
    requires { BegunFor session.old.request transcript.old.last }
    ensures ok { OnOk result (HeadFiltered (chain_of B.HttpModuleBuilder B.Module.HttpModule builders.now) session.old session.new
        modules.new.modules transcript.old transcript.new) }
    ensures err { IfErr result (HeadRefused (chain_of B.HttpModuleBuilder B.Module.HttpModule builders.now) session.old session.new
        transcript.old transcript.new) }
    ensures holding { transcript.new.holding ≡ transcript.old.holding }
    ensures kept { (holding : Holding) (old : Option Entry)
        → BeginsIn holding old transcript.old.last → BeginsIn holding old transcript.new.last }
{
    if builders.is_empty() && modules.is_empty() {
        return Ok(());
    }
    let entry = transcript.last_entry();
    let head = session.req_header_mut();
    filter_noted(alloc, builders, modules, head, entry)
}

/// The filters are given the head, and what they make of it is noted. With an error there is no head
/// for the application.
#[cold]
#[inline(never)]
fn filter_noted<B: HttpModuleBuilder + Drop>(
    alloc: Global,
    builders: &HttpModules<B>,
    modules: &mut HttpModuleCtx<B::Module>,
    head: &mut RequestHeader,
    entry: &mut Entry,
) -> Result<(), Error>
    requires { IsSome entry.old.filtered }
    ensures ok { OnOk result ((entry.new ≡ record entry.old { filtered = Some head.new })
        × (run B.Module.request_header (map B.begins builders.now) head.old
        ≡ Ok (modules.new.modules, head.new))) }
    ensures err { IfErr result (λ error. (entry.new ≡ record entry.old { filtered = None }) × ErrsBy refused_by
        (run B.Module.request_header (map B.begins builders.now) head.old) error) }
{
    if let Err(error) = filter_request(alloc, builders, modules, head) {
        entry.drop_filtered();
        return Err(error);
    }
    entry.note_filtered(head)
}

/// The application is started for the head that was noted. Where there is no memory for that, the
/// exchange stays without a head for it.
#[inline(always)]
fn start_job<L, SV, C>(
    alloc: Global,
    app: &SV,
    transcript: &mut Transcript,
) -> Result<SV::Job, Error>
where
    L: Link + Drop,
    SV: ServeHttp<L, C> + Drop,
    C: Drop,
    requires { IsSome transcript.old.last }
    ensures ok { IfOk result (λ job. (transcript.new ≡ transcript.old) × SV.begins job
        × ((head : RequestView) (began : Settings) → SV.runs app.now job head began began [] None)) }
    ensures err { IfErr result (λ error. (error ≡ no_memory)
        × IfSome transcript.old.last (λ e.
        transcript.new ≡ with_last transcript.old (record e { filtered = None }))) }
    ensures holding { transcript.new.holding ≡ transcript.old.holding }
    ensures kept { (holding : Holding) (old : Option Entry)
        → BeginsIn holding old transcript.old.last → BeginsIn holding old transcript.new.last }
{
    let job = app.start(alloc);
    if job.is_err() {
        transcript.last_entry().drop_filtered();
    }
    job
}

/// Keep-alive with the time for the next head, or off.
fn keepalive(shutdown: bool) -> Option<u64>
    ensures { result ≡ head_time shutdown }
{
    if shutdown {
        None
    } else {
        Some(KEEPALIVE_SECONDS)
    }
}
