//! The reply is written: its header, its body, and the end of its body.
ghost use Rattle.std.specs.Prelude.{◌≡◌, Bool, Ok, ◌/◌, IsSome, IfSome, IfOk, IfErr, None, Some, true, unwrap_or, []};
ghost use Rattle.h1_head.specs.Date.{IsDateAt};
ghost use Rattle.h1_error.specs.Memory.{no_memory};
ghost use Rattle.h1_app.specs.declared.exchange.Stage.TheVariants as at;
ghost use Rattle.h1_transcript.specs.Entry.{Entry};
ghost use Rattle.h1_app.specs.Beginning.{IsPieceOf, failure_of};
ghost use Rattle.h1_app.specs.Turn.{LeavesBy};
ghost use Rattle.h1_app.specs.Filtering.{FiltersStay, chain_of};
ghost use Rattle.h1_app.specs.FilterSteps.{FilterReady, SteppedWith};
ghost use Rattle.h1_app.specs.Step.{StepReady, SteppedBy, Continues};
ghost use Rattle.h1_app.specs.Replying.{NotesBody, NotesHeader, StandsAfter, going};
ghost use Rattle.h1_modules.specs.Filters.{run};
ghost use Rattle.h1_modules.specs.Outcome.{ErrsBy, Piece, refused_by};
ghost use Rattle.h1_server.specs.Replies.{kept_by};
ghost use Rattle.h1_transcript.specs.declared.history.History.TheVariants.{Forgotten};

use super::filtering::{filter_body, sent_header};
use crate::exchange::{Exchange, Outcome, Stage};
use crate::{Entry, History, HttpServer, LawfulFor, Reply, ServeHttp};
use bytes::Bytes;
use futures::task::Poll;
use h1_body::BodyBytes;
use h1_error::{End, Error, ErrorType, Waiting};
use h1_head::ResponseHeader;
use h1_link::Link;
use h1_modules::{HttpModule, HttpModuleCtx};
use std::alloc::Global;

/// Takes up what the modules make of the reply's header, with the date and the flag of this poll.
pub(super) fn take_header<L, SV, B, C>(
    alloc: Global,
    server: &HttpServer<SV, B>,
    modules: &mut HttpModuleCtx<B::Module>,
    exchange: &mut Exchange<L, SV::Job, C>,
    now: u64,
) -> Outcome
where
    L: Link + Drop,
    SV: ServeHttp<L, C> + Drop,
    B: LawfulFor<L, C, SV> + Drop,
    C: Drop,
    requires ready { FilterReady (SV.gives server.now.app) (SV.runs server.now.app)
        (chain_of B.HttpModuleBuilder B.Module.HttpModule server.now.modules) now modules.old.modules exchange.old }
    requires at { exchange.old.stage ≡ at.TakeHeader }
    ensures stepped { (shutdown : Bool)
        → SteppedWith L.state SV.pends (SV.gives server.now.app) (SV.runs server.now.app)
        (chain_of B.HttpModuleBuilder B.Module.HttpModule server.now.modules) now shutdown modules.new.modules
        exchange.old exchange.new result }
    ensures continues { Continues L.state L.same_plan SV.begins SV.pends exchange.old exchange.new
        result }
    ensures leaves { LeavesBy L.state exchange.old exchange.new result }
{
    let entry = exchange.transcript.last_entry();
    if modules.is_empty() && entry.history() == History::Forgotten {
        let session = &mut exchange.session;
        let answer = session.poll_write_response_header_ref(Some(own_header(entry)), now);
        let headed = session.is_headed();
        let date = session.date(now);
        let keep = session.reply_keeps();
        let written = session.written_bytes();
        note_own_header(entry, headed, now, date, keep, written);
        return stand(&mut exchange.stage, &answer, Stage::Header, Stage::TakeBody);
    }
    let sent = match sent_header(alloc, entry, modules) {
        Ok(header) => header,
        Err(error) => return Outcome::Ends(End::Failed(error)),
    };
    let answer = exchange
        .session
        .poll_write_response_header_ref(Some(&sent), now);
    let headed = exchange.session.is_headed();
    let date = exchange.session.date(now);
    let keep = exchange.session.reply_keeps();
    let written = exchange.session.written_bytes();
    note_header(entry, headed, sent, now, date, keep, written);
    stand(&mut exchange.stage, &answer, Stage::Header, Stage::TakeBody)
}

/// Goes on with the header.
pub(super) fn write_header<L: Link + Drop, SV: ServeHttp<L, C> + Drop, C: Drop>(
    app: &SV,
    exchange: &mut Exchange<L, SV::Job, C>,
    now: u64,
) -> Outcome
    requires ready { StepReady (SV.runs app.now) now exchange.old }
    requires at { exchange.old.stage ≡ at.Header }
    ensures stepped { SteppedBy L.state SV.pends (SV.gives app.now) (SV.runs app.now) now
        exchange.old exchange.new result }
    ensures continues { Continues L.state L.same_plan SV.begins SV.pends exchange.old exchange.new
        result }
    ensures leaves { LeavesBy L.state exchange.old exchange.new result }
    ensures filters { FiltersStay exchange.old.transcript.last exchange.new.transcript.last }
{
    let entry = exchange.transcript.last_entry();
    let mut taken = None;
    let answer = exchange.session.poll_write_response_header(&mut taken, now);
    entry.note_written(exchange.session.written_bytes());
    stand(&mut exchange.stage, &answer, Stage::Header, Stage::TakeBody)
}

/// Takes up what the modules make of the reply's body, where it has bytes.
pub(super) fn take_body<L, SV, B, C>(
    alloc: Global,
    server: &HttpServer<SV, B>,
    modules: &mut HttpModuleCtx<B::Module>,
    exchange: &mut Exchange<L, SV::Job, C>,
    now: u64,
) -> Outcome
where
    L: Link + Drop,
    SV: ServeHttp<L, C> + Drop,
    B: LawfulFor<L, C, SV> + Drop,
    C: Drop,
    requires ready { FilterReady (SV.gives server.now.app) (SV.runs server.now.app)
        (chain_of B.HttpModuleBuilder B.Module.HttpModule server.now.modules) now modules.old.modules exchange.old }
    requires at { exchange.old.stage ≡ at.TakeBody }
    ensures stepped { (shutdown : Bool)
        → SteppedWith L.state SV.pends (SV.gives server.now.app) (SV.runs server.now.app)
        (chain_of B.HttpModuleBuilder B.Module.HttpModule server.now.modules) now shutdown modules.new.modules
        exchange.old exchange.new result }
    ensures continues { Continues L.state L.same_plan SV.begins SV.pends exchange.old exchange.new
        result }
    ensures leaves { LeavesBy L.state exchange.old exchange.new result }
{
    let entry = exchange.transcript.last_entry();
    let mut piece = match note_body(alloc, entry, modules) {
        Ok(piece) => piece,
        Err(error) => return Outcome::Ends(End::Failed(error)),
    };
    if piece.is_none() {
        exchange.stage = Stage::Finish;
        return Outcome::Done;
    }
    let answer = exchange.session.poll_write_body(&mut piece, now);
    entry.note_written(exchange.session.written_bytes());
    stand(&mut exchange.stage, &answer, Stage::Body, Stage::Finish)
}

/// Goes on with the body.
pub(super) fn write_body<L: Link + Drop, SV: ServeHttp<L, C> + Drop, C: Drop>(
    app: &SV,
    exchange: &mut Exchange<L, SV::Job, C>,
    now: u64,
) -> Outcome
    requires ready { StepReady (SV.runs app.now) now exchange.old }
    requires at { exchange.old.stage ≡ at.Body }
    ensures stepped { SteppedBy L.state SV.pends (SV.gives app.now) (SV.runs app.now) now
        exchange.old exchange.new result }
    ensures continues { Continues L.state L.same_plan SV.begins SV.pends exchange.old exchange.new
        result }
    ensures leaves { LeavesBy L.state exchange.old exchange.new result }
    ensures filters { FiltersStay exchange.old.transcript.last exchange.new.transcript.last }
{
    let entry = exchange.transcript.last_entry();
    let mut taken = None;
    let answer = exchange.session.poll_write_body(&mut taken, now);
    entry.note_written(exchange.session.written_bytes());
    stand(&mut exchange.stage, &answer, Stage::Body, Stage::Finish)
}

/// Ends the reply. An error of the request's body is the connection's end after it.
pub(super) fn finish<L: Link + Drop, SV: ServeHttp<L, C> + Drop, C: Drop>(
    app: &SV,
    exchange: &mut Exchange<L, SV::Job, C>,
    now: u64,
) -> Outcome
    requires ready { StepReady (SV.runs app.now) now exchange.old }
    requires at { exchange.old.stage ≡ at.Finish }
    ensures stepped { SteppedBy L.state SV.pends (SV.gives app.now) (SV.runs app.now) now
        exchange.old exchange.new result }
    ensures continues { Continues L.state L.same_plan SV.begins SV.pends exchange.old exchange.new
        result }
    ensures leaves { LeavesBy L.state exchange.old exchange.new result }
    ensures filters { FiltersStay exchange.old.transcript.last exchange.new.transcript.last }
{
    let entry = exchange.transcript.last_entry();
    let answer = exchange.session.poll_finish_body(now);
    entry.note_written(exchange.session.written_bytes());
    match answer {
        Poll::Pending => Outcome::Waits(Waiting::Write),
        Poll::Ready(Ok(_)) => {
            entry.note_flushed();
            match entry.body_error() {
                Some(error) => Outcome::Ends(End::Failed(error)),
                None => {
                    exchange.stage = Stage::Drain;
                    Outcome::Done
                }
            }
        }
        Poll::Ready(Err(error)) => Outcome::Ends(End::Failed(failure(entry.body_error(), error))),
    }
}

/// A short reply ends with the error of the request's body, where there is one.
fn failure(body_error: Option<Error>, error: Error) -> Error
    ensures { result ≡ failure_of body_error error }
{
    match (body_error, error.kind) {
        (Some(body_error), ErrorType::PrematureBodyEnd) => body_error,
        _ => error,
    }
}

/// Notes a header that was taken up in a poll at this moment, with its date. One behind which no
/// final header is taken up was not.
#[inline(always)]
fn note_header(
    entry: &mut Entry,
    headed: bool,
    sent: ResponseHeader,
    now: u64,
    date: [u8; 29],
    keep: bool,
    written: u64,
)
    requires { IsDateAt (now / 1000) date }
    ensures { NotesHeader (kept_by (Some sent) headed) sent now keep written entry.old entry.new }
{
    if headed {
        entry.note_header(sent, now / 1000, date, keep, written);
    }
}

/// The same of the reply's own header, where exchanges are forgotten.
#[inline(always)]
fn note_own_header(
    entry: &mut Entry,
    headed: bool,
    now: u64,
    date: [u8; 29],
    keep: bool,
    written: u64,
)
    requires date { IsDateAt (now / 1000) date }
    requires reply { IsSome entry.old.reply }
    requires forgotten { entry.old.holding.history ≡ Forgotten }
    ensures { IfSome entry.old.reply (λ reply.
        NotesHeader (kept_by (Some reply.header) headed) reply.header now keep written entry.old
        entry.new) }
{
    if headed {
        entry.note_own_header(now / 1000, date, keep, written);
    }
}

/// Notes what the modules make of the reply's body, and hands out what goes of it, where that has
/// bytes: nothing where the reply's own body is empty. None of them is copied.
#[inline(always)]
fn note_body<M: HttpModule + Drop>(
    alloc: Global,
    entry: &mut Entry,
    modules: &mut HttpModuleCtx<M>,
) -> Result<Option<Bytes>, Error>
    requires { IsSome entry.old.reply }
    ensures ok { IfOk result (λ piece. IfSome entry.old.reply (λ reply. (sent : Piece)
        × (run (M.response_body true) modules.old.modules (Some reply.body)
        ≡ Ok (modules.new.modules, sent))
        × NotesBody reply (unwrap_or sent []) piece entry.old entry.new)) }
    ensures err { IfErr result (λ error. (entry.new ≡ entry.old) × IfSome entry.old.reply
        (λ reply. ErrsBy refused_by
        (run (M.response_body true) modules.old.modules (Some reply.body)) error)) }
{
    let body = entry.share_body()?;
    if !modules.is_empty() {
        return note_filtered(alloc, entry, modules, body);
    }
    let sent = entry.note_body(body)?;
    Ok(piece_of(sent))
}

/// The same where there are modules.
#[cold]
#[inline(never)]
fn note_filtered<M: HttpModule + Drop>(
    alloc: Global,
    entry: &mut Entry,
    modules: &mut HttpModuleCtx<M>,
    body: Bytes,
) -> Result<Option<Bytes>, Error>
    requires reply { IsSome entry.old.reply }
    requires body { IfSome entry.old.reply (λ reply. body ≡ reply.body) }
    ensures ok { IfOk result (λ piece. IfSome entry.old.reply (λ reply. (sent : Piece)
        × (run (M.response_body true) modules.old.modules (Some reply.body)
        ≡ Ok (modules.new.modules, sent))
        × NotesBody reply (unwrap_or sent []) piece entry.old entry.new)) }
    ensures err { IfErr result (λ error. (entry.new ≡ entry.old) × IfSome entry.old.reply
        (λ reply. ErrsBy refused_by
        (run (M.response_body true) modules.old.modules (Some reply.body)) error)) }
{
    let made = filter_body(alloc, body, modules)?;
    let sent = entry.note_body(made)?;
    Ok(going_piece(entry, sent))
}

/// What goes of a reply's body, of which the modules made these bytes, where that has any.
fn going_piece(entry: &Entry, sent: Bytes) -> Option<Bytes>
    requires { IsSome entry.now.reply }
    ensures { IfSome entry.now.reply (λ reply. IsPieceOf (going reply sent) result) }
{
    let Some(reply) = entry.reply() else {
        unreachable!()
    };
    if reply.body.is_empty() {
        None
    } else {
        piece_of(sent)
    }
}

/// These bytes as a piece to write, where there are any.
#[inline(always)]
fn piece_of(sent: Bytes) -> Option<Bytes>
    ensures { IsPieceOf sent result }
{
    if sent.is_empty() { None } else { Some(sent) }
}

/// The reply's own header.
#[inline(always)]
fn own_header(entry: &Entry) -> &ResponseHeader
    requires { IsSome entry.now.reply }
    ensures { IfSome entry.now.reply (λ reply. result.now ≡ reply.header) }
{
    match entry.reply() {
        Some(reply) => &reply.header,
        None => unreachable!(),
    }
}

/// Where the exchange stands after a call that writes a part of the reply.
#[inline(always)]
fn stand<J: Drop, T>(
    stage: &mut Stage<J>,
    answer: &Poll<Result<T, Error>>,
    owed: Stage<J>,
    later: Stage<J>,
) -> Outcome
    ensures { StandsAfter answer.now owed later stage.old stage.new result }
{
    match answer {
        Poll::Pending => {
            *stage = owed;
            Outcome::Waits(Waiting::Write)
        }
        Poll::Ready(Ok(_)) => {
            *stage = later;
            Outcome::Done
        }
        Poll::Ready(Err(error)) => Outcome::Ends(End::Failed(*error)),
    }
}
