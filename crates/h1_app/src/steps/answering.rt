//! The application runs, until it has replied.
ghost use Rattle.std.specs.Prelude.{◌≡◌, [], ◌<◌, ◌≤◌, length, IfSome, IsSome, None, Some, true, false};
ghost use Rattle.h1_error.specs.declared.moment.TheConstants.{YEAR_10000};
ghost use Rattle.h1_transcript.specs.Entry.{Entry, gathering_of};
ghost use Rattle.h1_head.specs.Views.{RequestView};
ghost use Rattle.h1_server.specs.declared.settings.Settings.{Settings};
ghost use Rattle.h1_application.specs.Application.{how_of, IsAskedFor, ReadsInTime};
ghost use Rattle.h1_transcript.specs.Exchange.{given_to};
ghost use Rattle.h1_app.specs.Beginning.{IsAnswerStage};
ghost use Rattle.h1_app.specs.Asking.{GathersLast, HearsOf, NotesAnswer, noted, outcome_after, stage_after, told_of};
ghost use Rattle.h1_app.specs.Heard.{Heard};
ghost use Rattle.h1_app.specs.declared.exchange.Stage.TheVariants as at;
ghost use Rattle.h1_app.specs.Turn.{LeavesBy};
ghost use Rattle.h1_app.specs.Filtering.{FiltersStay};
ghost use Rattle.h1_app.specs.Step.{StepReady, SteppedBy, Continues};

use crate::exchange::{Exchange, Outcome, Stage};
use crate::{Entry, How, Reply, ServeHttp};
use futures::task::Poll;
use h1_error::{End, Error, Waiting};
use h1_link::Link;
use h1_server::{HttpSession, Settings};

/// Lets the application go on. What it reads of the body joins the exchange.
pub(super) fn answer<L: Link + Drop, SV: ServeHttp<L, C> + Drop, C: Drop>(
    app: &SV,
    exchange: &mut Exchange<L, SV::Job, C>,
    now: u64,
) -> Outcome
    requires ready { StepReady (SV.runs app.now) now exchange.old }
    requires at { IsAnswerStage exchange.old.stage }
    requires holds { GathersLast (SV.takes_whole app.now) exchange.old.transcript.last }
    ensures stepped { SteppedBy L.state SV.pends (SV.gives app.now) (SV.runs app.now) now
        exchange.old exchange.new result }
    ensures continues { Continues L.state L.same_plan SV.begins SV.pends exchange.old exchange.new
        result }
    ensures leaves { LeavesBy L.state exchange.old exchange.new result }
    ensures filters { FiltersStay exchange.old.transcript.last exchange.new.transcript.last }
{
    let entry = exchange.transcript.last_entry();
    let Stage::Answer(job) = &mut exchange.stage else {
        unreachable!()
    };
    let answer = ask(app, job, &mut exchange.session, entry, now);
    go_on(answer, &mut exchange.stage)
}

/// What an answer makes of the stage of an exchange, and what the step comes to.
#[inline(always)]
fn go_on<J: Drop>(answer: Asked, stage: &mut Stage<J>) -> Outcome
    ensures { (heard : Heard) (job : J) → answer ≡ told_of heard → stage.old ≡ at.Answer job
        → (stage.new ≡ stage_after job heard) × (result ≡ outcome_after heard) }
{
    match answer {
        Asked::Reads => Outcome::Waits(Waiting::Read),
        Asked::Pends => Outcome::Waits(Waiting::App),
        Asked::Failed(error) => Outcome::Ends(End::Failed(error)),
        Asked::Replied => {
            *stage = Stage::TakeHeader;
            Outcome::Done
        }
    }
}

/// What the application answered.
#[derive(Clone, Copy)]
pub enum Asked {
    /// Its reply is noted with the exchange.
    Replied,
    /// It waits for the body.
    Reads,
    /// It waits for something of its own.
    Pends,
    Failed(Error),
}

/// Asks the application. The payload that the exchange has is lent to the session meanwhile.
fn ask<L, SV, C>(
    app: &SV,
    job: &mut SV::Job,
    session: &mut HttpSession<L, C>,
    entry: &mut Entry,
    now: u64,
) -> Asked
where
    L: Link + Drop,
    SV: ServeHttp<L, C> + Drop,
    C: Drop,
    requires request { IsSome session.old.request }
    requires budget { IsSome session.old.budget }
    requires waits { session.old.body.waits ≡ false }
    requires moment { now < YEAR_10000 }
    requires holds { SV.takes_whole app.now ≡ true → entry.old.holding.gathers ≡ true }
    ensures heard { HearsOf L.state (SV.runs app.now) (SV.gives app.now) SV.pends job.old job.new
        session.old session.new entry.old entry.new result }
    ensures timed { ReadsInTime L.state now session.old session.new }
    ensures plan { L.same_plan session.old.link session.new.link }
    ensures never_falls { SV.pends job.old ≤ SV.pends job.new }
{
    entry.lend_payload(session);
    let answer = app.poll_response(job, session, now);
    let waits = session.take_waits();
    take_back(session, entry);
    note_answer(entry, answer, waits)
}

/// Notes a reply, and tells what the application answered.
#[inline(always)]
fn note_answer(entry: &mut Entry, answer: Poll<Result<Reply, Error>>, waits: bool) -> Asked
    ensures { NotesAnswer answer waits entry.old entry.new result }
{
    match answer {
        Poll::Ready(Ok(reply)) => {
            entry.note_reply(reply);
            Asked::Replied
        }
        Poll::Ready(Err(error)) => Asked::Failed(error),
        Poll::Pending => { if waits { Asked::Reads } else { Asked::Pends } }
    }
}

/// The payload goes back to the exchange, with how the body stands.
fn take_back<L: Link + Drop, C: Drop>(session: &mut HttpSession<L, C>, entry: &mut Entry)
    requires holding { IfSome session.old.body.kept
        (λ kept. kept.gathering ≡ gathering_of entry.old.holding) }
    requires body { entry.old.body ≡ [] }
    ensures session { session.new
        ≡ record session.old { body = record session.old.body { kept = None } } }
    ensures entry { entry.new ≡ noted entry.old session.old }
    ensures within { length entry.new.body ≤ entry.old.holding.limit }
{
    entry.take_payload_back(session);
    entry.note_reading(
        entry.body_len(),
        session.body_error(),
        session.read_limit(),
        how_it_stands(session),
        session.settings(),
    );
}

fn how_it_stands<L: Link + Drop, C: Drop>(session: &HttpSession<L, C>) -> How
    ensures { result ≡ how_of session.now.body }
{
    if session.body_error().is_some() {
        How::Failed
    } else if session.is_body_read() {
        How::Whole
    } else {
        How::Open
    }
}
