//! The connection: it moves an exchange on, step by step.
ghost use Rattle.std.specs.Prelude.{◌≡◌, ◌<◌, ◌≤◌, ◌+◌, ◌*◌, length, true, IfOk, IfSome, IfNone, IsSome, IsOkAnd, None, Some};
ghost use Rattle.h1_error.specs.declared.moment.TheConstants.{YEAR_10000};
ghost use Rattle.h1_transfer.specs.declared.budget.TheConstants.{CALL_BUDGET};
ghost use Rattle.h1_error.specs.declared.progress.Progress.TheVariants as answer;
ghost use Rattle.h1_app.specs.Turn.{outcome_end};

use crate::exchange::{Exchange, Outcome, Stage};
use crate::steps::{next_exchange, step};
use crate::{HttpServer, LawfulFor, ServeHttp, Transcript};
use h1_error::{End, Error, Progress, Waiting};
use h1_link::Link;
use h1_modules::HttpModuleCtx;
use h1_server::{CALL_BUDGET, HttpSession};
use std::alloc::Global;
use std::marker::Model;
use std::sync::Arc;

/// A connection: a link, the application and the modules behind it, and what was read and written so
/// far. `C` is what an embedder keeps in the session for its application; most keep `()`.
#[derive(Drop)]
pub struct Connection<L, SV, B, C>
where
    L: Link + Drop,
    SV: ServeHttp<L, C> + Drop,
    B: LawfulFor<L, C, SV> + Drop,
    C: Drop,
{
    alloc: Global,
    server: Arc<HttpServer<SV, B>>,
    /// The modules of the exchange that is last.
    modules: HttpModuleCtx<B::Module>,
    exchange: Exchange<L, SV::Job, C>,
    end: Option<End>,
}

impl<L, SV, B, C> Model for Connection<L, SV, B, C>
where
    L: Link + Drop,
    SV: ServeHttp<L, C> + Drop,
    B: LawfulFor<L, C, SV> + Drop,
    C: Drop,
{
    ghost use Rattle.std.specs.Arc.{arc_value};
    ghost use Rattle.h1_app.specs.Filtering.{chain_of};
    ghost use Rattle.h1_app.specs.FilterSteps.{SoundWith};
    ghost use Rattle.h1_app.specs.View.{Served, View, served_by, terms_of};

    ghost Value = { View L C (Served SV B) SV.Job };

    ghost view = { λ c. record {
      session = c.exchange.session;
      served = served_by (arc_value c.server).app (arc_value c.server).modules;
      terms = terms_of (arc_value c.server).server_options
          (SV.takes_whole (arc_value c.server).app);
      done = c.exchange.transcript.done;
      last = c.exchange.transcript.last;
      stage = c.exchange.stage;
      end = c.end;
    } };

    ghost invariant = { λ c. SoundWith (SV.gives (arc_value c.server).app)
        (SV.runs (arc_value c.server).app)
        (chain_of B.HttpModuleBuilder B.Module.HttpModule (arc_value c.server).modules)
        (terms_of (arc_value c.server).server_options (SV.takes_whole (arc_value c.server).app))
        c.exchange c.modules.modules c.end };
}

impl<L, SV, B, C> Connection<L, SV, B, C>
where
    L: Link + Drop,
    SV: ServeHttp<L, C> + Drop,
    B: LawfulFor<L, C, SV> + Drop,
    C: Drop,
{
    ghost use Rattle.std.specs.Arc.{arc_value};
    ghost use Rattle.std.specs.Fn.{FnOnceTakesAtMut, FnOnceReturnsAtMut};
    ghost use Rattle.h1_link.specs.Later.{Later, KeepsBytes};
    ghost use Rattle.h1_app.specs.Filtering.{rules_of};
    ghost use Rattle.h1_app.specs.View.{View, entries, served_by, IsNewConnection};
    ghost use Rattle.h1_transcript.specs.Entries.{transcript_entries, replies};
    ghost use Rattle.h1_app.specs.Accounted.{Accounted};
    ghost use Rattle.h1_transcript.specs.Agrees.{Agrees};
    ghost use Rattle.h1_transcript.specs.Alone.{JoinAlone};
    ghost use Rattle.h1_transcript.specs.Growth.{Extends};
    ghost use Rattle.h1_app.specs.Causes.{Cause};
    ghost use Rattle.h1_app.specs.BodyTimes.{BodyInTime};
    ghost use Rattle.h1_app.specs.Leaves.{Leaves};
    ghost use Rattle.h1_app.specs.Sound.{Sound};
    ghost use Rattle.h1_app.specs.Timely.{IsTimely, TurnsInTime};
    ghost use Rattle.h1_app.specs.Turn.{AccountedFrom, Turned, TurnCause, outcome_end, stops, waiting_for};

    /// A connection of this server over a link, before its first byte. It is always made.
    pub fn new(alloc: Global, server: Arc<HttpServer<SV, B>>, link: L) -> Result<Self, Error>
        ensures fresh { IsOkAnd result
            (IsNewConnection (served_by (arc_value server).app (arc_value server).modules)
            (arc_value server).server_options (SV.takes_whole (arc_value server).app) link) }
        ensures accounted { IfOk result
            (λ made. Accounted L.state (L.state link) made.session made.done made.last) }
    {
        let mut session = HttpSession::new(alloc, link)?;
        session.set_keepalive_reuses_remaining(server.request_limit());
        let holding = server.holding(server.app.gathers());
        Ok(Connection {
            alloc,
            server,
            modules: HttpModuleCtx::empty(alloc),
            exchange: Exchange {
                session,
                transcript: Transcript::new(alloc, holding),
                stage: Stage::Head,
            },
            end: None,
        })
    }

    /// Moves the connection on, until it has ended or has to wait. `now` is milliseconds since the
    /// epoch, before the year 10000, and never falls; with `shutdown` a request whose head becomes whole in this poll begins
    /// with keep-alive off, and is the last unless the application turns it on.
    pub fn poll(&mut self, now: u64, shutdown: bool) -> Progress
        requires { now < YEAR_10000 }
        ensures served { (self.new.served ≡ self.old.served) × (self.new.terms ≡ self.old.terms) }
        ensures later { Later (L.state self.old.session.link) (L.state self.new.session.link) }
        ensures plan { L.same_plan self.old.session.link self.new.session.link }
        ensures context { self.new.session.context ≡ self.old.session.context }
        ensures accounted { AccountedFrom L.state self.old (λ before.
            Accounted L.state before self.new.session self.new.done self.new.last) }
        ensures agrees { AccountedFrom L.state self.old (λ before.
            Agrees (rules_of SV.gives B.HttpModuleBuilder B.Module.HttpModule self.new.served)
            self.new.terms before (L.state self.new.session.link) (entries self.new)) }
        ensures extends { Extends now shutdown (L.state self.old.session.link)
            (L.state self.new.session.link) (entries self.old) (entries self.new) }
        ensures alone { AccountedFrom L.state self.old (λ before.
            JoinAlone before (L.state self.old.session.link) self.old.done self.new.done) }
        // So many link calls may move bytes. One read more than there were replies may not be
        // ready, and three link calls of each exchange may move no byte, and one more.
        ensures moves { (L.state self.new.session.link).moves
            ≤ (L.state self.old.session.link).moves + CALL_BUDGET }
        ensures reads_not_ready { (L.state self.new.session.link).read_waits
            + replies (entries self.old)
            ≤ (L.state self.old.session.link).read_waits + replies (entries self.new) + 1 }
        ensures others { (L.state self.new.session.link).others + 3 * length self.old.done
            ≤ (L.state self.old.session.link).others + 3 * length (entries self.new) + 1 }
        ensures ended { IfSome self.old.end (λ reason. (result ≡ answer.Ready reason)
            × (self.new ≡ self.old)) }
        ensures leaves { IfNone self.old.end
            (Leaves (L.state self.old.session.link)
            (L.state self.new.session.link) self.new.last self.new.end) }
        // An exchange whose head a filter refused, or that has no memory for its application, is
        // the last of a connection that ended.
        ensures given { IfNone self.new.end
            (IfSome self.new.last (λ e. IsSome e.filtered)) }
        ensures timely { IfNone self.old.end (IsTimely L.state now self.old self.new result) }
        ensures body { BodyInTime now self.old.session.body.since.read
            self.new.session.body.since.read self.old.last self.new.last }
        ensures cause { IfNone self.old.end (AccountedFrom L.state self.old (λ before.
            Cause (rules_of SV.gives B.HttpModuleBuilder B.Module.HttpModule self.new.served).filters
            L.state SV.begins SV.pends before self.old self.new result)) }
    {
        if let Some(end) = self.end {
            return Progress::Ready(end);
        }
        self.exchange.session.set_poll_budget(Some(CALL_BUDGET));
        self.go_on(now, shutdown)
    }

    // Makes steps until one of them waits or ends the connection.
    #[inline(always)]
    fn go_on(&mut self, now: u64, shutdown: bool) -> Progress
        requires alive { self.old.end ≡ None }
        requires budget { self.old.session.budget ≡ Some CALL_BUDGET }
        requires moment { now < YEAR_10000 }
        ensures turned { Turned L.state L.same_plan now shutdown self.old self.new true }
        ensures sound { Sound
            (rules_of SV.gives B.HttpModuleBuilder B.Module.HttpModule self.new.served)
            (SV.runs self.new.served.app) self.new.terms self.new.session self.new.done
            self.new.last self.new.stage self.new.end }
        ensures timely { IsTimely L.state now self.old self.new result }
        ensures cause { AccountedFrom L.state self.old (λ before.
            Cause (rules_of SV.gives B.HttpModuleBuilder B.Module.HttpModule self.new.served).filters
            L.state SV.begins SV.pends before self.old self.new result) }
    {
        loop {
            match self.turn(now, shutdown) {
                Outcome::Done => {}
                Outcome::Waits(what) => return Progress::Pending(self.waits_for(what)),
                Outcome::Ends(end) => return Progress::Ready(end),
            }
        }
    }

    // One step of the last exchange, or from it to the next. Where it ends the connection, the
    // connection keeps the end.
    #[inline(always)]
    fn turn(&mut self, now: u64, shutdown: bool) -> Outcome
        requires alive { self.old.end ≡ None }
        requires budget { IsSome self.old.session.budget }
        requires moment { now < YEAR_10000 }
        ensures turned { Turned L.state L.same_plan now shutdown self.old self.new
            (stops result) }
        ensures sound { Sound
            (rules_of SV.gives B.HttpModuleBuilder B.Module.HttpModule self.new.served)
            (SV.runs self.new.served.app) self.new.terms self.new.session self.new.done
            self.new.last self.new.stage self.new.end }
        ensures end { self.new.end ≡ outcome_end result }
        ensures timely { TurnsInTime L.state now self.old self.new result }
        ensures outcome { TurnCause
            (rules_of SV.gives B.HttpModuleBuilder B.Module.HttpModule self.new.served).filters
            L.state SV.begins SV.pends self.old self.new result }
    {
        let outcome = match self.exchange.stage {
            Stage::Next => {
                next_exchange(&mut self.exchange);
                Outcome::Done
            }
            _ => step(
                self.alloc,
                &self.server,
                &mut self.modules,
                &mut self.exchange,
                now,
                shutdown,
            ),
        };
        keep_end(&mut self.end, outcome);
        outcome
    }

    // A step that waits while no link call may move bytes any more waits for the next poll.
    fn waits_for(&self, what: Waiting) -> Waiting
        ensures { result ≡ waiting_for self.now.session.budget what }
    {
        if self.exchange.session.poll_budget() == Some(0) {
            Waiting::Budget
        } else {
            what
        }
    }

    /// What was read and written so far.
    pub fn transcript(&self) -> &Transcript
        ensures entries { transcript_entries result.now ≡ entries self.now }
        ensures holding { result.now.holding ≡ self.now.terms.holding }
        ensures last { result.now.last ≡ self.now.last }
    {
        &self.exchange.transcript
    }

    /// Why the connection ended; None while it goes on.
    pub fn end(&self) -> Option<End>
        ensures { result ≡ self.now.end }
    {
        self.end
    }

    /// The link that it is served over.
    pub fn link(&self) -> &L
        ensures { result.now ≡ self.now.session.link }
    {
        self.exchange.session.link()
    }

    /// Calls a function on the link, which may move none of its bytes.
    pub fn with_link<T, F: FnOnce(&mut L) -> T>(&mut self, f: F) -> T
        requires may { FnOnceTakesAtMut F.FnOnce f self.old.session.link }
        requires keeps { (answer : T) (link : L)
            → FnOnceReturnsAtMut F.FnOnce f self.old.session.link answer link
            → KeepsBytes (L.state self.old.session.link) (L.state link) }
        ensures called { FnOnceReturnsAtMut F.FnOnce f self.old.session.link result
            self.new.session.link }
        ensures rest { self.new
            ≡ record self.old
            { session = record self.old.session { link = self.new.session.link } } }
        ensures keeps { KeepsBytes (L.state self.old.session.link) (L.state self.new.session.link) }
        ensures accounted { AccountedFrom L.state self.old (λ before.
            Accounted L.state before self.new.session self.new.done self.new.last) }
    {
        self.exchange.session.with_link(f)
    }

    /// The link, as the connection left it. Whoever takes it flushes it and shuts it down.
    pub fn into_link(self) -> L
        ensures { result ≡ self.session.link }
    {
        let Connection {
            alloc: _,
            server,
            modules,
            exchange,
            end: _,
        } = self;
        let Exchange {
            session,
            transcript,
            stage,
        } = exchange;
        session.into_inner()
    }
}

/// Keeps the end that a step came to, where the connection goes on so far.
#[inline(always)]
fn keep_end(end: &mut Option<End>, outcome: Outcome)
    requires { end.old ≡ None }
    ensures { end.new ≡ outcome_end outcome }
{
    if let Outcome::Ends(reason) = outcome {
        *end = Some(reason);
    }
}
