//! The reply is written: what is left of the request's body is read, where the connection is kept.
ghost use Rattle.std.specs.Prelude.{◌≡◌, ◌<◌, IsSome, None, true};
ghost use Rattle.h1_app.specs.declared.exchange.Stage.TheVariants as at;
ghost use Rattle.h1_transcript.specs.Entry.{Entry};
ghost use Rattle.h1_app.specs.Draining.{ReusesAs, CalledForReuse, StandsDrained};
ghost use Rattle.h1_server.specs.Calls.{is_reused};
ghost use Rattle.h1_transfer.specs.Calls.{read_fault_of};
ghost use Rattle.h1_server.specs.Persistence.{is_replied, keeps_alive};
ghost use Rattle.h1_transfer.specs.declared.outgoing.Step.TheVariants.{Free};
ghost use Rattle.h1_app.specs.Turn.{LeavesBy};
ghost use Rattle.h1_app.specs.Filtering.{FiltersStay};
ghost use Rattle.h1_app.specs.Step.{StepReady, SteppedBy, Continues};

use crate::exchange::{Exchange, Outcome, Stage};
use crate::{Entry, ServeHttp};
use futures::task::Poll;
use h1_error::{End, Error, Waiting};
use h1_link::Link;
use h1_server::HttpSession;

/// Reads what the application left unread of the request's body. A connection that isn't kept ends,
/// and so does one after whose request bytes came where none may.
pub(super) fn drain<L: Link + Drop, SV: ServeHttp<L, C> + Drop, C: Drop>(
    app: &SV,
    exchange: &mut Exchange<L, SV::Job, C>,
    now: u64,
) -> Outcome
    requires ready { StepReady (SV.runs app.now) now exchange.old }
    requires at { exchange.old.stage ≡ at.Drain }
    ensures stepped { SteppedBy L.state SV.pends (SV.gives app.now) (SV.runs app.now) now
        exchange.old exchange.new result }
    ensures continues { Continues L.state L.same_plan SV.begins SV.pends exchange.old exchange.new
        result }
    ensures leaves { LeavesBy L.state exchange.old exchange.new result }
    ensures filters { FiltersStay exchange.old.transcript.last exchange.new.transcript.last }
{
    let entry = exchange.transcript.last_entry();
    let answer = reuse(&mut exchange.session, entry, now);
    stand(&mut exchange.stage, &exchange.session, answer)
}

/// Where the exchange stands after the call for its link's reuse.
#[inline(always)]
fn stand<L: Link + Drop, J: Drop, C: Drop>(
    stage: &mut Stage<J>,
    session: &HttpSession<L, C>,
    answer: Poll<Result<bool, Error>>,
) -> Outcome
    ensures { StandsDrained answer (keeps_alive session.now) stage.old stage.new result }
{
    match answer {
        Poll::Pending => Outcome::Waits(Waiting::Read),
        Poll::Ready(Err(error)) => Outcome::Ends(End::Failed(error)),
        Poll::Ready(Ok(true)) => {
            *stage = Stage::Next;
            Outcome::Done
        }
        Poll::Ready(Ok(false)) => {
            if session.will_keepalive() {
                Outcome::Ends(End::Overread)
            } else {
                Outcome::Ends(End::NotKept)
            }
        }
    }
}

/// Asks the session for its link's reuse. The payload that the exchange has is lent to it meanwhile,
/// where more of the body may be read.
fn reuse<L: Link + Drop, C: Drop>(
    session: &mut HttpSession<L, C>,
    entry: &mut Entry,
    now: u64,
) -> Poll<Result<bool, Error>>
    requires request { IsSome session.old.request }
    requires free { session.old.reply.step ≡ Free }
    requires replied { is_replied session.old.reply ≡ true }
    requires kept { session.old.body.kept ≡ None }
    ensures reuses { ReusesAs L.state now session.old session.new entry.old entry.new result }
    ensures calls { CalledForReuse (L.state session.old.link) (L.state session.new.link)
        (keeps_alive session.old) (is_reused result) (read_fault_of result) }
    ensures plan { L.same_plan session.old.link session.new.link }
{
    if session.is_body_read() {
        // The payload is bounded by its limit.
        let _len = entry.body_len();
        return session.poll_reuse(now);
    }
    entry.lend_payload(session);
    let answer = session.poll_reuse(now);
    entry.take_payload_back(session);
    answer
}
