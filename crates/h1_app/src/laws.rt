//! Laws of connections, each the contract of a function that does nothing (RFC 9112, section 9.3.2).
ghost use Rattle.std.specs.Prelude.{◌≡◌, ℕ, List, [], ◌∷◌, ◌++◌, length, Option, Some, None, option_map, option_to_list};
ghost use Rattle.std.specs.List.{AllByRecursion};
ghost use Rattle.h1_error.specs.declared.progress.End.{End};
ghost use Rattle.h1_error.specs.declared.progress.Waiting.{Waiting};
ghost use Rattle.h1_error.specs.declared.progress.Waiting.TheVariants as waiting;
ghost use Rattle.h1_error.specs.declared.progress.Progress.TheVariants as progress;
ghost use Rattle.h1_transfer.specs.declared.budget.TheConstants.{CALL_BUDGET};
ghost use Rattle.h1_link.specs.Counts.{Rose, RoseBy};
ghost use Rattle.h1_link.specs.LinkState.{LinkState};
ghost use Rattle.bytes.specs.Filled.{Filled};
ghost use Rattle.h1_server.specs.Reuse.{prefix_of};
ghost use Rattle.h1_server.specs.SessionView.{SessionView, IsNewSession};
ghost use Rattle.h1_transcript.specs.Entry.{Entry};
ghost use Rattle.h1_app.specs.declared.reused.HttpPersistentSettings.{HttpPersistentSettings};
ghost use Rattle.h1_app.specs.Persistent.{applied, with_prefix};
ghost use Rattle.h1_app.specs.Joins.{IsDoneIn, IsRestarted};
ghost use Rattle.h1_app.specs.Accounted.{Accounted};
ghost use Rattle.h1_transcript.specs.Agrees.{Agrees};
ghost use Rattle.h1_app.specs.Causes.{Cause, PendedBy};
ghost use Rattle.h1_transcript.specs.Ends.{EndCause};
ghost use Rattle.h1_transcript.specs.Complete.{Fits, IsValid, GaveOf, AreWithin, NoFault, IsInTime, KeepsOn, ServesAll};
ghost use Rattle.h1_transcript.specs.Stream.{Message};
ghost use Rattle.h1_transcript.specs.Rules.{Filters};
ghost use Rattle.h1_app.specs.View.{Served, View};
ghost use Rattle.h1_transcript.specs.Begun.{Terms};

use crate::ServeHttp;
use h1_link::Link;
use h1_modules::HttpModuleBuilder;

/// After an exchange whose request was read whole and whose reply was written whole, the bytes that
/// were received and not used are the input of the next one, and nothing is owed any more.
pub fn the_next_exchange_begins_behind_the_last<L: Link, C>()
    ensures { (before : LinkState) (old new : SessionView L C) (done : List Entry) (e : Entry)
        → IsDoneIn old e → IsRestarted old new
        → Accounted L.state before old done (Some e)
        → Accounted L.state before new (done ++ e ∷ []) None }
{}

/// A link that is handed on with what was received holds the input after the request: a new session
/// that is set so goes on where the last one stood.
pub fn a_link_that_is_handed_on_goes_on<L: Link, C>()
    ensures { (old fresh : SessionView L C) (prefix : Option Filled)
        (settings : HttpPersistentSettings C)
        → IsNewSession old.link fresh
        → option_map (λ bytes. bytes.items) prefix ≡ prefix_of old.received
        → settings.pipelined_prefix ≡ None
        → IsRestarted old (applied (with_prefix settings prefix) fresh) }
{}

/// Valid input is served: where the application keeps the connection, whatever the filters make of
/// its replies, the limit allows so many requests, no call of the link failed and no limit of time
/// was reached, every end that is no refusal of a filter is that of a connection whose requests were
/// all served, or out of memory.
pub fn valid_input_is_served<L: Link + Drop, SV: ServeHttp<L, C> + Drop, C: Drop>()
    ensures { (app : SV) (filters : Filters) (terms : Terms) (before old now : LinkState)
        (input : List ℕ) (requests : List Message)
        → (done : List Entry) (last : Option Entry) (reason : End)
        → IsValid input requests → GaveOf input before now → AreWithin terms.limit (length requests)
        → AllByRecursion (Fits terms.holding.limit) requests
        → NoFault old now → IsInTime now reason
        → Agrees (record { gives = SV.gives app; filters = filters }) terms before now
        (done ++ option_to_list last)
        → AllByRecursion KeepsOn (done ++ option_to_list last)
        → EndCause before old now done last reason
        → ServesAll before now requests done last reason }
{}

/// A poll that met nothing that wasn't ready, in the link or in the application, waits for its budget
/// alone: each of its calls moved bytes until it was spent.
pub fn only_the_budget_is_awaited<L, SV, B, C>()
where
    L: Link + Drop,
    SV: ServeHttp<L, C> + Drop,
    B: HttpModuleBuilder + Drop,
    C: Drop,
    ensures { (filters : Filters) (before : LinkState) (from to : View L C (Served SV B) SV.Job)
        (what : Waiting)
        → Cause filters L.state SV.begins SV.pends before from to (progress.Pending what)
        → (Rose (L.state from.session.link).read_waits (L.state to.session.link).read_waits → ⊥)
        → (Rose (L.state from.session.link).write_waits (L.state to.session.link).write_waits → ⊥)
        → (PendedBy SV.begins SV.pends from.done to.done from.stage to.stage → ⊥)
        → (what ≡ waiting.Budget)
        × RoseBy CALL_BUDGET (L.state from.session.link).moves (L.state to.session.link).moves }
{}
