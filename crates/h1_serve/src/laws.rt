//! What the causes of the exit statuses come to, what reports of one script have in common, which
//! faults a script plans, and how many polls wait for their budget.
ghost use Rattle.std.specs.Prelude.{◌≡◌, ◌⊎◌, ℕ, ◌+◌, ◌*◌, ◌≤◌, List, ◌++◌, length, Option, Some, None};
ghost use Rattle.h1_link.specs.AcceptorState.{AcceptorState};
ghost use Rattle.h1_link.specs.ClockState.{ClockState};
ghost use Rattle.h1_link.specs.Counts.{Rose};
ghost use Rattle.h1_link.specs.LinkState.{LinkState};
ghost use Rattle.h1_link.specs.SourceState.{SourceState};
ghost use Rattle.h1_link.specs.SinkState.{SinkState};
ghost use Rattle.h1_words.specs.declared.command.Command.{Command};
ghost use Rattle.h1_words.specs.declared.words.Task.{Task};
ghost use Rattle.h1_words.specs.declared.words.Task.TheVariants as task;
ghost use Rattle.h1_words.specs.Script.{script_of, commands, faulty_at};
ghost use Rattle.h1_serve.specs.ListenPeer.{IsPeer};
ghost use Rattle.h1_serve.specs.Finished.{IsFinished, IsBehindPolls};
ghost use Rattle.h1_serve.specs.Output.{Wrote, usage_line};
ghost use Rattle.h1_serve.specs.Planned.{read_fault_lines, write_fault_lines};
ghost use Rattle.h1_marking.specs.Marking.{MarkingModule};
ghost use Rattle.h1_serve.specs.Report.{Lines};
ghost use Rattle.h1_serve.specs.State.{State, start_with};
ghost use Rattle.h1_serve.specs.Polled.{Tells, AreSpent, state_behind};
ghost use Rattle.h1_serve.specs.Status.{Ends, DoneBy, StopsListening, Refused, GaveScript};

use h1_link::Link;

/// What each status tells.
pub fn statuses_have_causes<L: Link>()
    ensures done { (found : Option Task) (source source' : SourceState) (sink sink' : SinkState)
        (net net' : AcceptorState) (clock clock' : ClockState)
        → Ends (IsPeer L.state L.same_plan) found source source' sink sink' net net' clock clock' 0
        → DoneBy (IsPeer L.state L.same_plan) found source source'
        sink sink' net net' clock clock' }
    ensures words { (found : Option Task) (source source' : SourceState) (sink sink' : SinkState)
        (net net' : AcceptorState) (clock clock' : ClockState)
        → Ends (IsPeer L.state L.same_plan) found source source' sink sink' net net' clock clock' 2
        → (found ≡ None) × Wrote sink sink' usage_line }
    ensures script { (found : Option Task) (source source' : SourceState) (sink sink' : SinkState)
        (net net' : AcceptorState) (clock clock' : ClockState)
        → Ends (IsPeer L.state L.same_plan) found source source' sink sink' net net' clock clock' 3
        → (found ≡ Some task.Script) × Refused source source' sink sink' }
    ensures source { (found : Option Task) (source source' : SourceState) (sink sink' : SinkState)
        (net net' : AcceptorState) (clock clock' : ClockState)
        → Ends (IsPeer L.state L.same_plan) found source source' sink sink' net net' clock clock' 4
        → (found ≡ Some task.Script) × Rose source.faults source'.faults }
    ensures sink { (found : Option Task) (source source' : SourceState) (sink sink' : SinkState)
        (net net' : AcceptorState) (clock clock' : ClockState)
        → Ends (IsPeer L.state L.same_plan) found source source' sink sink' net net' clock clock' 5
        → Rose sink.faults sink'.faults }
    ensures acceptor { (found : Option Task) (source source' : SourceState) (sink sink' : SinkState)
        (net net' : AcceptorState) (clock clock' : ClockState)
        → Ends (IsPeer L.state L.same_plan) found source source' sink sink' net net' clock clock' 8
        → StopsListening (IsPeer L.state L.same_plan) found sink sink' net net' clock clock' }
{}

/// Which statuses the words and the script leave: where the words are no task 2, with a script
/// outside of its grammar 3, with one in it, with `gen N` and with `listen PORT COUNT` 0, but for a
/// fault of the source, the sink or the acceptor and where memory ran out.
pub fn few_statuses_are_left<L: Link>()
    ensures no_task { (source source' : SourceState) (sink sink' : SinkState)
        (net net' : AcceptorState) (clock clock' : ClockState) (number : ℕ)
        → Ends (IsPeer L.state L.same_plan) None source source'
        sink sink' net net' clock clock' number
        → (number ≡ 2) ⊎ ((number ≡ 5) × Rose sink.faults sink'.faults) ⊎ (number ≡ 6) }
    ensures faulty { (source source' : SourceState) (sink sink' : SinkState)
        (net net' : AcceptorState) (clock clock' : ClockState) (number line : ℕ) (script : List ℕ)
        → GaveScript source source' script → script_of script ≡ faulty_at line
        → Ends (IsPeer L.state L.same_plan) (Some task.Script) source source'
        sink sink' net net' clock clock' number
        → (number ≡ 3) ⊎ ((number ≡ 4) × Rose source.faults source'.faults)
        ⊎ ((number ≡ 5) × Rose sink.faults sink'.faults) ⊎ (number ≡ 6) }
    ensures lawful { (source source' : SourceState) (sink sink' : SinkState)
        (net net' : AcceptorState) (clock clock' : ClockState) (number : ℕ) (script : List ℕ)
        (asked : List Command)
        → GaveScript source source' script → script_of script ≡ commands asked
        → Ends (IsPeer L.state L.same_plan) (Some task.Script) source source'
        sink sink' net net' clock clock' number
        → (number ≡ 0) ⊎ ((number ≡ 4) × Rose source.faults source'.faults)
        ⊎ ((number ≡ 5) × Rose sink.faults sink'.faults) ⊎ (number ≡ 6) }
    ensures generated { (source source' : SourceState) (sink sink' : SinkState)
        (net net' : AcceptorState) (clock clock' : ClockState) (number count : ℕ)
        → Ends (IsPeer L.state L.same_plan) (Some (task.Gen count)) source source'
        sink sink' net net' clock clock' number
        → (number ≡ 0) ⊎ ((number ≡ 5) × Rose sink.faults sink'.faults) ⊎ (number ≡ 6) }
    ensures listened { (source source' : SourceState) (sink sink' : SinkState)
        (net net' : AcceptorState) (clock clock' : ClockState) (number port count : ℕ)
        → Ends (IsPeer L.state L.same_plan) (Some (task.Listen port count)) source source'
        sink sink' net net' clock clock' number
        → (number ≡ 0) ⊎ ((number ≡ 5) × Rose sink.faults sink'.faults) ⊎ (number ≡ 6)
        ⊎ ((number ≡ 8) × Rose net.accept_faults net'.accept_faults) }
{}

/// Two reports of one script, whose polls are all at one moment and whose connection finished, have
/// the same lines, but for those of the polls.
pub fn finished_reports_are_alike()
    ensures { (moment : ℕ) (script text other : List ℕ)
        → IsFinished moment script text → IsFinished moment script other
        → (told : List ℕ) × IsBehindPolls moment text told × IsBehindPolls moment other told }
{}

/// Of the calls of a script's link no more reads fail than lines `fault read` stood before, and no
/// more writes than lines `fault write`; `asked` are the lines up to any of them.
pub fn faults_are_planned()
    ensures { (limit : Option ℕ) (modules : List MarkingModule) (asked : List Command)
        (text : List ℕ) (now : State) → Lines (start_with limit modules) asked text now
        → (now.link.read_faults ≤ read_fault_lines asked)
        × (now.link.write_faults ≤ write_fault_lines asked) }
{}

/// Polls that each waited for their budget moved at least 64 bytes each, on a link that tells its
/// bytes; `polls` are the link's states after them. `Connection::poll` gives each step: its clause
/// `later`, and by its clause `cause` the `ToldGrowth` that `WaitCause` has for each poll that waits
/// for its budget. Where neither the link nor the application makes a poll wait, every poll but the
/// last waits for its budget (`only_the_budget_is_awaited` in h1_app). So valid input then takes at
/// most one poll more than the bytes moved divided by 64.
pub fn polls_for_the_budget_are_few()
    ensures { (first : LinkState) (polls : List LinkState) (given written : List ℕ)
        → Tells first given written → AreSpent first polls
        → (more further : List ℕ) × Tells (state_behind first polls) more further
        × (64 * length polls + length given + length written ≤ length more + length further) }
{}
