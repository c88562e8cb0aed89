//! What holds in every interleaving of a subrequest and its handle, and which events the reads and
//! writes of bodies are.
ghost use Rattle.std.specs.Prelude.{◌≡◌, ℕ, List, [], ◌∷◌, Option, Some, true, false};
ghost use Rattle.h1_fields.specs.Lines.{Line};
ghost use Rattle.h1_subrequest.specs.Events.{SubView, put_passed, sub_run, sub_step, taken_from};
ghost use Rattle.h1_subrequest.specs.Interleavings.{HoldsTogether};
ghost use Rattle.h1_subrequest.specs.Reading.{reads, reads_end};
ghost use Rattle.h1_subrequest.specs.Words.{Body, BodyMode, Done, Drops, HttpTask, Passes, Put, RequestView, SubEvent, Take, ToHandle, ToSubrequest, Trailer, is_four};
ghost use Rattle.h1_subrequest.specs.Writing.{cut, done_passing};

/// Behind every list of events, whichever side makes each: what was taken in a direction is the
/// front of what was put in it, the response has no more payload than its header states and ends
/// once, and no more of the request's body is counted as read than was taken.
pub fn every_interleaving()
    ensures { (request : RequestView) (events : List SubEvent)
        → HoldsTogether request (sub_run request events) }
{}

/// A read that takes a task, or finds its sender ended, is a take by the subrequest. A write is a
/// put by it: of a piece what is cut of it, of an end the end, where there is room for a task. An
/// end that comes too early needs none.
pub fn bodies_are_events()
    ensures takes { (request : RequestView) (s : SubView) (task : HttpTask)
        → (queue : List HttpTask) → s.to_subrequest.queue ≡ task ∷ queue
        → sub_step request s (Take ToSubrequest) ≡ record s {
          to_subrequest = taken_from s.to_subrequest (task ∷ queue);
          reader = reads s.reader task;
        } }
    ensures ends { (request : RequestView) (s : SubView) → s.to_subrequest.queue ≡ []
        → s.to_subrequest.closed ≡ true
        → sub_step request s (Take ToSubrequest) ≡ record s { reader = reads_end s.reader } }
    ensures piece { (request : RequestView) (s : SubView) (piece part : List ℕ) (after : BodyMode)
        → is_four s.to_handle.queue ≡ false → cut s.writer piece ≡ Some (part, after)
        → sub_step request s (Put ToHandle (Body (Some piece) false))
        ≡ put_passed request s (Body (Some part) false) after }
    ensures done { (request : RequestView) (s : SubView) (after : BodyMode)
        → is_four s.to_handle.queue ≡ false → done_passing s.writer ≡ Passes Done after
        → sub_step request s (Put ToHandle Done) ≡ put_passed request s Done after }
    ensures short { (request : RequestView) (s : SubView) (after : BodyMode)
        → done_passing s.writer ≡ Drops after
        → sub_step request s (Put ToHandle Done) ≡ record s { writer = after } }
    ensures trailer { (request : RequestView) (s : SubView) (fields : Option (List Line))
        → is_four s.to_handle.queue ≡ false
        → sub_step request s (Put ToHandle (Trailer fields))
        ≡ put_passed request s (Trailer fields) s.writer }
{}
