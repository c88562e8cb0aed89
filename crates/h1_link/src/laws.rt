//! Laws of what the calls of a link leave, as contracts of functions that do nothing.
ghost use Rattle.std.specs.Prelude.{ℕ, List};
ghost use Rattle.h1_link.specs.LinkState.{LinkState};
ghost use Rattle.h1_link.specs.Later.{Later, KeepsBytes, CallsOnce};
ghost use Rattle.h1_link.specs.Steps.{after_read, after_write, after_flush, after_shutdown};
ghost use Rattle.h1_link.specs.declared.link.ReadStep.{ReadStep};
ghost use Rattle.h1_link.specs.declared.link.WriteStep.{WriteStep};
ghost use Rattle.h1_link.specs.declared.link.FlushStep.{FlushStep};

/// Every call only adds bytes and raises counts, and an end and a shutdown stay.
pub fn calls_only_add()
    ensures read { (s : LinkState) (buffer : List ℕ) (step : ReadStep)
        → Later s (after_read s buffer step) }
    ensures write { (s : LinkState) (piece : List ℕ) (step : WriteStep)
        → Later s (after_write s piece step) }
    ensures flush { (s : LinkState) (step : FlushStep) → Later s (after_flush s step) }
    ensures shutdown { (s : LinkState) → Later s (after_shutdown s) }
{}

/// A call raises `moves` or `others`, by one at most.
pub fn calls_add_up()
    ensures read { (s : LinkState) (buffer : List ℕ) (step : ReadStep)
        → CallsOnce s (after_read s buffer step) }
    ensures write { (s : LinkState) (piece : List ℕ) (step : WriteStep)
        → CallsOnce s (after_write s piece step) }
    ensures flush { (s : LinkState) (step : FlushStep) → CallsOnce s (after_flush s step) }
    ensures shutdown { (s : LinkState) → CallsOnce s (after_shutdown s) }
{}

/// What happens between moments goes on from one stretch to the next.
pub fn later_states_go_on()
    ensures itself { (s : LinkState) → Later s s }
    ensures on { (a b c : LinkState) → Later a b → Later b c → Later a c }
    ensures keeps_on { (a b c : LinkState)
        → KeepsBytes a b → KeepsBytes b c → KeepsBytes a c }
    ensures keeps { (a b : LinkState) → KeepsBytes a b → Later a b }
{}
