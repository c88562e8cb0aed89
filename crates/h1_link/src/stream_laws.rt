//! Laws of counts, and of what the calls of sources and sinks leave.
ghost use Rattle.std.specs.Prelude.{ℕ, ◌+◌, ◌-◌, ◌^◌, ◌<◌, ◌≤◌, List, Bool};
ghost use Rattle.h1_link.specs.Counts.{Rose, RoseBy, raised};
ghost use Rattle.h1_link.specs.SourceState.{SourceState, LaterSource, after_source_read};
ghost use Rattle.h1_link.specs.SinkState.{SinkState, LaterSink, after_sink_write};
ghost use Rattle.h1_link.specs.SinkState.{after_sink_flush};
ghost use Rattle.h1_link.specs.declared.sink.SinkStep.{SinkStep};
ghost use Rattle.h1_link.specs.declared.source.SourceStep.{SourceStep};

/// Rises of a count add up, and below its last value a count that rose is higher.
pub fn counts_add_up()
    ensures rose { (count by : ℕ) → RoseBy by count (raised count by) }
    ensures on { (a b before between now : ℕ)
        → RoseBy a before between → RoseBy b between now → RoseBy (a + b) before now }
    ensures along { (by before between now then : ℕ)
        → before ≤ between → RoseBy by between now → now ≤ then → RoseBy by before then }
    ensures above { (before now : ℕ)
        → Rose before now → before < 2 ^ 64 - 1 → before < now }
{}

/// Every call of a source or a sink only adds bytes and raises counts, and an end stays.
pub fn streams_only_add()
    ensures source { (s : SourceState) (buffer : List ℕ) (step : SourceStep)
        → LaterSource s (after_source_read s buffer step) }
    ensures source_on { (a b c : SourceState)
        → LaterSource a b → LaterSource b c → LaterSource a c }
    ensures sink { (s : SinkState) (piece : List ℕ) (step : SinkStep)
        → LaterSink s (after_sink_write s piece step) }
    ensures sink_flush { (s : SinkState) (done : Bool) → LaterSink s (after_sink_flush s done) }
    ensures sink_on { (a b c : SinkState) → LaterSink a b → LaterSink b c → LaterSink a c }
{}
