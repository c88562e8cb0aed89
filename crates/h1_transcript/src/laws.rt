//! Laws of transcripts, as contracts of functions that do nothing.
ghost use Rattle.std.specs.Prelude.{◌≡◌, ◌⊎◌, List, Some, false};
ghost use Rattle.h1_error.specs.declared.progress.End.{End};
ghost use Rattle.h1_link.specs.LinkState.{LinkState};
ghost use Rattle.h1_transcript.specs.Entry.{Entry};
ghost use Rattle.h1_transcript.specs.Complete.{NoFault, IsInTime, IsOutOfMemory};
ghost use Rattle.h1_transcript.specs.Ends.{EndCause, IsComplete};
ghost use Rattle.h1_transcript.specs.Exchange.{is_short};

/// Every exchange is replied to: where a connection ends, no module refused, no call of its link
/// failed and no limit of time was reached, the last exchange's reply was written whole and flushed,
/// if it isn't short, or memory ran out.
pub fn the_last_exchange_is_replied_to()
    ensures { (before old now : LinkState) (done : List Entry) (e : Entry) (reason : End)
        → EndCause before old now done (Some e) reason → NoFault old now → IsInTime now reason
        → is_short e ≡ false → IsComplete before now done e ⊎ IsOutOfMemory reason }
{}
