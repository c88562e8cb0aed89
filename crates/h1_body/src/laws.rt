//! Laws of bodies, each the contract of a function that does nothing
//! (RFC 9112, sections 6 and 7.1).
ghost use Rattle.std.specs.Prelude.{◌≡◌, ◌+◌, ℕ, List, [], ◌++◌, true, false, length, take, slice_range};
ghost use Rattle.h1_body.specs.Body.{ahead, stop_of};
ghost use Rattle.h1_body.specs.Laws.{GrowsTo};
ghost use Rattle.h1_body.specs.Read.{HasRead};
ghost use Rattle.h1_body.specs.Feeds.{Feeds};
ghost use Rattle.h1_body.specs.Reader.{body, body_at_end, reads, closes_with_link, is_until_close};
ghost use Rattle.h1_body.specs.declared.fed.Fed.{Fed};
ghost use Rattle.h1_body.specs.declared.fed.FeedState.{FeedState};
ghost use Rattle.h1_body.specs.declared.fed.FeedState.TheVariants.{Done};
ghost use Rattle.h1_body.specs.declared.reader.BodyReader.{BodyReader};
ghost use Rattle.h1_body.specs.declared.framing.Framing.{Framing};

/// With more bytes after, an end stays as it is, and payload only grows.
pub fn bodies_grow()
    ensures { (framing : Framing) (bytes more : List ℕ)
        → GrowsTo (body framing bytes) (body framing (bytes ++ more)) }
{}

/// What is read of a body in pieces, however they are cut, is what its bytes make of it.
pub fn readings_join()
    ensures first { (framing : Framing) (reader : BodyReader)
        → ((bytes : List ℕ) → reads reader bytes ≡ body framing bytes)
        → HasRead framing [] [] reader }
    ensures next { (framing : Framing) (bytes payload piece : List ℕ)
        → (old new : BodyReader) (fed : Fed) → HasRead framing bytes payload old
        → Feeds (reads old) (reads new) piece fed
        → HasRead framing (bytes ++ take fed.used piece)
        (payload ++ slice_range piece fed.payload.start fed.payload.end) new }
    ensures now { (framing : Framing) (bytes payload : List ℕ) (reader : BodyReader)
        → HasRead framing bytes payload reader
        → body framing bytes ≡ ahead payload (length bytes) (reads reader []) }
    ensures end { (framing : Framing) (bytes payload : List ℕ)
        → (reader : BodyReader) (answer : FeedState) → HasRead framing bytes payload reader
        → closes_with_link reader ≡ is_until_close framing
        → (closes_with_link reader ≡ true → answer ≡ Done)
        → (closes_with_link reader ≡ false → stop_of answer ≡ reads reader [])
        → body_at_end framing bytes ≡ ahead payload (length bytes) (stop_of answer) }
{}
