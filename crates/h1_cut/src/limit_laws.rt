//! Laws of the cut within a limit, and of the search for it (RFC 9112, section 2.1).
ghost use Rattle.std.specs.Prelude.{◌≡◌, ◌≤◌, ◌<◌, ◌++◌, ℕ, List, length, take};
ghost use Rattle.h1_cut.specs.Limit.{CutsAt, HasNoCut};
ghost use Rattle.h1_cut.specs.Search.{HasLooked};

use crate::HeadSearch;

/// The bytes begin with at most one head within a limit, and there is none where the search finds
/// none.
pub fn heads_within_a_limit_are_unique()
    ensures one { (limit : ℕ) (bytes : List ℕ) (m n : ℕ) → CutsAt limit bytes m
        → CutsAt limit bytes n → m ≡ n }
    ensures none { (limit : ℕ) (bytes : List ℕ) (n : ℕ) → CutsAt limit bytes n
        → HasNoCut limit bytes → ⊥ }
    ensures fronts { (limit : ℕ) (bytes : List ℕ) (n k : ℕ) → CutsAt limit bytes n → k < n
        → HasNoCut limit (take k bytes) }
{}

/// What was found within a limit stays, and so does that nothing can be found within it any more.
pub fn heads_within_a_limit_are_stable()
    ensures found { (limit : ℕ) (bytes more : List ℕ) (n : ℕ) → CutsAt limit bytes n
        → CutsAt limit (bytes ++ more) n }
    ensures bytes { (limit : ℕ) (bytes more : List ℕ) (n : ℕ) → CutsAt limit bytes n
        → take n (bytes ++ more) ≡ take n bytes }
    ensures none { (limit : ℕ) (bytes more : List ℕ) → limit ≤ length bytes → HasNoCut limit bytes
        → HasNoCut limit (bytes ++ more) }
{}

/// What a search has looked at stays a front of the stream.
pub fn searches_go_on()
    ensures { (limit : ℕ) (s : HeadSearch) (bytes more : List ℕ) → HasLooked limit s bytes
        → HasLooked limit s (bytes ++ more) }
{}
