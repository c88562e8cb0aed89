//! Laws of what the calls of a search cost together.
ghost use Rattle.std.specs.Prelude.{◌+◌, ◌≤◌, ◌++◌, ◌∷◌, ℕ, List, [], length};
ghost use Rattle.h1_cut.specs.Search.{Advanced, Calls, HasLookedAt, at_of};

use crate::HeadSearch;

/// What a search has looked at stays a front of a stream that grows, and no byte is looked at
/// twice: a call takes at most one step for each byte that wasn't there at the call before, and the
/// calls of a new search together at most one for each byte of the last.
pub fn searches_look_once()
    ensures front { (s : HeadSearch) (bytes more : List ℕ) → HasLookedAt s bytes
        → HasLookedAt s (bytes ++ more) }
    ensures one { (s t u : HeadSearch) (bytes more : List ℕ) (a b c : ℕ) → Advanced s t bytes a b
        → Advanced t u (bytes ++ more) b c → c ≤ b + length more }
    ensures all { (calls : List (List ℕ)) (last : List ℕ) (s t : HeadSearch) (a b : ℕ)
        → Calls s a (calls ++ last ∷ []) t b → b + at_of s ≤ a + length last }
{}
