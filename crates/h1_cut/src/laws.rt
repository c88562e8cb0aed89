//! Laws of the cut: it is stable, it is that of its own front, no head is the front of another, and
//! it is what the lines say (RFC 9112, sections 2.1 and 2.2).
ghost use Rattle.std.specs.Prelude.{◌≡◌, ◌≤◌, ◌<◌, ◌++◌, ℕ, List, [], length, take, false, Some};
ghost use Rattle.h1_cut.specs.Cut.{cut};
ghost use Rattle.h1_cut.specs.Lines.{end_of_head, lines_behind};

/// Bytes after a head don't move its end.
pub fn cut_is_stable()
    ensures { (bytes more : List ℕ) (n : ℕ) → cut bytes ≡ Some n → cut (bytes ++ more) ≡ Some n }
{}

/// A head ends within the bytes, takes at least one byte, and is found in its own bytes alone.
pub fn cut_of_its_front()
    ensures { (bytes : List ℕ) (n : ℕ) → cut bytes ≡ Some n
        → (0 < n) × (n ≤ length bytes) × (cut (take n bytes) ≡ Some n) }
{}

/// No whole head is the front of another.
pub fn heads_are_prefix_free()
    ensures { (head more : List ℕ) → cut head ≡ Some (length head)
        → cut (head ++ more) ≡ Some (length (head ++ more)) → more ≡ [] }
{}

/// The cut is the number of bytes through the first empty line after a nonempty one.
pub fn cut_is_by_lines()
    ensures { (bytes : List ℕ) → cut bytes ≡ end_of_head 0 false (lines_behind [] bytes) }
{}
