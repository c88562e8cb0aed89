//! What the definitions say in the words of the standard.
ghost use Rattle.std.specs.Prelude.{◌≡◌, ◌<◌, ◌↔◌, ℕ, List, [], ◌∷◌, true, false, is_some, length, map, codes};
ghost use Rattle.std.specs.List.{AllByRecursion};
ghost use Rattle.std.specs.Char.{to_ascii_lowercase};
ghost use Rattle.h1_fields.specs.Names.{same_name};
ghost use Rattle.h1_fields.specs.Lines.{Line, has_line, values_of, first_value, with_line, without};
ghost use Rattle.h1_fields.specs.ListParts.{parts_of};
ghost use Rattle.h1_fields.specs.ContentLength.{content_length, IsNumber};
ghost use Rattle.h1_fields.specs.Codings.{codings, is_chunked_last, EndsInChunked};

use crate::ContentLength;

/// Two names are the same where they differ at most in the case of ASCII's letters.
pub fn names_ignore_case()
    ensures { (a b : List ℕ) → (same_name a b ≡ true)
        ↔ (map to_ascii_lowercase a ≡ map to_ascii_lowercase b) }
{}

/// An inserted line is the only one of its name, a removed name has none, and other names keep
/// their values.
pub fn insertion_and_removal()
    ensures inserted { (name value : List ℕ) (lines : List Line)
        → values_of name (with_line name value lines) ≡ value ∷ [] }
    ensures beside_inserted { (name value other : List ℕ) (lines : List Line)
        → same_name name other ≡ false
        → values_of other (with_line name value lines) ≡ values_of other lines }
    ensures removed { (name : List ℕ) (lines : List Line)
        → values_of name (without name lines) ≡ [] }
    ensures found { (name : List ℕ) (lines : List Line)
        → has_line name lines ≡ is_some (first_value name lines) }
    ensures beside_removed { (name other : List ℕ) (lines : List Line)
        → same_name name other ≡ false
        → values_of other (without name lines) ≡ values_of other lines }
{}

/// A length is stated where there is a part, and each part is this number (RFC 9110, section 8.6).
pub fn content_length_is()
    ensures number { (lines : List Line) (n : ℕ) → (content_length lines ≡ ContentLength.Number n)
        ↔ ((0 < length (parts_of (codes "Content-Length") lines))
        × AllByRecursion (IsNumber n) (parts_of (codes "Content-Length") lines)) }
    ensures absent { (lines : List Line) → (content_length lines ≡ ContentLength.Absent)
        ↔ (has_line (codes "Content-Length") lines ≡ false) }
{}

/// The last coding is `chunked` (RFC 9112, section 6.3).
pub fn chunked_last_is()
    ensures { (lines : List Line) → (is_chunked_last lines ≡ true) ↔ EndsInChunked (codings lines) }
{}
