//! One short line, which needs no block of memory.
ghost use Rattle.std.specs.Prelude.{◌≡◌, ◌∷◌, [], if◌then◌else◌, IfSome};
ghost use Rattle.h1_fields.specs.Kinds.{AreKnown};
ghost use Rattle.h1_fields.specs.Lines.{without};
ghost use Rattle.h1_fields.specs.Spans.{AllFit, lines_of};

use crate::kinds::Kinds;
use crate::span::Span;
use std::marker::Model;

/// How many bytes the name and the value of a short line have together at most.
const MOST_SHORT: usize = 24;

/// One short line, which is copied with its owner. A contract sees the list of its pair of name and
/// value.
#[derive(Debug, Drop)]
pub(crate) struct ShortLine {
    text: [u8; MOST_SHORT],
    /// How many bytes of the text are used.
    len: usize,
    lines: [Span; 1],
    kinds: Kinds,
}

impl Model for ShortLine {
    ghost use Rattle.std.specs.Prelude.{ℕ, List, ◌≤◌, length, take};
    ghost use Rattle.h1_fields.specs.Spans.{lines_of};
    ghost use Rattle.h1_fields.specs.Kinds.{AreKnown};

    ghost Value = { List (List ℕ × List ℕ) };

    ghost view = { λ s. lines_of (take s.len s.text) s.lines };

    ghost invariant = { λ s. (s.len ≤ length s.text) × AreKnown (take s.len s.text) s.lines s.kinds };
}

impl ShortLine {
    /// The line, where it is short.
    #[inline(always)]
    pub(crate) fn of(name: &[u8], value: &[u8]) -> Option<Self>
        ensures { IfSome result (λ line. line ≡ (name.now, value.now) ∷ []) }
    {
        let middle = name.len();
        if MOST_SHORT < middle || MOST_SHORT - middle < value.len() {
            return None;
        }
        let end = middle + value.len();
        let mut text = [0; MOST_SHORT];
        text[..middle].copy_from_slice(name);
        text[middle..end].copy_from_slice(value);
        let mut kinds = Kinds::none();
        kinds.note(name, 0);
        Some(ShortLine {
            text,
            len: end,
            lines: [Span::from_start(middle, end)],
            kinds,
        })
    }

    /// The same line again.
    #[inline(always)]
    pub(crate) fn copy(&self) -> Self
        ensures { result ≡ self.now }
    {
        ShortLine {
            text: self.text,
            len: self.len,
            lines: self.lines,
            kinds: self.kinds,
        }
    }

    /// Whether the line has this name, in any case.
    #[inline(always)]
    pub(crate) fn is_named(&self, name: &[u8]) -> bool
        ensures { without name.now self.now ≡ (if result then [] else self.now) }
    {
        self.lines[0].is_named(&self.text[..self.len], name)
    }

    /// The text, and the place of the line in it.
    #[inline(always)]
    pub(crate) fn parts(&self) -> (&[u8], &[Span])
        ensures fit { AllFit result.0.now result.1.now }
        ensures lines { lines_of result.0.now result.1.now ≡ self.now }
    {
        (&self.text[..self.len], &self.lines)
    }

    /// The same, and where the lines of each kind stand.
    #[inline(always)]
    pub(crate) fn known(&self) -> (&[u8], &[Span], Kinds)
        ensures known { AreKnown result.0.now result.1.now result.2 }
        ensures lines { lines_of result.0.now result.1.now ≡ self.now }
    {
        (&self.text[..self.len], &self.lines, self.kinds)
    }
}
