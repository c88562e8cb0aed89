//! The field lines of a head that was read, as places in its bytes.
ghost use Rattle.std.specs.Prelude.{◌≡◌, ◌≤◌, [], length, map, All, OnOk, IsOkUnless};
ghost use Rattle.httparse.specs.Spans.{IsHeaderWithin, header_bytes};
ghost use Rattle.h1_error.specs.Memory.{no_memory};
ghost use Rattle.h1_fields.specs.declared.span.TheConstants.{MAX_TEXT};
ghost use Rattle.h1_fields.specs.Kinds.{AreKnown};
ghost use Rattle.h1_fields.specs.Spans.{AllFit, lines_of};

use crate::kinds::Kinds;
use crate::span::{MAX_TEXT, Span};
use bytes::Bytes;
use h1_error::Error;
use httparse::spans::HeaderSpan;
use smallvec::SmallVec;
use std::alloc::Global;
use std::marker::Model;

/// How many places the lines of a head have with them. More take a block of memory of their own.
const MANY_LINES: usize = 16;

/// Field lines that lie in the bytes of a head, with one owner or several. A contract sees the list
/// of pairs of name and value.
#[derive(Drop)]
pub(crate) struct HeadLines {
    head: Bytes,
    lines: SmallVec<Span, MANY_LINES>,
    kinds: Kinds,
}

impl Model for HeadLines {
    ghost use Rattle.std.specs.Prelude.{ℕ, List};
    ghost use Rattle.h1_fields.specs.Spans.{lines_of};
    ghost use Rattle.h1_fields.specs.Kinds.{AreKnown};

    ghost Value = { List (List ℕ × List ℕ) };

    ghost view = { λ h. lines_of h.head h.lines.items };

    ghost invariant = { λ h. AreKnown h.head h.lines.items h.kinds };
}

impl HeadLines {
    /// No lines. Takes no memory.
    pub(crate) fn new(alloc: Global) -> Self
        ensures { result ≡ [] }
    {
        HeadLines {
            head: Bytes::new(),
            lines: SmallVec::new(alloc),
            kinds: Kinds::none(),
        }
    }

    /// Puts the lines at these places, which the parser found, in the place of these. The head isn't
    /// copied.
    #[inline(always)]
    pub(crate) fn read(&mut self, head: &Bytes, spans: &[HeaderSpan]) -> Result<(), Error>
        requires within { All (IsHeaderWithin (length head.now)) spans.now }
        requires short { length head.now ≤ MAX_TEXT }
        ensures ok { OnOk result (self.new ≡ map (header_bytes head.now) spans.now) }
        ensures err { IsOkUnless result no_memory }
        ensures few { length self.new ≤ length spans.now }
    {
        self.lines.clear();
        self.kinds = Kinds::none();
        self.head = head.clone()?;
        for span in spans {
            let at = self.lines.len();
            self.lines.push(Span::of_header(*span, head.as_slice()))?;
            self.kinds.note(span.name.of(head.as_slice()), at);
        }
        Ok(())
    }

    /// The bytes, and the places of the lines in them.
    #[inline(always)]
    pub(crate) fn parts(&self) -> (&[u8], &[Span])
        ensures fit { AllFit result.0.now result.1.now }
        ensures lines { lines_of result.0.now result.1.now ≡ self.now }
    {
        (self.head.as_slice(), self.lines.as_slice())
    }

    /// The same, and where the lines of each kind stand.
    #[inline(always)]
    pub(crate) fn known(&self) -> (&[u8], &[Span], Kinds)
        ensures known { AreKnown result.0.now result.1.now result.2 }
        ensures lines { lines_of result.0.now result.1.now ≡ self.now }
    {
        (self.head.as_slice(), self.lines.as_slice(), self.kinds)
    }
}
