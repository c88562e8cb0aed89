//! A block of field lines: one text, and the places of the lines in it.
ghost use Rattle.std.specs.Prelude.{◌≡◌, ◌∷◌, ◌++◌, [], length, IfOk, OnOk, OnErr, IsOkUnless};
ghost use Rattle.h1_error.specs.Memory.{no_memory};
ghost use Rattle.h1_fields.specs.Lines.{without, with_line};
ghost use Rattle.h1_fields.specs.Kinds.{AreKnown};
ghost use Rattle.h1_fields.specs.Spans.{AllFit, lines_of};

use crate::iter::FieldsIter;
use crate::kinds::Kinds;
use crate::span::{FEW_LINES, Places, Span, first_named, remove_named};
use crate::text::Text;
use h1_error::Error;
use smallvec::SmallVec;
use std::alloc::Global;
use std::marker::Model;

/// The room for text that is reserved for each line, in bytes.
const TEXT_PER_LINE: usize = 48;

/// Field lines in order, with one owner or several. A contract sees the list of pairs of name and
/// value.
#[derive(Drop)]
pub(crate) struct Block {
    text: Text,
    lines: Places,
    kinds: Kinds,
}

impl Model for Block {
    ghost use Rattle.std.specs.Prelude.{ℕ, List};
    ghost use Rattle.h1_fields.specs.Spans.{lines_of};
    ghost use Rattle.h1_fields.specs.Kinds.{AreKnown};

    ghost Value = { List (List ℕ × List ℕ) };

    ghost view = { λ b. lines_of b.text b.lines.items };

    ghost invariant = { λ b. AreKnown b.text b.lines.items b.kinds };
}

impl Block {
    /// No lines. Takes no memory.
    #[inline(always)]
    pub(crate) fn new(alloc: Global) -> Self
        ensures { result ≡ [] }
    {
        Block {
            text: Text::new(alloc),
            lines: SmallVec::new(alloc),
            kinds: Kinds::none(),
        }
    }

    /// No lines, with room for that many, and for a first part of their text.
    pub(crate) fn with_capacity(alloc: Global, lines: usize) -> Result<Self, Error>
        ensures ok { IfOk result (λ block. block ≡ []) }
        ensures err { IsOkUnless result no_memory }
    {
        let mut block = Block::new(alloc);
        if lines > FEW_LINES {
            block.text.reserve(lines.saturating_mul(TEXT_PER_LINE))?;
            block.lines.reserve_exact(lines)?;
        }
        Ok(block)
    }

    /// The lines that are left of an iterator, with room for that many in all.
    pub(crate) fn of_lines(alloc: Global, left: FieldsIter<'_>, lines: usize) -> Result<Self, Error>
        ensures ok { IfOk result (λ block. block ≡ left.entry) }
        ensures err { IsOkUnless result no_memory }
    {
        let mut block = Block::with_capacity(alloc, lines)?;
        for (name, value) in left {
            block.append(name, value)?;
        }
        Ok(block)
    }

    #[inline(always)]
    pub(crate) fn len(&self) -> usize
        ensures { result ≡ length self.now }
    {
        self.lines.len()
    }

    /// The text, and the places of the lines in it.
    #[inline(always)]
    pub(crate) fn parts(&self) -> (&[u8], &[Span])
        ensures fit { AllFit result.0.now result.1.now }
        ensures lines { lines_of result.0.now result.1.now ≡ self.now }
    {
        (self.text.as_slice(), self.lines.as_slice())
    }

    /// The same, and where the lines of each kind stand.
    #[inline(always)]
    pub(crate) fn known(&self) -> (&[u8], &[Span], Kinds)
        ensures known { AreKnown result.0.now result.1.now result.2 }
        ensures lines { lines_of result.0.now result.1.now ≡ self.now }
    {
        (self.text.as_slice(), self.lines.as_slice(), self.kinds)
    }

    /// Adds a line at the end.
    #[inline(always)]
    pub(crate) fn append(&mut self, name: &[u8], value: &[u8]) -> Result<(), Error>
        ensures ok { OnOk result (self.new ≡ self.old ++ (name.now, value.now) ∷ []) }
        ensures err { IsOkUnless result no_memory }
        ensures same { OnErr result (self.new ≡ self.old) }
    {
        let at = self.lines.len();
        let span = Span::write(&mut self.text, name, value)?;
        self.lines.push(span)?;
        self.kinds.note(name, at);
        Ok(())
    }

    /// Puts the line in the place of the first of that name, and removes later ones of that name;
    /// at the end where there is none. Their text stays until the block is dropped.
    pub(crate) fn insert(&mut self, name: &[u8], value: &[u8]) -> Result<(), Error>
        ensures ok { OnOk result (self.new ≡ with_line name.now value.now self.old) }
        ensures err { IsOkUnless result no_memory }
        ensures same { OnErr result (self.new ≡ self.old) }
    {
        match first_named(self.text.as_slice(), self.lines.as_slice(), name) {
            None => self.append(name, value),
            Some(at) => {
                let span = Span::write(&mut self.text, name, value)?;
                self.kinds = Kinds::moved();
                remove_named(self.text.as_slice(), &mut self.lines, at + 1, name);
                self.lines.as_mut_slice()[at] = span;
                Ok(())
            }
        }
    }

    /// Removes all lines of that name. Their text stays until the block is dropped.
    pub(crate) fn remove(&mut self, name: &[u8])
        ensures { self.new ≡ without name.now self.old }
    {
        self.kinds = Kinds::moved();
        remove_named(self.text.as_slice(), &mut self.lines, 0, name);
    }
}
