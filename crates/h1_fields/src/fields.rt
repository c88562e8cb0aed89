//! The field lines of a message (RFC 9110, section 5).
ghost use Rattle.std.specs.Prelude.{◌≡◌, ◌≤◌, ◌==◌, ◌∷◌, ◌++◌, [], length, map, option_map, All, IfOk, OnOk, OnErr, IsOkUnless, codes};
ghost use Rattle.std.specs.Arc.{arc_value};
ghost use Rattle.httparse.specs.Spans.{IsHeaderWithin, header_bytes};
ghost use Rattle.h1_error.specs.Memory.{no_memory};
ghost use Rattle.h1_fields.specs.declared.held.TheConstants.{MAX_SHARED_LINES};
ghost use Rattle.h1_fields.specs.Held.{lines_in};
ghost use Rattle.h1_fields.specs.Kinds.{name_of};
ghost use Rattle.h1_fields.specs.Lone.{IsLone};
ghost use Rattle.h1_fields.specs.Lines.{has_line, values_of, first_value, without, with_line};
ghost use Rattle.h1_fields.specs.Living.{living};

use crate::block::Block;
use crate::gone::{count_lines, count_values, first_value, hide};
use crate::held::{Held, MAX_SHARED_LINES, known_of, parts_of};
use crate::iter::{FieldsIter, ValuesIter};
use crate::kinds::Kind;
use crate::lone::{Lone, lone_in};
use crate::short::ShortLine;
use crate::span::{FEW_LINES, MAX_TEXT};
use bytes::Bytes;
use h1_error::Error;
use httparse::spans::HeaderSpan;
use std::alloc::Global;
use std::fmt;
use std::marker::Model;
use std::sync::Arc;

/// The field lines of a message, in order, with names in their spelling. A contract sees the list
/// of pairs of name and value.
///
/// A copy is one owner more of the same lines, or has the same short line, where there never were
/// more than 64 and no room was reserved for more. An owner that isn't the only one adds and
/// replaces in lines of its own, which it copies first, and removes by marking lines as gone for
/// itself. All names and values stand in one text, where those of a line that went stay until the
/// last owner is dropped; no call shows them. The text of lines that were read may be the head
/// itself, which is then kept as long. One short line that was read or added alone takes no block of
/// memory, and a few short lines take one. A head that is read in the place of another takes the
/// block of the other, if it has one and no other owner. Where the one line of Connection,
/// Content-Length, Host or Transfer-Encoding stands is known without a search.
#[derive(Drop)]
pub struct Fields {
    alloc: Global,
    held: Held,
    gone: u64,
}

impl Model for Fields {
    ghost use Rattle.std.specs.Prelude.{ℕ, List};
    ghost use Rattle.h1_fields.specs.Held.{lines_in, AreFlags};
    ghost use Rattle.h1_fields.specs.Living.{living};

    ghost Value = { List (List ℕ × List ℕ) };

    ghost view = { λ f. living f.gone (lines_in f.held) };

    ghost invariant = { λ f. AreFlags f.gone f.held };
}

impl Fields {
    /// No lines. Takes no memory.
    #[inline(always)]
    pub fn new(alloc: Global) -> Self
        ensures { result ≡ [] }
    {
        Fields {
            alloc,
            held: Held::Nothing,
            gone: 0,
        }
    }

    /// No lines, with room for that many, and for a first part of their text.
    #[inline(always)]
    pub fn with_capacity(alloc: Global, lines: usize) -> Result<Self, Error>
        ensures ok { IfOk result (λ fields. fields ≡ []) }
        ensures err { IsOkUnless result no_memory }
    {
        // One line may be short enough to need no block.
        if lines <= 1 {
            return Ok(Fields::new(alloc));
        }
        Fields::with_block(alloc, lines)
    }

    // Kept apart from what reads each head.
    #[inline(never)]
    fn with_block(alloc: Global, lines: usize) -> Result<Self, Error>
        ensures ok { IfOk result (λ fields. fields ≡ []) }
        ensures err { IsOkUnless result no_memory }
    {
        Ok(Fields {
            alloc,
            held: Held::with_capacity(alloc, lines)?,
            gone: 0,
        })
    }

    /// Puts the lines at these places of a head in the place of these. The bytes of the head are
    /// shared; those of one short line may be copied, and of more than 64 lines they are. With an
    /// error what stands there has no meaning.
    #[inline(always)]
    #[tactic(auto, using(crate::proofs::LivingLemmas::living_all))]
    pub fn read(&mut self, head: &Bytes, spans: &[HeaderSpan]) -> Result<(), Error>
        requires { All (IsHeaderWithin (length head.now)) spans.now }
        ensures ok { OnOk result (self.new ≡ map (header_bytes head.now) spans.now) }
        ensures err { IsOkUnless result no_memory }
    {
        match &mut self.held {
            Held::Read(owner) if spans.len() <= MAX_SHARED_LINES && head.len() <= MAX_TEXT => {
                if let Some(lines) = Arc::get_mut(owner) {
                    self.gone = 0;
                    lines.read(head, spans)?;
                    return Ok(());
                }
            }
            _ => {}
        }
        *self = Fields::of_head(self.alloc, head, spans)?;
        Ok(())
    }

    /// The lines at these places of a head. One short line is copied, and so are more than 64; of
    /// others the bytes of the head are shared.
    #[inline(always)]
    fn of_head(alloc: Global, head: &Bytes, spans: &[HeaderSpan]) -> Result<Self, Error>
        requires { All (IsHeaderWithin (length head.now)) spans.now }
        ensures ok { IfOk result (λ fields. fields ≡ map (header_bytes head.now) spans.now) }
        ensures err { IsOkUnless result no_memory }
    {
        match spans {
            [] => return Ok(Fields::new(alloc)),
            [span] => {
                let text = head.as_slice();
                if let Some(line) = ShortLine::of(span.name.of(text), span.value.of(text)) {
                    return Ok(Fields {
                        alloc,
                        held: Held::One(line),
                        gone: 0,
                    });
                }
            }
            _ => {}
        }
        Fields::of_lines(alloc, head, spans)
    }

    // The same for other lines than a short one. Kept apart from what reads each head.
    #[inline(never)]
    fn of_lines(alloc: Global, head: &Bytes, spans: &[HeaderSpan]) -> Result<Self, Error>
        requires { All (IsHeaderWithin (length head.now)) spans.now }
        ensures ok { IfOk result (λ fields. fields ≡ map (header_bytes head.now) spans.now) }
        ensures err { IsOkUnless result no_memory }
    {
        if spans.len() <= MAX_SHARED_LINES && head.len() <= MAX_TEXT {
            return Ok(Fields {
                alloc,
                held: Held::of_head(alloc, head, spans)?,
                gone: 0,
            });
        }
        let mut fields = Fields::with_capacity(alloc, spans.len())?;
        for span in spans {
            fields.append(
                span.name.of(head.as_slice()),
                span.value.of(head.as_slice()),
            )?;
        }
        Ok(fields)
    }

    /// How many lines there are.
    pub fn len(&self) -> usize
        ensures { result ≡ length self.now }
    {
        let (text, spans) = parts_of(&self.held);
        count_lines(text, spans, self.gone)
    }

    #[inline(always)]
    pub fn is_empty(&self) -> bool
        ensures { result ≡ (length self.now == 0) }
    {
        self.iter().next().is_none()
    }

    /// Adds a line at the end. Lines that are shared are copied first.
    #[inline(always)]
    #[tactic(auto, using(crate::proofs::LivingLemmas::living_all))]
    pub fn append(&mut self, name: &[u8], value: &[u8]) -> Result<(), Error>
        ensures ok { OnOk result (self.new ≡ self.old ++ (name.now, value.now) ∷ []) }
        ensures err { IsOkUnless result no_memory }
        ensures same { OnErr result (self.new ≡ self.old) }
    {
        if let Held::Nothing = &self.held {
            if let Some(line) = ShortLine::of(name, value) {
                self.held = Held::One(line);
                self.gone = 0;
                return Ok(());
            }
        }
        self.append_behind(name, value)
    }

    // The same behind other lines, or of a line that isn't short. Kept apart, so that a caller with
    // one short line can have it inlined.
    #[inline(never)]
    #[tactic(auto, using(crate::proofs::LivingLemmas::living_all))]
    fn append_behind(&mut self, name: &[u8], value: &[u8]) -> Result<(), Error>
        ensures ok { OnOk result (self.new ≡ self.old ++ (name.now, value.now) ∷ []) }
        ensures err { IsOkUnless result no_memory }
        ensures same { OnErr result (self.new ≡ self.old) }
    {
        match &mut self.held {
            Held::Own(block) => return block.append(name, value),
            Held::Shared(owner) if self.gone == 0 && owner.len() < MAX_SHARED_LINES => {
                if let Some(block) = Arc::get_mut(owner) {
                    return block.append(name, value);
                }
            }
            _ => {}
        }
        self.append_to_copy(name, value)
    }

    // The same with lines that are copied first.
    #[inline(never)]
    #[tactic(auto, using(crate::proofs::LivingLemmas::living_all))]
    fn append_to_copy(&mut self, name: &[u8], value: &[u8]) -> Result<(), Error>
        ensures ok { OnOk result (self.new ≡ self.old ++ (name.now, value.now) ∷ []) }
        ensures err { IsOkUnless result no_memory }
        ensures same { OnErr result (self.new ≡ self.old) }
    {
        let mut block = self.own_lines()?;
        block.append(name, value)?;
        self.held = Held::new(self.alloc, block, 0)?;
        self.gone = 0;
        Ok(())
    }

    /// Puts the line in the place of the first of that name, and removes later ones of that name;
    /// at the end where there is none. Lines that are shared are copied first.
    #[tactic(auto, using(crate::proofs::LivingLemmas::living_all))]
    pub fn insert(&mut self, name: &[u8], value: &[u8]) -> Result<(), Error>
        ensures ok { OnOk result (self.new ≡ with_line name.now value.now self.old) }
        ensures err { IsOkUnless result no_memory }
        ensures same { OnErr result (self.new ≡ self.old) }
    {
        match &mut self.held {
            Held::Own(block) => return block.insert(name, value),
            Held::Shared(owner) if self.gone == 0 && owner.len() < MAX_SHARED_LINES => {
                if let Some(block) = Arc::get_mut(owner) {
                    block.insert(name, value)?;
                    return Ok(());
                }
            }
            _ => {}
        }
        self.insert_to_copy(name, value)
    }

    // The same with lines that are copied first.
    #[cold]
    #[inline(never)]
    #[tactic(auto, using(crate::proofs::LivingLemmas::living_all))]
    fn insert_to_copy(&mut self, name: &[u8], value: &[u8]) -> Result<(), Error>
        ensures ok { OnOk result (self.new ≡ with_line name.now value.now self.old) }
        ensures err { IsOkUnless result no_memory }
        ensures same { OnErr result (self.new ≡ self.old) }
    {
        let mut block = self.own_lines()?;
        block.insert(name, value)?;
        self.held = Held::new(self.alloc, block, 0)?;
        self.gone = 0;
        Ok(())
    }

    /// Removes all lines of that name. True exactly where there was one.
    pub fn remove(&mut self, name: &[u8]) -> bool
        ensures lines { self.new ≡ without name.now self.old }
        ensures found { result ≡ has_line name.now self.old }
    {
        let found = self.contains(name);
        self.remove_lines(name);
        found
    }

    #[tactic(auto, using(crate::proofs::LivingLemmas::living_all))]
    fn remove_lines(&mut self, name: &[u8])
        ensures { self.new ≡ without name.now self.old }
    {
        match &mut self.held {
            Held::Nothing => {}
            Held::One(line) => {
                if line.is_named(name) {
                    self.held = Held::Nothing;
                }
            }
            Held::Own(block) => block.remove(name),
            Held::Shared(owner) => self.gone = remove_from(owner, self.gone, name),
            Held::Read(owner) => {
                let (head, lines) = owner.parts();
                self.gone = hide(head, lines, self.gone, name);
            }
        }
    }

    /// Whether there is a line of that name.
    #[inline(always)]
    pub fn contains(&self, name: &[u8]) -> bool
        ensures { result ≡ has_line name.now self.now }
    {
        self.get(name).is_some()
    }

    /// The value of the first line of that name.
    pub fn get(&self, name: &[u8]) -> Option<&[u8]>
        ensures { option_map (λ value. value.now) result ≡ first_value name.now self.now }
    {
        let (text, spans) = parts_of(&self.held);
        first_value(text, spans, self.gone, name)
    }

    /// How many lines have that name.
    pub fn count_named(&self, name: &[u8]) -> usize
        ensures { result ≡ length (values_of name.now self.now) }
    {
        let (text, spans) = parts_of(&self.held);
        count_values(text, spans, self.gone, name)
    }

    /// All lines, in order.
    #[inline(always)]
    pub fn iter(&self) -> FieldsIter<'_>
        ensures { result ≡ self.now }
    {
        let (text, spans) = parts_of(&self.held);
        FieldsIter::new(text, spans, self.gone)
    }

    /// The values of all lines of that name, in order.
    #[inline(always)]
    pub fn get_all<'a>(&'a self, name: &'a [u8]) -> ValuesIter<'a>
        ensures { result ≡ values_of name.now self.now }
    {
        let (text, spans) = parts_of(&self.held);
        ValuesIter::new(name, text, spans, self.gone)
    }

    /// The values of all Host lines, in order.
    #[inline(always)]
    pub fn hosts(&self) -> ValuesIter<'_>
        ensures { result ≡ values_of (codes "Host") self.now }
    {
        self.values(Kind::Host)
    }

    /// The values of all Host lines, as far as they are known without a search.
    #[inline(always)]
    pub fn lone_host(&self) -> Lone<'_>
        ensures { IsLone (values_of (codes "Host") self.now) result }
    {
        self.lone(Kind::Host)
    }

    /// The values of all lines of that kind, in order.
    #[inline(always)]
    pub(crate) fn values(&self, kind: Kind) -> ValuesIter<'_>
        ensures { result ≡ values_of (name_of kind) self.now }
    {
        let (text, spans, kinds) = known_of(&self.held);
        let lone = lone_in(text, spans, kinds, self.gone, kind);
        ValuesIter::known(lone, kind.name(), text, spans, self.gone)
    }

    /// The same, as far as they are known without a search.
    #[inline(always)]
    pub(crate) fn lone(&self, kind: Kind) -> Lone<'_>
        ensures { IsLone (values_of (name_of kind) self.now) result }
    {
        let (text, spans, kinds) = known_of(&self.held);
        lone_in(text, spans, kinds, self.gone, kind)
    }

    /// Puts the same lines in this place, as `copy` gives them. With an error what stands there has
    /// no meaning.
    #[inline(always)]
    pub fn copy_to(&self, place: &mut Fields) -> Result<(), Error>
        ensures ok { OnOk result (place.new ≡ self.now) }
        ensures err { IsOkUnless result no_memory }
    {
        place.held = match &self.held {
            Held::Nothing => Held::Nothing,
            Held::One(line) => Held::One(line.copy()),
            Held::Shared(block) => Held::Shared(Arc::try_clone(block)?),
            Held::Read(lines) => Held::Read(Arc::try_clone(lines)?),
            Held::Own(_) => {
                *place = self.own_copy()?;
                return Ok(());
            }
        };
        place.gone = self.gone;
        Ok(())
    }

    /// The same lines again. Takes memory only where there are or were more than 64, or room was
    /// reserved for more.
    #[inline(always)]
    pub fn copy(&self) -> Result<Self, Error>
        ensures ok { IfOk result (λ copy. copy ≡ self.now) }
        ensures err { IsOkUnless result no_memory }
    {
        let held = match &self.held {
            Held::Nothing => Held::Nothing,
            Held::One(line) => Held::One(line.copy()),
            Held::Shared(owner) => Held::Shared(Arc::try_clone(owner)?),
            Held::Read(owner) => Held::Read(Arc::try_clone(owner)?),
            Held::Own(_) => return self.own_copy(),
        };
        Ok(Fields {
            alloc: self.alloc,
            held,
            gone: self.gone,
        })
    }

    // The same lines in a block with no other owner.
    #[cold]
    #[inline(never)]
    #[tactic(auto, using(crate::proofs::LivingLemmas::living_all))]
    fn own_copy(&self) -> Result<Self, Error>
        ensures ok { IfOk result (λ copy. copy ≡ self.now) }
        ensures err { IsOkUnless result no_memory }
    {
        let block = self.own_lines()?;
        Ok(Fields {
            alloc: self.alloc,
            held: Held::new(self.alloc, block, 0)?,
            gone: 0,
        })
    }

    // The same lines, with room for more.
    fn own_lines(&self) -> Result<Block, Error>
        ensures ok { IfOk result (λ block. block ≡ self.now) }
        ensures err { IsOkUnless result no_memory }
    {
        let lines = parts_of(&self.held).1.len();
        // Few lines need no room of their own.
        let room = if lines < FEW_LINES {
            FEW_LINES
        } else {
            lines.saturating_add(FEW_LINES)
        };
        Block::of_lines(self.alloc, self.iter(), room)
    }
}

/// Removes the lines of that name for one owner of a block: the lines themselves where it is the
/// only one and none is gone, and else it counts them as gone. Returns which lines are gone then.
#[tactic(auto, using(crate::proofs::LivingLemmas::living_all))]
fn remove_from(owner: &mut Arc<Block>, gone: u64, name: &[u8]) -> u64
    requires { length (arc_value owner.old) ≤ MAX_SHARED_LINES }
    ensures lines { living result (arc_value owner.new)
        ≡ without name.now (living gone (arc_value owner.old)) }
    ensures few { length (arc_value owner.new) ≤ MAX_SHARED_LINES }
{
    match Arc::get_mut(owner) {
        None => {
            let (text, spans) = owner.parts();
            hide(text, spans, gone, name)
        }
        Some(block) => {
            if gone == 0 {
                block.remove(name);
                return 0;
            }
            let (text, spans) = block.parts();
            hide(text, spans, gone, name)
        }
    }
}

/// The lines as `iter` gives them: the text of lines that went isn't shown.
impl fmt::Debug for Fields {
    fn fmt<W: fmt::Write>(&self, f: &mut fmt::Formatter<W>) -> fmt::Result {
        f.debug_list().entries(self.iter()).finish()
    }
}
