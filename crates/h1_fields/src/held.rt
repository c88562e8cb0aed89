//! The owners of field lines.
ghost use Rattle.std.specs.Prelude.{◌≡◌, ◌≤◌, length, map, All, IfOk, IsOkUnless, []};
ghost use Rattle.httparse.specs.Spans.{IsHeaderWithin, header_bytes};
ghost use Rattle.h1_error.specs.Memory.{no_memory};
ghost use Rattle.h1_fields.specs.declared.held.TheConstants.{MAX_SHARED_LINES};
ghost use Rattle.h1_fields.specs.declared.span.TheConstants.{MAX_TEXT};
ghost use Rattle.h1_fields.specs.Held.{lines_in, AreFlags};
ghost use Rattle.h1_fields.specs.Kinds.{AreKnown};
ghost use Rattle.h1_fields.specs.Spans.{AllFit, lines_of};

use crate::block::Block;
use crate::head::HeadLines;
use crate::kinds::Kinds;
use crate::short::ShortLine;
use crate::span::{FEW_LINES, MAX_TEXT, Span};
use bytes::Bytes;
use h1_error::Error;
use httparse::spans::HeaderSpan;
use std::alloc::Global;
use std::sync::Arc;

/// How many lines a block has at most that may have several owners.
pub(crate) const MAX_SHARED_LINES: usize = 64;

/// Field lines, as one of their owners holds them.
#[derive(Drop)]
pub(crate) enum Held {
    /// No line, and no block.
    Nothing,
    /// One short line, with no block.
    One(ShortLine),
    /// At most 64 lines, which may have other owners.
    Shared(Arc<Block>),
    /// At most 64 lines of a head, which may have other owners.
    Read(Arc<HeadLines>),
    /// Any lines, with no other owner.
    Own(Box<Block>),
}

impl Held {
    /// The owner of a new block with room for so many lines.
    #[inline(always)]
    pub(crate) fn with_capacity(alloc: Global, lines: usize) -> Result<Self, Error>
        ensures ok { IfOk result (λ held. lines_in held ≡ []) }
        ensures flags { IfOk result (AreFlags 0) }
        ensures err { IsOkUnless result no_memory }
    {
        if lines <= FEW_LINES {
            return Ok(Held::Shared(Arc::new(alloc, Block::new(alloc))?));
        }
        Held::with_many(alloc, lines)
    }

    // Kept apart, so that a caller with few lines doesn't make room for many.
    #[inline(never)]
    fn with_many(alloc: Global, lines: usize) -> Result<Self, Error>
        ensures ok { IfOk result (λ held. lines_in held ≡ []) }
        ensures flags { IfOk result (AreFlags 0) }
        ensures err { IsOkUnless result no_memory }
    {
        let block = Block::with_capacity(alloc, lines)?;
        Held::new(alloc, block, lines)
    }

    /// The owner of the lines at these places of a head.
    #[inline(never)]
    pub(crate) fn of_head(alloc: Global, head: &Bytes, spans: &[HeaderSpan]) -> Result<Self, Error>
        requires within { All (IsHeaderWithin (length head.now)) spans.now }
        requires short { length head.now ≤ MAX_TEXT }
        requires few { length spans.now ≤ MAX_SHARED_LINES }
        ensures ok { IfOk result (λ held. lines_in held ≡ map (header_bytes head.now) spans.now) }
        ensures flags { IfOk result (AreFlags 0) }
        ensures err { IsOkUnless result no_memory }
    {
        let mut lines = HeadLines::new(alloc);
        lines.read(head, spans)?;
        Ok(Held::Read(Arc::new(alloc, lines)?))
    }

    /// The owner of a block that has no other and is to have so many lines.
    #[inline(always)]
    pub(crate) fn new(alloc: Global, block: Block, lines: usize) -> Result<Self, Error>
        ensures ok { IfOk result (λ held. lines_in held ≡ block) }
        ensures flags { IfOk result (AreFlags 0) }
        ensures err { IsOkUnless result no_memory }
    {
        if block.len().max(lines) <= MAX_SHARED_LINES {
            Ok(Held::Shared(Arc::new(alloc, block)?))
        } else {
            Ok(Held::Own(Box::new(alloc, block)?))
        }
    }
}

/// The text that lines lie in, and their places in it.
#[inline(always)]
pub(crate) fn parts_of(held: &Held) -> (&[u8], &[Span])
    ensures fit { AllFit result.0.now result.1.now }
    ensures lines { lines_of result.0.now result.1.now ≡ lines_in held.now }
{
    match held {
        Held::Nothing => (&[], &[]),
        Held::One(line) => line.parts(),
        Held::Shared(owner) => owner.parts(),
        Held::Read(owner) => owner.parts(),
        Held::Own(block) => block.parts(),
    }
}

/// The text that lines lie in, their places in it, and where those of each kind stand.
#[inline(always)]
pub(crate) fn known_of(held: &Held) -> (&[u8], &[Span], Kinds)
    ensures known { AreKnown result.0.now result.1.now result.2 }
    ensures lines { lines_of result.0.now result.1.now ≡ lines_in held.now }
{
    match held {
        Held::Nothing => (&[], &[], Kinds::none()),
        Held::One(line) => line.known(),
        Held::Shared(owner) => owner.known(),
        Held::Read(owner) => owner.known(),
        Held::Own(block) => block.known(),
    }
}
