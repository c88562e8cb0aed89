//! What is known of the values of a kind without a search.
ghost use Rattle.h1_fields.specs.Kinds.{AreKnown, name_of};
ghost use Rattle.h1_fields.specs.Lines.{values_of};
ghost use Rattle.h1_fields.specs.Living.{living};
ghost use Rattle.h1_fields.specs.Lone.{IsLone};
ghost use Rattle.h1_fields.specs.Spans.{lines_of};

use crate::kinds::{Kind, Kinds, Place};
use crate::span::Span;

/// The values of a name, as far as they are known without a search.
#[derive(Clone, Copy, Debug)]
pub enum Lone<'a> {
    Nothing,
    One(&'a [u8]),
    /// A search tells.
    Unknown,
}

/// The values of a kind among the lines of a text that aren't gone.
#[inline(always)]
#[tactic(auto, using(crate::proofs::LivingLemmas::living_all))]
pub(crate) fn lone_in<'a>(
    text: &'a [u8],
    spans: &'a [Span],
    kinds: Kinds,
    gone: u64,
    kind: Kind,
) -> Lone<'a>
    requires { AreKnown text.now spans.now kinds }
    ensures { IsLone (values_of (name_of kind) (living gone (lines_of text.now spans.now))) result }
{
    if gone != 0 {
        return Lone::Unknown;
    }
    match kinds.place(kind) {
        Place::Nowhere => Lone::Nothing,
        Place::At(at) => Lone::One(spans[at as usize].value(text)),
        Place::Anywhere => Lone::Unknown,
    }
}
