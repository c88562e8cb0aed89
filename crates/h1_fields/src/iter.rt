//! Iterators over field lines and over the values of one name.
ghost use Rattle.std.specs.Prelude.{◌≡◌};
ghost use Rattle.std.specs.Iterator.{YieldsFirstBy, item_count};
ghost use Rattle.h1_fields.specs.Lines.{values_of};
ghost use Rattle.h1_fields.specs.Living.{living};
ghost use Rattle.h1_fields.specs.Lone.{IsLone};
ghost use Rattle.h1_fields.specs.Spans.{AllFit, lines_of};

use crate::gone::is_shown;
use crate::lone::Lone;
use crate::span::Span;
use std::marker::Model;

/// The lines that are left, each as its name and its value. A contract sees the list of these
/// pairs.
#[derive(Drop)]
pub struct FieldsIter<'a> {
    text: &'a [u8],
    left: &'a [Span],
    gone: u64,
}

impl<'a> Model for FieldsIter<'a> {
    ghost use Rattle.std.specs.Prelude.{ℕ, List};
    ghost use Rattle.h1_fields.specs.Living.{living};
    ghost use Rattle.h1_fields.specs.Spans.{AllFit, lines_of};

    ghost Value = { List (List ℕ × List ℕ) };

    ghost view = { λ i. living i.gone (lines_of i.text.now i.left.now) };

    ghost invariant = { λ i. AllFit i.text.now i.left.now };
}

impl<'a> FieldsIter<'a> {
    #[inline(always)]
    pub(crate) fn new(text: &'a [u8], left: &'a [Span], gone: u64) -> Self
        requires { AllFit text.now left.now }
        ensures { result ≡ living gone (lines_of text.now left.now) }
    {
        FieldsIter { text, left, gone }
    }
}

impl<'a> Iterator for FieldsIter<'a> {
    type Item = (&'a [u8], &'a [u8]);

    ghost next_gives = { YieldsFirstBy (λ line. (line.0.now, line.1.now)) (λ left. left) };

    ghost remaining = { item_count (λ left. left) };

    fn next(&mut self) -> Option<(&'a [u8], &'a [u8])> {
        while let Some((first, left)) = self.left.split_first() {
            self.left = left;
            let is_there = self.gone % 2 == 0;
            self.gone /= 2;
            if is_there {
                return Some((first.name(self.text), first.value(self.text)));
            }
        }
        None
    }
}

/// The values that are left of the lines of one name. A contract sees the list of these values.
#[derive(Drop)]
pub struct ValuesIter<'a> {
    /// A value before those of the lines.
    first: Option<&'a [u8]>,
    name: &'a [u8],
    text: &'a [u8],
    left: &'a [Span],
    gone: u64,
}

impl<'a> Model for ValuesIter<'a> {
    ghost use Rattle.std.specs.Prelude.{ℕ, List, ◌++◌, option_map, option_to_list};
    ghost use Rattle.h1_fields.specs.Lines.{values_of};
    ghost use Rattle.h1_fields.specs.Living.{living};
    ghost use Rattle.h1_fields.specs.Spans.{AllFit, lines_of};

    ghost Value = { List (List ℕ) };

    ghost view = { λ i. option_to_list (option_map (λ value. value.now) i.first)
        ++ values_of i.name.now (living i.gone (lines_of i.text.now i.left.now)) };

    ghost invariant = { λ i. AllFit i.text.now i.left.now };
}

impl<'a> ValuesIter<'a> {
    #[inline(always)]
    pub(crate) fn new(name: &'a [u8], text: &'a [u8], left: &'a [Span], gone: u64) -> Self
        requires { AllFit text.now left.now }
        ensures { result ≡ values_of name.now (living gone (lines_of text.now left.now)) }
    {
        ValuesIter {
            first: None,
            name,
            text,
            left,
            gone,
        }
    }

    /// The same, of which so much is known without a search.
    #[inline(always)]
    pub(crate) fn known(
        lone: Lone<'a>,
        name: &'a [u8],
        text: &'a [u8],
        left: &'a [Span],
        gone: u64,
    ) -> Self
        requires fit { AllFit text.now left.now }
        requires known { IsLone (values_of name.now (living gone (lines_of text.now left.now))) lone }
        ensures { result ≡ values_of name.now (living gone (lines_of text.now left.now)) }
    {
        match lone {
            Lone::Nothing => ValuesIter::new(name, b"", &[], 0),
            Lone::One(value) => ValuesIter {
                first: Some(value),
                name,
                text: b"",
                left: &[],
                gone: 0,
            },
            Lone::Unknown => ValuesIter::new(name, text, left, gone),
        }
    }
}

impl<'a> Iterator for ValuesIter<'a> {
    type Item = &'a [u8];

    ghost next_gives = { YieldsFirstBy (λ value. value.now) (λ left. left) };

    ghost remaining = { item_count (λ left. left) };

    #[inline]
    fn next(&mut self) -> Option<&'a [u8]> {
        if let Some(value) = self.first.take() {
            return Some(value);
        }
        while let Some((first, left)) = self.left.split_first() {
            self.left = left;
            let is_shown = is_shown(*first, self.gone, self.text, self.name);
            self.gone /= 2;
            if is_shown {
                return Some(first.value(self.text));
            }
        }
        None
    }
}
