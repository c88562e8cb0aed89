//! The parts of the comma-separated lists in field values (RFC 9110, section 5.6.1).
ghost use Rattle.std.specs.Prelude.{◌≡◌, ◌∷◌, option_map};
ghost use Rattle.std.specs.List.{slice_split};
ghost use Rattle.std.specs.Iterator.{YieldsFirstBy, item_count};
ghost use Rattle.h1_fields.specs.ListParts.{is_comma, list_parts};
ghost use Rattle.h1_fields.specs.Pieces.{pieces_behind};

use crate::iter::ValuesIter;
use crate::white_space::trim_ows;
use std::marker::Model;

/// The parts that are left of some values. A contract sees the list of these parts.
#[derive(Drop)]
pub struct PartsIter<'a> {
    value: Option<&'a [u8]>,
    values: ValuesIter<'a>,
}

impl<'a> Model for PartsIter<'a> {
    ghost use Rattle.std.specs.Prelude.{ℕ, List, ◌++◌, option_map};
    ghost use Rattle.h1_fields.specs.ListParts.{list_parts};
    ghost use Rattle.h1_fields.specs.Pieces.{parts_behind};

    ghost Value = { List (List ℕ) };

    ghost view = { λ p. parts_behind (option_map (λ value. value.now) p.value)
        ++ list_parts p.values };
}

impl<'a> PartsIter<'a> {
    #[inline(always)]
    pub(crate) fn new(values: ValuesIter<'a>) -> Self
        ensures { result ≡ list_parts values.entry }
    {
        PartsIter {
            value: None,
            values,
        }
    }
}

impl<'a> Iterator for PartsIter<'a> {
    type Item = &'a [u8];

    ghost next_gives = { YieldsFirstBy (λ part. part.now) (λ left. left) };

    ghost remaining = { item_count (λ left. left) };

    #[inline(always)]
    fn next(&mut self) -> Option<&'a [u8]> {
        let value = match self.value {
            Some(value) => value,
            None => self.values.next()?,
        };
        let (piece, behind) = first_piece(value);
        self.value = behind;
        Some(trim_ows(piece))
    }
}

/// The bytes before the first comma, and those after it where there is one.
fn first_piece(value: &[u8]) -> (&[u8], Option<&[u8]>)
    ensures { slice_split is_comma value.now
        ≡ result.0.now ∷ pieces_behind (option_map (λ behind. behind.now) result.1) }
{
    for (at, byte) in value.iter().enumerate() {
        if *byte == b',' {
            return (&value[..at], Some(&value[at + 1..]));
        }
    }
    (value, None)
}
