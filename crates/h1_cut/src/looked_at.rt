//! Bytes that are looked at one by one, with a count of the looks.
ghost use Rattle.std.specs.Prelude.{◌≡◌, ◌+◌, ◌<◌, ◌≤◌, ℕ, List, length, slice_index, take};

use crate::Steps;
use std::marker::Model;
use std::sync::ledger::Ledger;

/// Bytes of which each look is a step. Contracts see them as the list of the bytes.
#[derive(Drop)]
pub struct LookedAt<'a> {
    bytes: &'a [u8],
}

impl<'a> Model for LookedAt<'a> {
    ghost Value = { List ℕ };

    ghost view = { λ l. l.bytes.now };
}

impl<'a> LookedAt<'a> {
    /// The bytes, none of them looked at.
    #[inline(always)]
    pub fn new(bytes: &'a [u8]) -> LookedAt<'a>
        ensures { result ≡ bytes.now }
    {
        LookedAt { bytes }
    }

    /// How many bytes there are.
    #[inline(always)]
    pub fn len(&self) -> usize
        ensures { result ≡ length self.now }
    {
        self.bytes.len()
    }

    /// The byte at an index, which is one step. There is no other way to a byte.
    #[inline(always)]
    pub fn at<L: Ledger>(&self, i: usize, steps: &mut Steps<L>) -> u8
        requires { i < length self.now }
        ensures byte { result ≡ slice_index self.now i }
        ensures steps { steps.new ≡ steps.old + 1 }
    {
        steps.tick();
        self.bytes[i]
    }

    /// The first bytes of these.
    #[inline(always)]
    pub(crate) fn front(&self, len: usize) -> LookedAt<'a>
        requires { len ≤ length self.now }
        ensures { result ≡ take len self.now }
    {
        LookedAt {
            bytes: &self.bytes[..len],
        }
    }
}
