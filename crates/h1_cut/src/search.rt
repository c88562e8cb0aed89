//! The search for the end of a head in a stream that comes in pieces (RFC 9112, section 2.2).
ghost use Rattle.std.specs.Prelude.{◌≡◌, ◌+◌, ◌^◌, ◌<◌, ◌≤◌, ◌++◌, ℕ, List, [], false, length, drop, min, IfNone, IfSome, MatchOption};
ghost use Rattle.h1_cut.specs.Cut.{cut};
ghost use Rattle.h1_cut.specs.Limit.{CutsAt, HasNoCut};
ghost use Rattle.h1_cut.specs.Search.{Advanced, HasLooked, HasLookedAt, at_of, found_by, has_begun, is_end};

use crate::line_feed::past_line_feed;
use crate::{LineSoFar, LookedAt, Steps};
use std::marker::Brand;
use std::sync::ledger::{Blank, Ledger};

/// How far a search has come.
#[derive(Clone, Copy, Debug, PartialEq, Eq)]
enum Reached {
    /// No line, or empty ones alone.
    Start,
    /// A nonempty line, and no empty one behind it.
    Lines,
    /// The end of the head.
    End,
}

impl Reached {
    #[inline(always)]
    fn has_begun(self) -> bool
        ensures { result ≡ has_begun self }
    {
        !matches!(self, Reached::Start)
    }

    #[inline(always)]
    fn is_end(self) -> bool
        ensures { result ≡ is_end self }
    {
        matches!(self, Reached::End)
    }
}

/// A search that keeps its place between pieces of a stream, so that no byte is looked at twice.
#[derive(Clone, Copy, Debug, PartialEq, Eq)]
pub struct HeadSearch {
    at: usize,
    reached: Reached,
    line: LineSoFar,
}

impl HeadSearch {
    /// A search at the beginning of a stream.
    pub fn new() -> HeadSearch
        ensures found { (bytes : List ℕ) → found_by result bytes ≡ cut bytes }
        ensures at { at_of result ≡ 0 }
        ensures looked { (limit : ℕ) (bytes : List ℕ) → HasLooked limit result bytes }
        ensures looked_at { (bytes : List ℕ) → HasLookedAt result bytes }
    {
        HeadSearch {
            at: 0,
            reached: Reached::Start,
            line: LineSoFar::Nothing,
        }
    }

    /// How many bytes the search has looked at.
    pub fn at(&self) -> usize
        ensures { result ≡ at_of self.now }
    {
        self.at
    }

    /// Looks at the next piece. Where the head ends in it, gives the number of bytes from the
    /// beginning of the stream through that end, and stays where it was.
    pub fn feed(&mut self, piece: &[u8]) -> Option<usize>
        requires { at_of self.old + length piece.now < 2 ^ 64 }
        ensures exact { result ≡ found_by self.old piece.now }
        ensures same { IfSome result (λ n. self.new ≡ self.old) }
        ensures at { IfNone result (at_of self.new ≡ at_of self.old + length piece.now) }
        ensures kept { IfNone result
            ((more : List ℕ) → found_by self.new more ≡ found_by self.old (piece.now ++ more)) }
    {
        self.feed_from::<Brand>(piece, Blank::new(1))
    }

    fn feed_from<L: Ledger>(&mut self, piece: &[u8], blank: Blank) -> Option<usize>
        requires name { blank.name ≡ L.name }
        requires parts { blank.parts ≡ L.parts }
        requires some { 0 < blank.parts }
        requires fits { at_of self.old + length piece.now < 2 ^ 64 }
        ensures exact { result ≡ found_by self.old piece.now }
        ensures same { IfSome result (λ n. self.new ≡ self.old) }
        ensures at { IfNone result (at_of self.new ≡ at_of self.old + length piece.now) }
        ensures kept { IfNone result
            ((more : List ℕ) → found_by self.new more ≡ found_by self.old (piece.now ++ more)) }
    {
        let mut ahead = HeadSearch {
            at: 0,
            reached: self.reached,
            line: self.line,
        };
        match ahead.look(&LookedAt::new(piece), &mut Steps::<L>::new(blank)) {
            Some(len) => Some(self.at + len),
            None => {
                *self = HeadSearch {
                    at: self.at + piece.len(),
                    reached: ahead.reached,
                    line: ahead.line,
                };
                None
            }
        }
    }

    /// Looks at what is new of the bytes of a stream, which begin with the bytes of the call
    /// before, and gives the number of bytes through the end of the first head. Once that is
    /// found, no byte is looked at any more.
    pub fn advance<L: Ledger>(
        &mut self,
        bytes: &LookedAt<'_>,
        steps: &mut Steps<L>,
    ) -> Option<usize>
        requires { HasLookedAt self.old bytes.now }
        ensures exact { result ≡ cut bytes.now }
        ensures advanced { Advanced self.old self.new bytes.now steps.old steps.new }
    {
        self.advance_within(bytes, bytes.len(), steps)
    }

    /// The same as [`HeadSearch::advance`], within a limit that stays the same from call to call.
    #[inline(always)]
    pub fn advance_within<L: Ledger>(
        &mut self,
        bytes: &LookedAt<'_>,
        limit: usize,
        steps: &mut Steps<L>,
    ) -> Option<usize>
        requires { HasLooked limit self.old bytes.now }
        ensures exact { MatchOption result (HasNoCut limit bytes.now) (CutsAt limit bytes.now) }
        ensures looked { HasLooked limit self.new bytes.now }
        ensures at { MatchOption result (at_of self.new ≡ min limit (length bytes.now))
            (λ n. at_of self.new ≡ n) }
        ensures steps { steps.new + at_of self.old ≤ steps.old + at_of self.new }
    {
        self.look(&bytes.front(limit.min(bytes.len())), steps)
    }

    /// The same as [`HeadSearch::advance_within`], for a caller that counts nothing.
    pub fn find_within(&mut self, bytes: &[u8], limit: usize) -> Option<usize>
        requires { HasLooked limit self.old bytes.now }
        ensures exact { MatchOption result (HasNoCut limit bytes.now) (CutsAt limit bytes.now) }
        ensures looked { HasLooked limit self.new bytes.now }
        ensures at { IfNone result (at_of self.new ≡ min limit (length bytes.now)) }
    {
        self.find_from::<Brand>(bytes, limit, Blank::new(1))
    }

    #[inline(always)]
    fn find_from<L: Ledger>(&mut self, bytes: &[u8], limit: usize, blank: Blank) -> Option<usize>
        requires name { blank.name ≡ L.name }
        requires parts { blank.parts ≡ L.parts }
        requires some { 0 < blank.parts }
        requires looked { HasLooked limit self.old bytes.now }
        ensures exact { MatchOption result (HasNoCut limit bytes.now) (CutsAt limit bytes.now) }
        ensures looked { HasLooked limit self.new bytes.now }
        ensures at { IfNone result (at_of self.new ≡ min limit (length bytes.now)) }
    {
        self.advance_within(&LookedAt::new(bytes), limit, &mut Steps::<L>::new(blank))
    }

    /// Goes on over the bytes of a stream, of which the search has looked at a front.
    #[inline(always)]
    fn look<L: Ledger>(&mut self, bytes: &LookedAt<'_>, steps: &mut Steps<L>) -> Option<usize>
        requires { at_of self.old ≤ length bytes.now }
        ensures found { result ≡ found_by self.new [] }
        ensures kept { (more : List ℕ) → found_by self.new more
            ≡ found_by self.old (drop (at_of self.old) bytes.now ++ more) }
        ensures at { MatchOption result (at_of self.new ≡ length bytes.now)
            (λ n. at_of self.new ≡ n) }
        ensures within { at_of self.new ≤ length bytes.now }
        ensures steps { steps.new + at_of self.old ≡ steps.old + at_of self.new }
    {
        let mut ahead = *self;
        while !ahead.reached.is_end() && ahead.at < bytes.len() {
            ahead.step(bytes, steps);
        }
        *self = ahead;
        if ahead.reached.is_end() {
            Some(ahead.at)
        } else {
            None
        }
    }

    /// Looks at the rest of a line that isn't empty, or else at one byte.
    #[inline(always)]
    fn step<L: Ledger>(&mut self, bytes: &LookedAt<'_>, steps: &mut Steps<L>)
        requires unfinished { is_end self.old.reached ≡ false }
        requires more { at_of self.old < length bytes.now }
        ensures kept { (more : List ℕ)
            → found_by self.new (drop (at_of self.new) bytes.now ++ more)
            ≡ found_by self.old (drop (at_of self.old) bytes.now ++ more) }
        ensures on { at_of self.old < at_of self.new }
        ensures within { at_of self.new ≤ length bytes.now }
        ensures steps { steps.new + at_of self.old ≡ steps.old + at_of self.new }
    {
        let end = bytes.len();
        if !self.line.is_empty() {
            match past_line_feed(bytes, self.at, steps) {
                Some(at) => {
                    self.at = at;
                    self.reached = Reached::Lines;
                    self.line = LineSoFar::Nothing;
                }
                None => self.at = end,
            }
            return;
        }
        let byte = bytes.at(self.at, steps);
        self.at += 1;
        if byte != b'\n' {
            self.line = self.line.with(byte);
        } else if self.reached.has_begun() {
            self.reached = Reached::End;
        } else {
            self.line = LineSoFar::Nothing;
        }
    }
}
