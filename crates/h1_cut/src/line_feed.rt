//! The rest of a line that isn't empty (RFC 9112, section 2.2).
ghost use Rattle.std.specs.Prelude.{◌≡◌, ◌+◌, ◌≤◌, length, MatchOption};
ghost use Rattle.h1_cut.specs.Text.{EndsTextAt, IsTextTo};

use crate::{LookedAt, Steps};
use std::sync::ledger::Ledger;

/// The index behind the first LF from `from` on.
#[inline(always)]
#[tactic(auto, using(crate::proofs::LookLemmas::text_itself, crate::proofs::LookLemmas::text_on, crate::proofs::LookLemmas::text_ends))]
pub(crate) fn past_line_feed<L: Ledger>(
    bytes: &LookedAt<'_>,
    from: usize,
    steps: &mut Steps<L>,
) -> Option<usize>
    requires { from ≤ length bytes.now }
    ensures text { MatchOption result (IsTextTo bytes.now from (length bytes.now))
        (EndsTextAt bytes.now from) }
    ensures steps { MatchOption result (steps.new + from ≡ steps.old + length bytes.now)
        (λ n. steps.new + from ≡ steps.old + n) }
{
    let mut at = from;
    // Four bytes a turn.
    while bytes.len() - at >= 4 {
        if bytes.at(at, steps) == b'\n' {
            return Some(at + 1);
        }
        if bytes.at(at + 1, steps) == b'\n' {
            return Some(at + 2);
        }
        if bytes.at(at + 2, steps) == b'\n' {
            return Some(at + 3);
        }
        if bytes.at(at + 3, steps) == b'\n' {
            return Some(at + 4);
        }
        at += 4;
    }
    while at < bytes.len() {
        if bytes.at(at, steps) == b'\n' {
            return Some(at + 1);
        }
        at += 1;
    }
    None
}
