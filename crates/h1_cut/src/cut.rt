//! The cut of a whole buffer (RFC 9112, sections 2.1 and 2.2).
ghost use Rattle.std.specs.Prelude.{◌≡◌, MatchOption};
ghost use Rattle.h1_cut.specs.Cut.{cut};
ghost use Rattle.h1_cut.specs.Limit.{CutsAt, HasNoCut};

use crate::LineSoFar;

/// The number of bytes through the end of the first head, where one ends within the bytes.
pub fn cut_of(bytes: &[u8]) -> Option<usize>
    ensures { result ≡ cut bytes.now }
{
    let mut at = 0usize;
    let mut begun = false;
    let mut line = LineSoFar::Nothing;
    while at < bytes.len() {
        let byte = bytes[at];
        at += 1;
        if byte != b'\n' {
            line = line.with(byte);
        } else if !line.is_empty() {
            begun = true;
            line = LineSoFar::Nothing;
        } else if begun {
            return Some(at);
        } else {
            line = LineSoFar::Nothing;
        }
    }
    None
}

/// The number of bytes through the end of the first head, where one ends within the first `limit`
/// bytes. A cut at exactly `limit` bytes counts.
pub fn cut_within(bytes: &[u8], limit: usize) -> Option<usize>
    ensures { MatchOption result (HasNoCut limit bytes.now) (CutsAt limit bytes.now) }
{
    cut_of(&bytes[..limit.min(bytes.len())])
}
