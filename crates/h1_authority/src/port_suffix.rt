//! Authorities whose port two readers may find in two places (RFC 3986, section 3.2).
ghost use Rattle.std.specs.Prelude.{◌≡◌};
ghost use Rattle.h1_authority.specs.PortSuffix.{is_ambiguous_outside, is_ambiguous_behind_bracket, has_ambiguous_port_suffix};

use crate::bytes::{colons, has_bracket};

/// Whether readers may disagree on where the port of an authority begins: a bracket or a second
/// colon outside of a leading pair of brackets, or such a pair that is open or nested.
pub fn has_ambiguous_port_suffix(authority: &[u8]) -> bool
    ensures { result ≡ has_ambiguous_port_suffix authority.now }
{
    match authority.split_first() {
        Some((b'[', behind)) => is_ambiguous_behind_bracket(behind),
        _ => is_ambiguous_outside(authority),
    }
}

fn is_ambiguous_outside(bytes: &[u8]) -> bool
    ensures { result ≡ is_ambiguous_outside bytes.now }
{
    has_bracket(bytes) || colons(bytes) > 1
}

fn is_ambiguous_behind_bracket(bytes: &[u8]) -> bool
    ensures { result ≡ is_ambiguous_behind_bracket bytes.now }
{
    for (at, byte) in bytes.iter().enumerate() {
        match *byte {
            b'[' => return true,
            b']' => return is_ambiguous_outside(&bytes[at + 1..]),
            _ => {}
        }
    }
    true
}
