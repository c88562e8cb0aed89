//! The authority of a request target in absolute form (RFC 9112, section 3.2.2).
ghost use Rattle.std.specs.Prelude.{◌≡◌, ◌==◌, position};
ghost use Rattle.std.specs.List.{list_any};
ghost use Rattle.std.specs.Option.{option_copied};
ghost use Rattle.h1_authority.specs.RawTarget.{seen_as, ends_scheme, has_backslash, is_empty, behind_slashes, http_class, other_class, class_of_scheme, class_of};

use crate::bytes::{authority_part, ends_authority};
use crate::scheme::{is_http_family_scheme, is_scheme};

/// What the bytes of a request target say of its authority, before any part of it is decoded.
#[derive(Clone, Copy, Debug, PartialEq, Eq)]
pub enum RawTargetAuthority<'a> {
    /// The target names none.
    None,
    /// Readers may take the target for different authorities.
    AmbiguousAuthority,
    /// The target is in absolute form.
    Absolute {
        /// What stands before the first colon.
        scheme: &'a [u8],
        /// What stands after `//`, up to the first `/`, `?` or `#`.
        authority: &'a [u8],
    },
}

/// The authority that a request target names by its bytes.
#[inline(always)]
pub fn raw_target_authority(target: &[u8]) -> RawTargetAuthority<'_>
    ensures { seen_as result ≡ class_of target.now }
{
    // Most targets begin with a path.
    match target.first() {
        Some(b'/') => RawTargetAuthority::None,
        _ => authority_behind_scheme(target),
    }
}

/// The same by a search for the end of a scheme.
#[inline(never)]
fn authority_behind_scheme(target: &[u8]) -> RawTargetAuthority<'_>
    ensures { seen_as result ≡ class_of target.now }
{
    let Some(end) = scheme_end(target) else {
        return RawTargetAuthority::None;
    };
    if target[end] == b':' {
        class_of_scheme(&target[..end], &target[end + 1..])
    } else {
        RawTargetAuthority::None
    }
}

fn ends_scheme(byte: u8) -> bool
    ensures { result ≡ ends_scheme byte }
{
    byte == b':' || ends_authority(byte) || byte == b'\\'
}

fn scheme_end(target: &[u8]) -> Option<usize>
    ensures { result ≡ position ends_scheme target.now }
{
    target.iter().position(|byte| ends_scheme(*byte))
}

fn class_of_scheme<'a>(scheme: &'a [u8], rest: &'a [u8]) -> RawTargetAuthority<'a>
    ensures { seen_as result ≡ class_of_scheme scheme.now rest.now }
{
    if is_http_family_scheme(scheme) {
        http_class(scheme, behind_slashes(rest))
    } else {
        other_class(scheme, behind_slashes(rest))
    }
}

fn http_class<'a>(scheme: &'a [u8], behind: Option<&'a [u8]>) -> RawTargetAuthority<'a>
    ensures { seen_as result ≡ http_class scheme.now (option_copied behind.entry) }
{
    let Some(behind) = behind else {
        return RawTargetAuthority::AmbiguousAuthority;
    };
    let authority = authority_part(behind);
    if authority.is_empty() || has_backslash(authority) {
        RawTargetAuthority::AmbiguousAuthority
    } else {
        RawTargetAuthority::Absolute { scheme, authority }
    }
}

fn other_class<'a>(scheme: &'a [u8], behind: Option<&'a [u8]>) -> RawTargetAuthority<'a>
    ensures { seen_as result ≡ other_class scheme.now (option_copied behind.entry) }
{
    let Some(behind) = behind else {
        return RawTargetAuthority::None;
    };
    let authority = authority_part(behind);
    if authority.is_empty() {
        RawTargetAuthority::None
    } else if !is_scheme(scheme) || has_backslash(authority) {
        RawTargetAuthority::AmbiguousAuthority
    } else {
        RawTargetAuthority::Absolute { scheme, authority }
    }
}

fn behind_slashes(rest: &[u8]) -> Option<&[u8]>
    ensures { option_copied result ≡ behind_slashes rest.now }
{
    match rest {
        [b'/', b'/', behind @ ..] => Some(behind),
        _ => None,
    }
}

fn has_backslash(bytes: &[u8]) -> bool
    ensures { result ≡ has_backslash bytes.now }
{
    bytes.contains(&b'\\')
}
