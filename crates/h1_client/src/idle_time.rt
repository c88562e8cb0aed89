//! How long the lines of Keep-Alive let a connection stand idle (RFC 2068, section 19.7.1.1).
ghost use Rattle.std.specs.Prelude.{◌≡◌};
ghost use Rattle.std.specs.List.{position};
ghost use Rattle.h1_client.specs.Keeping.{is_equals, seconds, stated_timeout, with_part};

use h1_fields::{Fields, number_of, trim_ows};

/// How many seconds the lines of Keep-Alive let the connection stand idle, where they say it. The
/// last that says it counts.
pub(crate) fn stated_timeout(fields: &Fields) -> Option<u64>
    ensures { result ≡ stated_timeout fields.now }
{
    let mut known = None;
    for part in fields.list_parts(b"Keep-Alive") {
        known = with_part(known, part);
    }
    known
}

fn equals_at(part: &[u8]) -> Option<usize>
    ensures { result ≡ position is_equals part.now }
{
    part.iter().position(|byte| *byte == b'=')
}

/// What is known of the timeout with one part more, whose key stands before the first `=`.
fn with_part(found: Option<u64>, part: &[u8]) -> Option<u64>
    ensures { result ≡ with_part found part.now }
{
    match equals_at(part) {
        None => found,
        Some(at) => {
            if trim_ows(&part[..at]) == b"timeout".as_slice() {
                return seconds(trim_ows(&part[at + 1..]));
            }
            found
        }
    }
}

/// The number that one or more digits write, perhaps behind one `+`.
fn seconds(bytes: &[u8]) -> Option<u64>
    ensures { result ≡ seconds bytes.now }
{
    match bytes.split_first() {
        None => None,
        Some((first, more)) => {
            if *first == b'+' {
                return number_of(more);
            }
            number_of(bytes)
        }
    }
}
