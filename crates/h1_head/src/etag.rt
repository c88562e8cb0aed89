//! Entity tags in lists, by weak comparison (RFC 9110, sections 8.8.3.2 and 13.1.2).
ghost use Rattle.std.specs.Prelude.{◌≡◌, ◌≤◌, length, not, IfSome, IsTrue};
ghost use Rattle.std.specs.List.{position};
ghost use Rattle.h1_head.specs.Etag.{begins_entry, begins_with, behind, has_target, is_at_end, is_comma, is_target};
ghost use Rattle.h1_head.specs.Etag.{is_white, matches_weakly, next_entry, without_weak};
ghost use Rattle.h1_head.specs.BytesFrom.{bytes_from};

/// Whether a list of entity tags, as If-None-Match has it, has one that is the target by weak
/// comparison, or is `*`. Tags need no quotes; one without them may have a comma in it. What isn't
/// white space up to a comma belongs to an entry, and empty entries are passed over.
pub fn weak_validate_etag(input: &[u8], target: &[u8]) -> bool
    ensures { result ≡ matches_weakly input.now target.now }
{
    if input == b"*".as_slice() {
        return true;
    }
    // A list has no more entries than bytes, and one.
    has_target(without_weak(input), without_weak(target), input.len() + 1)
}

/// Whether the target is among so many entries.
fn has_target(list: &[u8], target: &[u8], entries: usize) -> bool
    ensures { result ≡ has_target entries target.now list.now }
{
    let mut rest = list;
    for _ in 0..entries {
        if is_target(rest, target) {
            return true;
        }
        let next = next_entry(behind(rest, target));
        if next.is_empty() {
            return false;
        }
        rest = without_weak(next);
    }
    false
}

/// Whether the first entry is the target.
fn is_target(rest: &[u8], target: &[u8]) -> bool
    ensures { result ≡ is_target target.now rest.now }
{
    begins_with(rest, target) && is_at_end(behind(rest, target))
}

/// What stands behind the target and the white space there, where the target is in front.
fn behind<'a>(rest: &'a [u8], target: &[u8]) -> &'a [u8]
    ensures { result.now ≡ behind target.now rest.now }
{
    if begins_with(rest, target) {
        from(&rest[target.len()..], past_white(&rest[target.len()..]))
    } else {
        rest
    }
}

/// The next entry behind a comma, with its mark; nothing where there is none.
fn next_entry(rest: &[u8]) -> &[u8]
    ensures { result.now ≡ next_entry rest.now }
{
    let list = from(rest, comma_in(rest));
    from(list, entry_in(list))
}

/// Where the first comma stands.
fn comma_in(bytes: &[u8]) -> Option<usize>
    ensures { result ≡ position is_comma bytes.now }
{
    bytes.iter().position(|byte| *byte == b',')
}

/// Where the first byte that begins an entry stands.
fn entry_in(bytes: &[u8]) -> Option<usize>
    ensures { result ≡ position begins_entry bytes.now }
{
    bytes.iter().position(|byte| begins_entry(*byte))
}

/// A tag without the mark of weakness.
fn without_weak(tag: &[u8]) -> &[u8]
    ensures { result.now ≡ without_weak tag.now }
{
    if begins_with(tag, b"W/") {
        &tag[2..]
    } else {
        tag
    }
}

/// Whether these bytes stand in front.
fn begins_with(bytes: &[u8], front: &[u8]) -> bool
    ensures value { result ≡ begins_with bytes.now front.now }
    ensures within { IsTrue result → length front.now ≤ length bytes.now }
{
    bytes.starts_with(front)
}

/// Whether nothing is left of an entry.
fn is_at_end(rest: &[u8]) -> bool
    ensures { result ≡ is_at_end rest.now }
{
    match rest.first() {
        Some(byte) => *byte == b',',
        None => true,
    }
}

/// Where the white space in front ends.
fn past_white(bytes: &[u8]) -> Option<usize>
    ensures { result ≡ position (λ b. not (is_white b)) bytes.now }
{
    bytes.iter().position(|byte| !is_white(*byte))
}

/// The bytes from a place on, or none.
fn from(bytes: &[u8], at: Option<usize>) -> &[u8]
    requires { IfSome at (λ at. at ≤ length bytes.now) }
    ensures { result.now ≡ bytes_from bytes.now at }
{
    match at {
        Some(at) => &bytes[at..],
        None => &[],
    }
}

/// Whether a byte begins an entry.
fn begins_entry(byte: u8) -> bool
    ensures { result ≡ begins_entry byte }
{
    !(is_white(byte) || byte == b',')
}

/// Whether a byte is ASCII white space.
fn is_white(byte: u8) -> bool
    ensures { result ≡ is_white byte }
{
    matches!(byte, b' ' | b'\t' | b'\n' | 0x0C | b'\r')
}
