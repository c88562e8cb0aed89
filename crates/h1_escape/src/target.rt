//! Where the target of an illegal request line begins and ends (RFC 9112, section 3).
ghost use Rattle.std.specs.Prelude.{◌≡◌, ◌≤◌, ℕ, IfSome, length};
ghost use Rattle.h1_escape.specs.Target.{begins_with_digit, is_mark, is_word_byte, later_mark, target_len, target_start};

/// The place after a method of letters, digits and `_` and one space, where the head begins so.
pub fn target_start(head: &[u8]) -> Option<usize>
    ensures exact { result ≡ target_start head.now }
    ensures within { IfSome result (λ start. start ≤ length head.now) }
{
    let mut at = 0usize;
    while at < head.len() && is_word_byte(head[at]) {
        at += 1;
    }
    if 0 < at && at < head.len() && head[at] == b' ' {
        Some(at + 1)
    } else {
        None
    }
}

/// How many bytes of the line are the target: those before the last place where a space, `HTTP/`
/// and a digit stand. There is at least one.
pub fn target_len(line: &[u8]) -> Option<usize>
    ensures exact { result ≡ target_len line.now }
    ensures within { IfSome result (λ len. len ≤ length line.now) }
{
    if line.is_empty() || line[0] == b'\n' {
        return None;
    }
    let mut found = None;
    let mut at = 1usize;
    while at < line.len() && line[at] != b'\n' {
        found = later_mark(found, at, &line[at..]);
        at += 1;
    }
    found
}

/// The last place where a version stands: here, if one stands at the front of what is left.
fn later_mark(found: Option<usize>, at: usize, left: &[u8]) -> Option<usize>
    ensures exact { result ≡ later_mark found at left.now }
    ensures within { (most : ℕ) → IfSome found (λ len. len ≤ most) → at ≤ most
        → IfSome result (λ len. len ≤ most) }
{
    if is_mark(left) { Some(at) } else { found }
}

fn is_word_byte(byte: u8) -> bool
    ensures { result ≡ is_word_byte byte }
{
    byte.is_ascii_alphanumeric() || byte == b'_'
}

/// Whether the bytes begin with a space, `HTTP/` and a digit.
fn is_mark(bytes: &[u8]) -> bool
    ensures { result ≡ is_mark bytes.now }
{
    bytes.starts_with(b" HTTP/") && begins_with_digit(&bytes[6..])
}

fn begins_with_digit(bytes: &[u8]) -> bool
    ensures { result ≡ begins_with_digit bytes.now }
{
    !bytes.is_empty() && bytes[0].is_ascii_digit()
}
