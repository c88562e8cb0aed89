//! Searches for the delimiters of a URI (RFC 3986, section 2.2).
ghost use Rattle.std.specs.Prelude.{◌≡◌, ◌==◌, count_by, position};
ghost use Rattle.std.specs.List.{list_any};
ghost use Rattle.h1_authority.specs.Bytes.{ends_authority, authority_part, is_bracket, has_userinfo};

/// Whether the byte is `/`, `?` or `#`.
pub(crate) fn ends_authority(byte: u8) -> bool
    ensures { result ≡ ends_authority byte }
{
    byte == b'/' || byte == b'?' || byte == b'#'
}

/// Whether the byte is `[` or `]`.
pub(crate) fn is_bracket(byte: u8) -> bool
    ensures { result ≡ is_bracket byte }
{
    byte == b'[' || byte == b']'
}

/// Where the first `/`, `?` or `#` stands.
fn authority_end(bytes: &[u8]) -> Option<usize>
    ensures { result ≡ position ends_authority bytes.now }
{
    bytes.iter().position(|byte| ends_authority(*byte))
}

/// What stands before the first `/`, `?` or `#`.
pub(crate) fn authority_part(bytes: &[u8]) -> &[u8]
    ensures { result.now ≡ authority_part bytes.now }
{
    match authority_end(bytes) {
        Some(end) => &bytes[..end],
        None => bytes,
    }
}

pub(crate) fn has_bracket(bytes: &[u8]) -> bool
    ensures { result ≡ list_any is_bracket bytes.now }
{
    bytes.iter().any(|byte| is_bracket(*byte))
}

pub(crate) fn colons(bytes: &[u8]) -> usize
    ensures { result ≡ count_by (λ b. b == 58) bytes.now }
{
    bytes.iter().filter(|byte| **byte == b':').count()
}

pub(crate) fn has_userinfo(bytes: &[u8]) -> bool
    ensures { result ≡ has_userinfo bytes.now }
{
    bytes.contains(&b'@')
}
