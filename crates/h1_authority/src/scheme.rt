//! The scheme of a URI (RFC 3986, section 3.1; RFC 9110, section 4.2).
ghost use Rattle.std.specs.Prelude.{◌≡◌};
ghost use Rattle.std.specs.List.{list_all};
ghost use Rattle.h1_authority.specs.Scheme.{is_http_family_scheme, is_scheme_byte, is_scheme};

/// Whether the scheme is `http` or `https`, in any case.
pub fn is_http_family_scheme(scheme: &[u8]) -> bool
    ensures { result ≡ is_http_family_scheme scheme.now }
{
    scheme.eq_ignore_ascii_case(b"http") || scheme.eq_ignore_ascii_case(b"https")
}

fn is_scheme_byte(byte: u8) -> bool
    ensures { result ≡ is_scheme_byte byte }
{
    byte.is_ascii_alphanumeric() || byte == b'+' || byte == b'-' || byte == b'.'
}

fn has_scheme_bytes(bytes: &[u8]) -> bool
    ensures { result ≡ list_all is_scheme_byte bytes.now }
{
    bytes.iter().all(|byte| is_scheme_byte(*byte))
}

/// Whether the bytes are a scheme: a letter, and then letters, digits, `+`, `-` and `.`.
pub(crate) fn is_scheme(bytes: &[u8]) -> bool
    ensures { result ≡ is_scheme bytes.now }
{
    match bytes.split_first() {
        Some((first, behind)) => first.is_ascii_alphabetic() && has_scheme_bytes(behind),
        None => false,
    }
}
