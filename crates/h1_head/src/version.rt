//! Versions on the wire (RFC 9112, section 2.3).
ghost use Rattle.std.specs.Prelude.{◌≡◌, ◌≤◌, option_map};
ghost use Rattle.h1_head.specs.Versions.{is_http_1, is_http_10, is_http_11, is_http_2, version_name, minor_version};

use http::Version;

/// Whether a reply may have this version: 0.9, 1.0 or 1.1.
#[inline(always)]
pub fn is_http_1(version: Version) -> bool
    ensures { result ≡ is_http_1 version }
{
    version == Version::HTTP_11 || version == Version::HTTP_10 || version == Version::HTTP_09
}

/// Whether this is HTTP/1.0.
#[inline(always)]
pub(crate) fn is_http_10(version: Version) -> bool
    ensures { result ≡ is_http_10 version }
{
    version == Version::HTTP_10
}

/// Whether this is HTTP/1.1.
#[inline(always)]
pub(crate) fn is_http_11(version: Version) -> bool
    ensures { result ≡ is_http_11 version }
{
    version == Version::HTTP_11
}

/// Whether this is HTTP/2.
#[inline(always)]
pub(crate) fn is_http_2(version: Version) -> bool
    ensures { result ≡ is_http_2 version }
{
    version == Version::HTTP_2
}

/// The name on a start line.
pub(crate) fn name_of(version: Version) -> Option<&'static str>
    ensures { option_map (λ name. name.now) result ≡ version_name version }
{
    if version == Version::HTTP_11 {
        Some("HTTP/1.1")
    } else if version == Version::HTTP_10 {
        Some("HTTP/1.0")
    } else if version == Version::HTTP_09 {
        Some("HTTP/0.9")
    } else if version == Version::HTTP_2 {
        Some("HTTP/2")
    } else {
        None
    }
}

/// HTTP/1.0 or HTTP/1.1, by the digit after the dot.
#[inline(always)]
pub(crate) fn with_minor(minor: u8) -> Version
    ensures { result ≡ minor_version minor }
{
    if minor == 0 {
        Version::HTTP_10
    } else {
        Version::HTTP_11
    }
}
