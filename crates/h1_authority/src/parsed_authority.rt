//! The parts of an authority by its grammar (RFC 3986, section 3.2).
ghost use Rattle.std.specs.Prelude.{◌≡◌, ◌==◌, drop, position};
ghost use Rattle.std.specs.List.{list_all, list_any};
ghost use Rattle.std.specs.Option.{option_map};
ghost use Rattle.h1_authority.specs.ParsedAuthority.{parsed_as, is_authority_byte, behind_userinfo, with_digit, port_of_digits, port_of, is_bracket_or_percent, is_name, is_port_text, is_literal, with_port, bracketed_at, named, host_and_port, parse_authority};

use crate::bytes::{colons, has_bracket, is_bracket};

/// The parts of an authority, without its userinfo.
#[derive(Clone, Copy, Debug, PartialEq, Eq)]
pub struct ParsedAuthority<'a> {
    /// The host as it is written, an address in brackets with them.
    pub host: &'a [u8],
    /// The port, if one is written that is at most 65,535.
    pub port: Option<u16>,
}

/// The parts of an authority, or nothing where the bytes are none by the grammar.
pub fn parse_authority(bytes: &[u8]) -> Option<ParsedAuthority<'_>>
    ensures { option_map parsed_as result ≡ parse_authority bytes.now }
{
    if has_authority_bytes(bytes) {
        host_and_port(behind_userinfo(bytes))
    } else {
        None
    }
}

fn is_authority_byte(byte: u8) -> bool
    ensures { result ≡ is_authority_byte byte }
{
    byte.is_ascii_alphanumeric() || b"-._~!$&'()*+,;=:@[]%".contains(&byte)
}

fn has_authority_bytes(bytes: &[u8]) -> bool
    ensures { result ≡ list_all is_authority_byte bytes.now }
{
    bytes.iter().all(|byte| is_authority_byte(*byte))
}

fn behind_userinfo(bytes: &[u8]) -> &[u8]
    ensures { result.now ≡ behind_userinfo bytes.now }
{
    let mut rest = bytes;
    for (at, byte) in bytes.iter().enumerate() {
        if *byte == b'@' {
            rest = &bytes[at + 1..];
        }
    }
    rest
}

fn host_and_port(rest: &[u8]) -> Option<ParsedAuthority<'_>>
    ensures { option_map parsed_as result ≡ host_and_port rest.now }
{
    match rest.first() {
        None => None,
        Some(b'[') => bracketed(rest),
        Some(_) => named(rest),
    }
}

fn bracket_end(rest: &[u8]) -> Option<usize>
    ensures { result ≡ position (λ b. b == 93) rest.now }
{
    rest.iter().position(|byte| *byte == b']')
}

fn bracketed(rest: &[u8]) -> Option<ParsedAuthority<'_>>
    ensures { option_map parsed_as result
        ≡ bracketed_at rest.now (position (λ b. b == 93) rest.now) }
{
    let end = bracket_end(rest)?;
    if is_literal(behind_first(&rest[..end])) {
        with_port(&rest[..=end], &rest[end + 1..])
    } else {
        None
    }
}

fn behind_first(bytes: &[u8]) -> &[u8]
    ensures { result.now ≡ drop 1 bytes.now }
{
    match bytes.split_first() {
        Some((_, behind)) => behind,
        None => bytes,
    }
}

fn colon_at(rest: &[u8]) -> Option<usize>
    ensures { result ≡ position (λ b. b == 58) rest.now }
{
    rest.iter().position(|byte| *byte == b':')
}

fn named(rest: &[u8]) -> Option<ParsedAuthority<'_>>
    ensures { option_map parsed_as result ≡ named rest.now }
{
    let end = colon_at(rest).unwrap_or(rest.len());
    let host = &rest[..end];
    if is_name(host) {
        with_port(host, &rest[end..])
    } else {
        None
    }
}

fn with_port<'a>(host: &'a [u8], behind: &'a [u8]) -> Option<ParsedAuthority<'a>>
    ensures { option_map parsed_as result ≡ with_port host.now behind.now }
{
    match behind.split_first() {
        None => Some(ParsedAuthority { host, port: None }),
        Some((b':', text)) if is_port_text(text) => Some(ParsedAuthority {
            host,
            port: port_of(text),
        }),
        Some(_) => None,
    }
}

fn is_literal(bytes: &[u8]) -> bool
    ensures { result ≡ is_literal bytes.now }
{
    !has_bracket(bytes) && colons(bytes) <= 8
}

fn is_bracket_or_percent(byte: u8) -> bool
    ensures { result ≡ is_bracket_or_percent byte }
{
    is_bracket(byte) || byte == b'%'
}

fn has_bracket_or_percent(bytes: &[u8]) -> bool
    ensures { result ≡ list_any is_bracket_or_percent bytes.now }
{
    bytes.iter().any(|byte| is_bracket_or_percent(*byte))
}

fn is_name(bytes: &[u8]) -> bool
    ensures { result ≡ is_name bytes.now }
{
    !has_bracket_or_percent(bytes)
}

fn is_port_text(bytes: &[u8]) -> bool
    ensures { result ≡ is_port_text bytes.now }
{
    is_name(bytes) && !bytes.contains(&b':')
}

fn port_of(text: &[u8]) -> Option<u16>
    ensures { result ≡ port_of text.now }
{
    match text.split_first() {
        Some((b'+', digits)) => port_of_digits(digits),
        _ => port_of_digits(text),
    }
}

fn port_of_digits(digits: &[u8]) -> Option<u16>
    ensures { result ≡ port_of_digits digits.now }
{
    if digits.is_empty() {
        return None;
    }
    let mut port = 0u16;
    for byte in digits {
        port = with_digit(port, *byte)?;
    }
    Some(port)
}

fn with_digit(port: u16, byte: u8) -> Option<u16>
    ensures { result ≡ with_digit port byte }
{
    let digit = char::from(byte).to_digit(10)?;
    u16::try_from(u32::from(port) * 10 + digit).ok()
}
