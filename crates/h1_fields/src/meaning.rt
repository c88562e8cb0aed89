//! What the lines of Content-Length (RFC 9110, section 8.6), Transfer-Encoding (RFC 9112, section
//! 6.1) and Connection (RFC 9110, section 7.6.1) say.
ghost use Rattle.std.specs.Prelude.{◌≡◌};
ghost use Rattle.std.specs.List.{list_any};
ghost use Rattle.h1_fields.specs.Kinds.{name_of};
ghost use Rattle.h1_fields.specs.Names.{same_name};
ghost use Rattle.h1_fields.specs.ListParts.{parts_of, lists_named};
ghost use Rattle.h1_fields.specs.ContentLength.{content_length};
ghost use Rattle.h1_fields.specs.Codings.{has_coding_line, is_chunked_last, lists_close, lists_keep_alive};

use crate::content_length::number_of;
use crate::kinds::Kind;
use crate::lists::PartsIter;
use crate::lone::Lone;
use crate::name::is_same_name;
use crate::{ContentLength, Fields};

impl Fields {
    /// The length that the Content-Length lines state together. Takes no memory.
    #[inline(always)]
    pub fn content_length(&self) -> ContentLength
        ensures { result ≡ content_length self.now }
    {
        match self.lone(Kind::ContentLength) {
            Lone::Nothing => ContentLength::Absent,
            Lone::One(value) => match number_of(value) {
                // Digits alone are one part.
                Some(n) => ContentLength::Number(n),
                None => self.stated_length(),
            },
            Lone::Unknown => self.stated_length(),
        }
    }

    // Kept apart, as are `states_chunked_last` and `lists_among`, so that the answer for a name
    // that isn't there can be inlined.
    fn stated_length(&self) -> ContentLength
        ensures { result ≡ content_length self.now }
    {
        let mut found = ContentLength::Absent;
        for part in self.parts(Kind::ContentLength) {
            found = found.with_part(part);
        }
        found
    }

    /// Whether there is a Transfer-Encoding line, perhaps an empty one.
    #[inline(always)]
    pub fn has_transfer_encoding(&self) -> bool
        ensures { result ≡ has_coding_line self.now }
    {
        match self.lone(Kind::TransferEncoding) {
            Lone::Nothing => false,
            Lone::One(_) => true,
            Lone::Unknown => self.contains(b"Transfer-Encoding"),
        }
    }

    /// Whether the last transfer coding is `chunked`.
    #[inline(always)]
    pub fn is_chunked_last(&self) -> bool
        ensures { result ≡ is_chunked_last self.now }
    {
        match self.lone(Kind::TransferEncoding) {
            Lone::Nothing => false,
            Lone::One(value) => value == b"chunked".as_slice() || self.states_chunked_last(),
            Lone::Unknown => self.states_chunked_last(),
        }
    }

    fn states_chunked_last(&self) -> bool
        ensures { result ≡ is_chunked_last self.now }
    {
        let mut found = false;
        for part in self.parts(Kind::TransferEncoding) {
            if !part.is_empty() {
                found = is_same_name(b"chunked", part);
            }
        }
        found
    }

    /// Whether Connection lists `close`.
    #[inline(always)]
    pub fn lists_close(&self) -> bool
        ensures { result ≡ lists_close self.now }
    {
        match self.lone(Kind::Connection) {
            Lone::Nothing => false,
            // Most messages that have the line say one of these.
            Lone::One(value) => {
                if value == b"keep-alive".as_slice() {
                    return false;
                }
                value == b"close".as_slice() || self.lists_among(Kind::Connection, b"close")
            }
            Lone::Unknown => self.lists_among(Kind::Connection, b"close"),
        }
    }

    /// Whether Connection lists `keep-alive`.
    #[inline(always)]
    pub fn lists_keep_alive(&self) -> bool
        ensures { result ≡ lists_keep_alive self.now }
    {
        self.lists(Kind::Connection, b"keep-alive")
    }

    /// The parts of the lists in all lines of that name (RFC 9110, section 5.6.1).
    pub fn list_parts<'a>(&'a self, name: &'a [u8]) -> PartsIter<'a>
        ensures { result ≡ parts_of name.now self.now }
    {
        PartsIter::new(self.get_all(name))
    }

    /// Whether the lines of that name list the token, in any case.
    pub fn lists_named(&self, name: &[u8], token: &[u8]) -> bool
        ensures { result ≡ lists_named name.now token.now self.now }
    {
        lists(self.list_parts(name), token)
    }

    /// The same of a kind.
    #[inline(always)]
    fn lists(&self, kind: Kind, token: &[u8]) -> bool
        ensures { result ≡ lists_named (name_of kind) token.now self.now }
    {
        match self.lone(kind) {
            Lone::Nothing => false,
            _ => self.lists_among(kind, token),
        }
    }

    fn lists_among(&self, kind: Kind, token: &[u8]) -> bool
        ensures { result ≡ lists_named (name_of kind) token.now self.now }
    {
        lists(self.parts(kind), token)
    }

    /// The parts of the lines of that kind.
    #[inline(always)]
    fn parts(&self, kind: Kind) -> PartsIter<'_>
        ensures { result ≡ parts_of (name_of kind) self.now }
    {
        PartsIter::new(self.values(kind))
    }
}

/// Whether the token is among these parts, in any case.
#[inline(always)]
fn lists(parts: PartsIter<'_>, token: &[u8]) -> bool
    ensures { result ≡ list_any (same_name token.now) parts.entry }
{
    for part in parts {
        if is_same_name(token, part) {
            return true;
        }
    }
    false
}
