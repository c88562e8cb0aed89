//! The head of a response (RFC 9112, section 4).
ghost use Rattle.std.specs.Prelude.{◌≡◌, ◌++◌, ◌∷◌, [], length, map, All, MatchOption, IfOk, OnOk, OnErr, IsOkUnless, option_map, is_some, decimal, codes};
ghost use Rattle.http.specs.StatusCode.{IsStatusCode, code_digits, reason_phrase};
ghost use Rattle.httparse.specs.Spans.{IsHeaderWithin, header_bytes};
ghost use Rattle.h1_error.specs.Memory.{no_memory};
ghost use Rattle.h1_fields.specs.Lines.{has_line, first_value, values_of, with_line, without, print_lines};
ghost use Rattle.h1_head.specs.Faults.{RefusedFor, refusal, status_fault, line_fault, phrase_fault};
ghost use Rattle.h1_head.specs.Response.{new_response, reason_of};
ghost use Rattle.h1_head.specs.Parts.{response_of_parts};
ghost use Rattle.h1_head.specs.ResponseGrammar.{own_phrase, response_read};

use crate::HeadBuffer;
use crate::boxed::{box_bytes, copy_boxed};
use crate::parts::lines_of;
use crate::syntax::{check_line, check_phrase, refuse};
use crate::version::with_minor;
use crate::wire::push_lines;
use bytes::{Bytes, BytesMut};
use h1_error::{Error, HeadFault};
use h1_fields::{Fields, ValuesIter};
use http::response::Parts;
use http::{StatusCode, Version};
use httparse::spans::HeaderSpan;
use itoa::Buffer;
use std::alloc::Global;
use std::marker::Model;

/// The head of a response: its status, version, the phrase that was set, and its field lines.
#[derive(Debug, Drop)]
pub struct ResponseHeader {
    alloc: Global,
    status: StatusCode,
    version: Version,
    /// Most heads have none, so it stands in a block of its own.
    reason: Option<Box<Vec<u8>>>,
    fields: Fields,
}

impl Model for ResponseHeader {
    ghost use Rattle.std.specs.Prelude.{option_map};
    ghost use Rattle.h1_head.specs.Views.{ResponseView};

    ghost Value = { ResponseView };

    ghost view = { λ r. record {
      status = r.status;
      version = r.version;
      reason = option_map (λ phrase. phrase.value.items) r.reason;
      fields = r.fields;
    } };
}

impl ResponseHeader {
    /// A response of version 1.1 with no fields, and with no phrase set. `size_hint` is how many
    /// fields are to come. A status that isn't 100 to 999 is refused (`BadStatus`).
    #[inline(always)]
    pub fn build(alloc: Global, status: u16, size_hint: Option<usize>) -> Result<Self, Error>
        ensures ok { IfOk result (λ head. head ≡ new_response status) }
        ensures refused { RefusedFor (status_fault status) result }
    {
        let status = status_of(status)?;
        Ok(ResponseHeader {
            alloc,
            status,
            version: Version::HTTP_11,
            reason: None,
            fields: Fields::with_capacity(alloc, size_hint.unwrap_or(0))?,
        })
    }

    /// A place for a response: status 200 of version 1.1, with no fields. Takes no memory.
    #[inline(always)]
    pub(crate) fn new(alloc: Global) -> Self
        ensures { result ≡ new_response 200 }
    {
        ResponseHeader {
            alloc,
            status: StatusCode::OK,
            version: Version::HTTP_11,
            reason: None,
            fields: Fields::new(alloc),
        }
    }

    /// Puts a response that was read in the place of this one, of version 1.0 or 1.1 by its last
    /// digit. Its field lines lie at these places of the head.
    #[inline(always)]
    pub(crate) fn put_read(
        &mut self,
        status: u16,
        minor: u8,
        phrase: &[u8],
        head: &Bytes,
        lines: &[HeaderSpan],
    ) -> Result<(), Error>
        requires sound { status_fault status ≡ None }
        requires within { All (IsHeaderWithin (length head.now)) lines.now }
        ensures ok { OnOk result (self.new ≡ response_read status minor phrase.now
            (map (header_bytes head.now) lines.now)) }
        ensures err { IsOkUnless result no_memory }
    {
        self.status = status_of(status)?;
        self.version = with_minor(minor);
        self.reason = own_phrase(self.alloc, self.status, phrase)?;
        self.fields.read(head, lines)?;
        Ok(())
    }

    /// A response from its parts: names in lower case, and with no phrase set.
    pub fn from_parts(alloc: Global, parts: Parts) -> Result<Self, Error>
        ensures ok { IfOk result (λ head. head ≡ response_of_parts parts) }
        ensures err { IsOkUnless result no_memory }
    {
        let fields = lines_of(alloc, &parts.headers)?;
        Ok(ResponseHeader {
            alloc,
            status: parts.status,
            version: parts.version,
            reason: None,
            fields,
        })
    }

    pub fn set_status(&mut self, status: u16) -> Result<(), Error>
        ensures ok { OnOk result (self.new ≡ record self.old { status = status }) }
        ensures refused { MatchOption (status_fault status) (result ≡ Ok tt)
            (λ fault. result ≡ Err (refusal fault)) }
        ensures same { OnErr result (self.new ≡ self.old) }
    {
        self.status = status_of(status)?;
        Ok(())
    }

    #[inline(always)]
    pub(crate) fn allocator(&self) -> Global {
        self.alloc
    }

    /// The three digits of the status code.
    #[inline(always)]
    pub(crate) fn status_digits(&self) -> &'static str
        ensures { result.now ≡ code_digits self.now.status }
    {
        self.status.as_str()
    }

    #[inline(always)]
    pub fn status(&self) -> u16
        ensures value { result ≡ self.now.status }
        ensures valid { IsStatusCode result }
    {
        self.status.as_u16()
    }

    #[inline(always)]
    pub fn version(&self) -> Version
        ensures { result ≡ self.now.version }
    {
        self.version
    }

    #[inline(always)]
    pub fn set_version(&mut self, version: Version)
        ensures { self.new ≡ record self.old { version = version } }
    {
        self.version = version;
    }

    #[inline(always)]
    pub fn fields(&self) -> &Fields
        ensures { result.now ≡ self.now.fields }
    {
        &self.fields
    }

    /// Sets the phrase of the status line. None is the phrase of the status code, if it has one.
    pub fn set_reason_phrase(&mut self, phrase: Option<&[u8]>) -> Result<(), Error>
        ensures ok { OnOk result (self.new
            ≡ record self.old { reason = option_map (λ phrase. phrase.now) phrase.entry }) }
        ensures refused { let set = option_map (λ phrase. phrase.now) phrase.entry in
            RefusedFor (phrase_fault set) result }
        ensures same { OnErr result (self.new ≡ self.old) }
    {
        check_phrase(phrase)?;
        self.reason = box_bytes(self.alloc, phrase)?;
        Ok(())
    }

    /// Whether a phrase was set.
    #[inline(always)]
    pub(crate) fn has_own_phrase(&self) -> bool
        ensures { result ≡ is_some self.now.reason }
    {
        self.reason.is_some()
    }

    /// The phrase that was set, else that of the status code, if it has one.
    #[inline(always)]
    pub fn get_reason_phrase(&self) -> Option<&[u8]>
        ensures { option_map (λ phrase. phrase.now) result ≡ reason_of self.now }
    {
        match &self.reason {
            Some(phrase) => Some(phrase.as_slice()),
            None => canonical_phrase(self.status),
        }
    }

    /// Adds a line at the end. A name that is no token is refused, and so is a value with a byte that
    /// no field value has (RFC 9110, section 5.5). One of Content-Length or Transfer-Encoding is not
    /// compared with the body.
    pub fn append_header(&mut self, name: &[u8], value: &[u8]) -> Result<(), Error>
        ensures ok { OnOk result (self.new
            ≡ record self.old { fields = self.old.fields ++ (name.now, value.now) ∷ [] }) }
        ensures refused { RefusedFor (line_fault name.now value.now) result }
        ensures same { OnErr result (self.new ≡ self.old) }
    {
        check_line(name, value)?;
        self.fields.append(name, value)
    }

    /// Puts the line in the place of the first of that name, and removes later ones of that name;
    /// at the end where there is none.
    pub fn insert_header(&mut self, name: &[u8], value: &[u8]) -> Result<(), Error>
        ensures ok { OnOk result (self.new
            ≡ record self.old { fields = with_line name.now value.now self.old.fields }) }
        ensures refused { RefusedFor (line_fault name.now value.now) result }
        ensures same { OnErr result (self.new ≡ self.old) }
    {
        check_line(name, value)?;
        self.fields.insert(name, value)
    }

    /// Adds Content-Length with this number at the end, with its name in lower case.
    #[inline(always)]
    pub fn append_content_length(&mut self, n: u64) -> Result<(), Error>
        ensures ok { let lines = self.old.fields ++ (codes "content-length", decimal n) ∷ [] in
            OnOk result (self.new ≡ record self.old { fields = lines }) }
        ensures err { IsOkUnless result no_memory }
        ensures same { OnErr result (self.new ≡ self.old) }
    {
        append_length(&mut self.fields, n)
    }

    /// Inserts Content-Length with this number.
    pub fn set_content_length(&mut self, n: u64) -> Result<(), Error>
        ensures ok { let lines = with_line (codes "Content-Length") (decimal n) self.old.fields in
            OnOk result (self.new ≡ record self.old { fields = lines }) }
        ensures err { IsOkUnless result no_memory }
        ensures same { OnErr result (self.new ≡ self.old) }
    {
        let text = n.to_string(self.alloc)?;
        self.fields.insert(b"Content-Length", text.as_bytes())
    }

    /// Removes all lines of that name. True exactly where there was one.
    #[inline(always)]
    pub fn remove_header(&mut self, name: &[u8]) -> bool
        ensures fields { self.new ≡ record self.old { fields = without name.now self.old.fields } }
        ensures found { result ≡ has_line name.now self.old.fields }
    {
        self.fields.remove(name)
    }

    /// The value of the first line of that name.
    #[inline(always)]
    pub fn get(&self, name: &[u8]) -> Option<&[u8]>
        ensures { option_map (λ value. value.now) result ≡ first_value name.now self.now.fields }
    {
        self.fields.get(name)
    }

    /// The values of all lines of that name, in order.
    #[inline(always)]
    pub fn get_all<'a>(&'a self, name: &'a [u8]) -> ValuesIter<'a>
        ensures { result ≡ values_of name.now self.now.fields }
    {
        self.fields.get_all(name)
    }

    /// Appends `Name: value` and CRLF for each line.
    pub fn header_to_h1_wire(&self, out: &mut BytesMut) -> Result<(), Error>
        ensures ok { OnOk result (out.new.items ≡ out.old.items ++ print_lines self.now.fields) }
        ensures err { IsOkUnless result no_memory }
        ensures same { OnErr result (out.new.items ≡ out.old.items) }
    {
        let mut lines = HeadBuffer::new(self.alloc);
        push_lines(&mut lines, &self.fields)?;
        out.extend_from_slice(lines.as_slice())?;
        Ok(())
    }

    /// The same head again.
    #[inline(always)]
    pub fn copy(&self) -> Result<Self, Error>
        ensures ok { IfOk result (λ copy. copy ≡ self.now) }
        ensures err { IsOkUnless result no_memory }
    {
        let alloc = self.alloc;
        Ok(ResponseHeader {
            alloc,
            status: self.status,
            version: self.version,
            reason: copy_boxed(alloc, &self.reason)?,
            fields: self.fields.copy()?,
        })
    }
}

/// The status code of that number.
#[inline(always)]
fn status_of(status: u16) -> Result<StatusCode, Error>
    ensures { MatchOption (status_fault status) (result ≡ Ok status)
        (λ fault. result ≡ Err (refusal fault)) }
{
    match StatusCode::from_u16(status) {
        Ok(code) => Ok(code),
        Err(_) => Err(refuse(HeadFault::BadStatus)),
    }
}

/// The phrase of a status code (RFC 9110, section 15).
#[inline(always)]
fn canonical_phrase(status: StatusCode) -> Option<&'static [u8]>
    ensures { option_map (λ phrase. phrase.now) result ≡ reason_phrase status }
{
    match status.canonical_reason() {
        Some(phrase) => Some(phrase.as_bytes()),
        None => None,
    }
}

/// The phrase in a block of its own, where it isn't the one of the status code.
#[inline(always)]
fn own_phrase(
    alloc: Global,
    status: StatusCode,
    phrase: &[u8],
) -> Result<Option<Box<Vec<u8>>>, Error>
    ensures ok { IfOk result (λ own. option_map (λ phrase. phrase.value.items) own
        ≡ own_phrase status phrase.now) }
    ensures err { IsOkUnless result no_memory }
{
    match canonical_phrase(status) {
        Some(named) if named == phrase => Ok(None),
        _ => box_bytes(alloc, Some(phrase)),
    }
}

/// Adds Content-Length with this number at the end, with its name in lower case.
#[inline(always)]
fn append_length(fields: &mut Fields, n: u64) -> Result<(), Error>
    ensures ok { OnOk result (fields.new
        ≡ fields.old ++ (codes "content-length", decimal n) ∷ []) }
    ensures err { IsOkUnless result no_memory }
    ensures same { OnErr result (fields.new ≡ fields.old) }
{
    let mut digits = Buffer::new();
    fields.append(b"content-length", digits.format(n).as_bytes())
}
