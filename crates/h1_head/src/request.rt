//! The head of a request (RFC 9112, section 3).
ghost use Rattle.std.specs.Prelude.{◌≡◌, ◌++◌, ◌∷◌, [], length, map, All, IsTrue, IfOk, OnOk, OnErr, IsOkUnless, codes, option_map};
ghost use Rattle.httparse.specs.Grammar.{IsToken, is_token};
ghost use Rattle.httparse.specs.Spans.{IsHeaderWithin, header_bytes};
ghost use Rattle.h1_error.specs.Memory.{no_memory};
ghost use Rattle.h1_fields.specs.Lines.{has_line, first_value, values_of, with_line, without};
ghost use Rattle.h1_head.specs.Faults.{RefusedFor, method_fault, line_fault};
ghost use Rattle.h1_head.specs.Request.{new_request, request_read, end_stream_of, path_of, query_at, query_of};
ghost use Rattle.h1_head.specs.Parts.{request_of_parts};

use crate::boxed::copy_boxed;
use crate::parts::{authority_of, lines_of, target_of};
use crate::syntax::{check_line, refuse};
use crate::version::{is_http_2, with_minor};
use bytes::Bytes;
use h1_error::{Error, ErrorType, HeadFault};
use h1_fields::{Fields, ValuesIter};
use http::request::Parts;
use http::{Method, Version};
use httparse::is_token;
use httparse::spans::HeaderSpan;
use std::alloc::Global;
use std::marker::Model;

/// The head of a request: its method, target, version, the authority of its URI where it was made
/// from one, and its field lines. The flag `send_end_stream` is for HTTP/2 alone.
#[derive(Debug, Drop)]
pub struct RequestHeader {
    alloc: Global,
    method: Method,
    target: Bytes,
    version: Version,
    /// Most heads have none, so it stands in a block of its own.
    authority: Option<Box<Vec<u8>>>,
    fields: Fields,
    send_end_stream: bool,
}

impl Model for RequestHeader {
    ghost use Rattle.std.specs.Prelude.{option_map};
    ghost use Rattle.h1_head.specs.Views.{RequestView};

    ghost Value = { RequestView };

    ghost view = { λ r. record {
      method = r.method;
      target = r.target;
      version = r.version;
      authority = option_map (λ bytes. bytes.value.items) r.authority;
      fields = r.fields;
      send_end_stream = r.send_end_stream;
    } };
}

impl RequestHeader {
    /// A request of version 1.1 with no fields. `size_hint` is how many fields are to come. A method
    /// that is no token is refused (`BadMethod`); the target is looked at where the head is written.
    pub fn build(
        alloc: Global,
        method: &[u8],
        raw_path: &[u8],
        size_hint: Option<usize>,
    ) -> Result<Self, Error>
        ensures ok { IfOk result (λ head. head ≡ new_request method.now raw_path.now) }
        ensures refused { RefusedFor (method_fault method.now) result }
    {
        let method = method_of(alloc, method)?;
        Ok(RequestHeader {
            alloc,
            method,
            target: Bytes::copy_from_slice(alloc, raw_path)?,
            version: Version::HTTP_11,
            authority: None,
            fields: Fields::with_capacity(alloc, size_hint.unwrap_or(0))?,
            send_end_stream: true,
        })
    }

    /// A request from its parts: names in lower case, and as target path and query, or the
    /// authority of a URI without a path.
    pub fn from_parts(alloc: Global, parts: Parts) -> Result<Self, Error>
        ensures ok { IfOk result (λ head. head ≡ request_of_parts parts) }
        ensures err { IsOkUnless result no_memory }
    {
        let target = Bytes::copy_from_slice(alloc, target_of(&parts.uri))?;
        let authority = authority_of(alloc, &parts.uri)?;
        let fields = lines_of(alloc, &parts.headers)?;
        Ok(RequestHeader {
            alloc,
            method: parts.method,
            target,
            version: parts.version,
            authority,
            fields,
            send_end_stream: true,
        })
    }

    /// A GET of version 1.1 for no target, with no fields. Takes no memory.
    #[inline(always)]
    pub fn new(alloc: Global) -> Self
        ensures { result ≡ new_request (codes "GET") [] }
    {
        RequestHeader {
            alloc,
            method: Method::GET,
            target: Bytes::new(),
            version: Version::HTTP_11,
            authority: None,
            fields: Fields::new(alloc),
            send_end_stream: true,
        }
    }

    /// Puts a request that was read in the place of this one, of version 1.0 or 1.1 by its last
    /// digit. Its field lines lie at these places of the head.
    #[inline(always)]
    pub(crate) fn put_read(
        &mut self,
        method: &[u8],
        target: Bytes,
        minor: u8,
        head: &Bytes,
        lines: &[HeaderSpan],
    ) -> Result<(), Error>
        requires token { IsTrue (is_token method.now) }
        requires within { All (IsHeaderWithin (length head.now)) lines.now }
        ensures ok { OnOk result (self.new ≡ request_read method.now target minor
            (map (header_bytes head.now) lines.now)) }
        ensures err { IsOkUnless result no_memory }
    {
        self.method = method_named(self.alloc, method)?;
        self.target = target;
        self.version = with_minor(minor);
        self.authority = None;
        self.fields.read(head, lines)?;
        self.send_end_stream = true;
        Ok(())
    }

    #[inline(always)]
    pub(crate) fn allocator(&self) -> Global {
        self.alloc
    }

    /// The method, in the case that it came in (RFC 9110, section 9.1). `as_str` gives its name.
    #[inline(always)]
    pub fn method(&self) -> &Method
        ensures { result.now ≡ self.now.method }
    {
        &self.method
    }

    /// The target as it stands on the request line.
    #[inline(always)]
    pub fn raw_path(&self) -> &[u8]
        ensures { result.now ≡ self.now.target }
    {
        self.target.as_slice()
    }

    /// What stands in front of the first `?` of the target: its path, where the target has the
    /// origin form (RFC 9112, section 3.2.1). Nothing in it is decoded.
    pub fn path(&self) -> &[u8]
        ensures { result.now ≡ path_of self.now.target }
    {
        let target = self.target.as_slice();
        let end = query_at(target).unwrap_or(target.len());
        &target[..end]
    }

    /// What stands behind that `?`, where the target has one.
    pub fn query(&self) -> Option<&[u8]>
        ensures { option_map (λ query. query.now) result ≡ query_of self.now.target }
    {
        let target = self.target.as_slice();
        let at = query_at(target)?;
        Some(&target[at + 1..])
    }

    /// The version of the request line: 1.1 or 1.0 where the head was read.
    #[inline(always)]
    pub fn version(&self) -> Version
        ensures { result ≡ self.now.version }
    {
        self.version
    }

    /// The authority of the URI that the request was made from.
    #[inline(always)]
    pub fn authority(&self) -> Option<&[u8]>
        ensures { option_map (λ bytes. bytes.now) result ≡ self.now.authority }
    {
        match &self.authority {
            Some(bytes) => Some(bytes.as_slice()),
            None => None,
        }
    }

    #[inline(always)]
    pub fn fields(&self) -> &Fields
        ensures { result.now ≡ self.now.fields }
    {
        &self.fields
    }

    #[inline(always)]
    pub fn set_version(&mut self, version: Version)
        ensures { self.new ≡ record self.old { version = version } }
    {
        self.version = version;
    }

    #[inline(always)]
    pub fn set_send_end_stream(&mut self, on: bool)
        ensures { self.new ≡ record self.old { send_end_stream = on } }
    {
        self.send_end_stream = on;
    }

    /// The flag, where the version is HTTP/2.
    #[inline(always)]
    pub fn send_end_stream(&self) -> Option<bool>
        ensures { result ≡ end_stream_of self.now }
    {
        if is_http_2(self.version) {
            Some(self.send_end_stream)
        } else {
            None
        }
    }

    /// Adds a line at the end. A name that is no token is refused, and so is a value with a byte that
    /// no field value has (RFC 9110, section 5.5). One of Content-Length or Transfer-Encoding is not
    /// compared with the body.
    pub fn append_header(&mut self, name: &[u8], value: &[u8]) -> Result<(), Error>
        ensures ok { OnOk result (self.new
            ≡ record self.old { fields = self.old.fields ++ (name.now, value.now) ∷ [] }) }
        ensures refused { RefusedFor (line_fault name.now value.now) result }
        ensures same { OnErr result (self.new ≡ self.old) }
    {
        check_line(name, value)?;
        self.fields.append(name, value)
    }

    /// Puts the line in the place of the first of that name, and removes later ones of that name;
    /// at the end where there is none.
    pub fn insert_header(&mut self, name: &[u8], value: &[u8]) -> Result<(), Error>
        ensures ok { OnOk result (self.new
            ≡ record self.old { fields = with_line name.now value.now self.old.fields }) }
        ensures refused { RefusedFor (line_fault name.now value.now) result }
        ensures same { OnErr result (self.new ≡ self.old) }
    {
        check_line(name, value)?;
        self.fields.insert(name, value)
    }

    /// Removes all lines of that name. True exactly where there was one.
    #[inline(always)]
    pub fn remove_header(&mut self, name: &[u8]) -> bool
        ensures fields { self.new ≡ record self.old { fields = without name.now self.old.fields } }
        ensures found { result ≡ has_line name.now self.old.fields }
    {
        self.fields.remove(name)
    }

    /// The value of the first line of that name.
    #[inline(always)]
    pub fn get(&self, name: &[u8]) -> Option<&[u8]>
        ensures { option_map (λ value. value.now) result ≡ first_value name.now self.now.fields }
    {
        self.fields.get(name)
    }

    /// The values of all lines of that name, in order.
    #[inline(always)]
    pub fn get_all<'a>(&'a self, name: &'a [u8]) -> ValuesIter<'a>
        ensures { result ≡ values_of name.now self.now.fields }
    {
        self.fields.get_all(name)
    }

    /// Puts the same head in this place. With an error what stands there has no meaning.
    #[inline(always)]
    pub fn copy_to(&self, place: &mut RequestHeader) -> Result<(), Error>
        ensures ok { OnOk result (place.new ≡ self.now) }
        ensures err { IsOkUnless result no_memory }
    {
        place.method = self.method.clone()?;
        place.target = self.target.clone()?;
        place.version = self.version;
        place.authority = copy_boxed(self.alloc, &self.authority)?;
        self.fields.copy_to(&mut place.fields)?;
        place.send_end_stream = self.send_end_stream;
        Ok(())
    }

    /// The same head again.
    #[inline(always)]
    pub fn copy(&self) -> Result<Self, Error>
        ensures ok { IfOk result (λ copy. copy ≡ self.now) }
        ensures err { IsOkUnless result no_memory }
    {
        let alloc = self.alloc;
        Ok(RequestHeader {
            alloc,
            method: self.method.clone()?,
            target: self.target.clone()?,
            version: self.version,
            authority: copy_boxed(alloc, &self.authority)?,
            fields: self.fields.copy()?,
            send_end_stream: self.send_end_stream,
        })
    }
}

/// Where the query of a target begins.
fn query_at(target: &[u8]) -> Option<usize>
    ensures { result ≡ query_at target.now }
{
    target.iter().position(|byte| *byte == b'?')
}

/// The method that these bytes name.
fn method_of(alloc: Global, method: &[u8]) -> Result<Method, Error>
    ensures ok { IfOk result (λ made. made ≡ method.now) }
    ensures refused { RefusedFor (method_fault method.now) result }
{
    if is_token(method) {
        method_named(alloc, method)
    } else {
        Err(refuse(HeadFault::BadMethod))
    }
}

/// The method that a token names. Out of memory is the one error.
#[inline(always)]
fn method_named(alloc: Global, token: &[u8]) -> Result<Method, Error>
    requires { IsTrue (is_token token.now) }
    ensures ok { IfOk result (λ made. made ≡ token.now) }
    ensures err { IsOkUnless result no_memory }
{
    match Method::from_bytes(alloc, token) {
        Ok(made) => Ok(made),
        Err(_) => Err(Error::from(ErrorType::NoMemory)),
    }
}
