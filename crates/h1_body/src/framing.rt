//! How the end of a body is found (RFC 9112, section 6.3).
ghost use Rattle.std.specs.Prelude.{◌≡◌};
ghost use Rattle.h1_body.specs.Framing.{
  framing,
  out_to,
  response_framing,
  is_head,
  by_fields,
  by_length,
  has_no_body,
};
ghost use Rattle.h1_fields.specs.ContentLength.{content_length};

use h1_fields::{ContentLength, Fields};
use h1_head::{RequestHeader, ResponseHeader};
use http::Method;

/// How the end of a body is found (RFC 9112, section 6.3).
#[derive(Clone, Copy, Debug, PartialEq, Eq, Hash)]
pub enum Framing {
    /// The body has this many bytes.
    Counted(u64),
    /// The body is a row of chunks, of which the last has size 0 (RFC 9112, section 7.1).
    Chunked,
    /// The body ends where the link does.
    UntilClose,
}

/// How the body of a request ends: by chunks, by its length, or at once.
#[inline(always)]
pub fn framing_of(head: &RequestHeader) -> Framing
    ensures { result ≡ framing head.now }
{
    framing_with(head, head.fields().content_length())
}

/// The same where it is known what the Content-Length lines state.
#[inline(always)]
pub fn framing_with(head: &RequestHeader, length: ContentLength) -> Framing
    requires { length ≡ content_length head.now.fields }
    ensures { result ≡ framing head.now }
{
    if head.fields().is_chunked_last() {
        Framing::Chunked
    } else {
        framing_by_length(length, Framing::Counted(0))
    }
}

/// Whether a request of this method asks for the head of a reply alone (RFC 9110, section 9.3.2).
#[inline(always)]
pub fn is_head_only(method: &Method) -> bool
    ensures { result ≡ is_head method.now }
{
    method.as_str() == "HEAD"
}

/// How the body of a reply ends: at once where the head alone is asked for and for a status that
/// has none, by chunks, by its length, or where the link does.
#[inline(always)]
pub fn reply_framing(head_only: bool, head: &ResponseHeader) -> Framing
    ensures { result ≡ out_to head_only head.now }
{
    if has_no_reply_body(head_only, head.status()) {
        Framing::Counted(0)
    } else {
        framing_by(head.fields(), Framing::UntilClose)
    }
}

/// How the body of a response ends. `head_only` says whether its request was HEAD, and `upgrade`
/// whether it asked for another protocol.
#[inline(always)]
pub fn response_framing(head_only: bool, upgrade: bool, head: &ResponseHeader) -> Framing
    ensures { result ≡ response_framing head_only upgrade head.now }
{
    if upgrade && !head_only && head.status() == 101 {
        Framing::UntilClose
    } else {
        reply_framing(head_only, head)
    }
}

#[inline(always)]
fn has_no_reply_body(head_only: bool, status: u16) -> bool
    ensures { result ≡ has_no_body head_only status }
{
    head_only || status == 204 || status == 304
}

#[inline(always)]
fn framing_by(fields: &Fields, otherwise: Framing) -> Framing
    ensures { result ≡ by_fields otherwise fields.now }
{
    if fields.is_chunked_last() {
        Framing::Chunked
    } else {
        framing_by_length(fields.content_length(), otherwise)
    }
}

#[inline(always)]
fn framing_by_length(length: ContentLength, otherwise: Framing) -> Framing
    ensures { result ≡ by_length otherwise length }
{
    match length {
        ContentLength::Number(length) => Framing::Counted(length),
        ContentLength::Absent | ContentLength::Bad => otherwise,
    }
}
