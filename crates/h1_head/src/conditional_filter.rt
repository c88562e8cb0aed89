//! When what a client holds still stands (RFC 9110, section 13), and the reply that says so
//! (section 15.4.5).
ghost use Rattle.std.specs.Prelude.{◌≡◌, true};
ghost use Rattle.std.specs.List.{list_any};
ghost use Rattle.std.specs.Option.{option_copied};
ghost use Rattle.h1_head.specs.ValueDates.{IsSecondOf};
ghost use Rattle.h1_head.specs.Etag.{matches_weakly};
ghost use Rattle.h1_head.specs.NotModified.{DatesDecide, IsNotModified, as_304, is_get_or_head, is_not_before, matches_any};

use crate::etag::weak_validate_etag;
use crate::http_date::read_date;
use crate::{RequestHeader, ResponseHeader, ValuesIter};
use http::Method;

/// Whether a reply needn't be sent to this request, since what the client holds still stands: a reply
/// of status 200 whose ETag one of the If-None-Match lines has, by weak comparison, or, where there is
/// no such line and the method is GET or HEAD, one whose Last-Modified isn't after If-Modified-Since.
pub fn not_modified_filter(req: &RequestHeader, resp: &ResponseHeader) -> bool
    ensures { IsNotModified req.now resp.now result }
{
    if resp.status() != 200 {
        return false;
    }
    if req.fields().contains(b"If-None-Match") {
        return matches_any(req.get_all(b"If-None-Match"), resp.get(b"ETag"));
    }
    is_get_or_head(req.method()) && is_not_changed(req, resp)
}

/// Whether one of these lists has the tag, if there is one.
fn matches_any(lists: ValuesIter<'_>, tag: Option<&[u8]>) -> bool
    ensures { result ≡ matches_any lists.entry (option_copied tag.entry) }
{
    match tag {
        Some(tag) => has_tag(lists, tag),
        None => false,
    }
}

/// Whether one of these lists has the tag.
fn has_tag(lists: ValuesIter<'_>, tag: &[u8]) -> bool
    ensures { result ≡ list_any (λ list. matches_weakly list tag.now) lists.entry }
{
    for list in lists {
        if weak_validate_etag(list, tag) {
            return true;
        }
    }
    false
}

/// Whether both dates are there, and what the client holds isn't older.
fn is_not_changed(req: &RequestHeader, resp: &ResponseHeader) -> bool
    ensures { DatesDecide true req.now resp.now result }
{
    is_not_before(
        second_of(req.get(b"If-Modified-Since")),
        second_of(resp.get(b"Last-Modified")),
    )
}

/// Whether a request of this method asks for what GET gives.
fn is_get_or_head(method: &Method) -> bool
    ensures { result ≡ is_get_or_head method.now }
{
    method.as_str() == "GET" || method.as_str() == "HEAD"
}

/// Whether both seconds are there, and the first isn't before the other.
fn is_not_before(since: Option<u64>, last: Option<u64>) -> bool
    ensures { result ≡ is_not_before since last }
{
    match (since, last) {
        (Some(since), Some(last)) => last <= since,
        _ => false,
    }
}

/// The second that a value is, if it is there and a date.
fn second_of(value: Option<&[u8]>) -> Option<u64>
    ensures { IsSecondOf (option_copied value.entry) result }
{
    let Some(value) = value else {
        return None;
    };
    match read_date(value) {
        Some(date) => Some(date.unix_secs()),
        None => None,
    }
}

/// Makes the reply 304 of a reply, without the lines that tell of its body.
pub fn to_304(resp: &mut ResponseHeader)
    ensures { resp.new ≡ as_304 resp.old }
{
    resp.set_status(304).unwrap();
    resp.remove_header(b"Content-Length");
    resp.remove_header(b"Content-Type");
    resp.remove_header(b"Transfer-Encoding");
    resp.remove_header(b"Content-Encoding");
    resp.remove_header(b"Accept-Ranges");
}
