//! Heads made from the parts of other types (RFC 9112, section 3.2).
ghost use Rattle.std.specs.Prelude.{◌≡◌, IfOk, IsOkUnless, option_map, unwrap_or, []};
ghost use Rattle.http_uri.specs.Uri.{uri_authority};
ghost use Rattle.h1_error.specs.Memory.{no_memory};
ghost use Rattle.h1_head.specs.Parts.{lines_of, target_of};

use crate::boxed::box_bytes;
use h1_error::Error;
use h1_fields::Fields;
use http::{HeaderMap, HeaderValue, Uri};
use std::alloc::Global;

/// A line for each value.
pub(crate) fn lines_of(alloc: Global, headers: &HeaderMap<HeaderValue>) -> Result<Fields, Error>
    ensures ok { IfOk result (λ fields. fields ≡ lines_of headers.now) }
    ensures err { IsOkUnless result no_memory }
{
    let mut fields = Fields::new(alloc);
    for (name, value) in headers.iter() {
        fields.append(name.as_str().as_bytes(), value.as_bytes())?;
    }
    Ok(fields)
}

/// Path and query, or the authority of a URI without a path.
pub(crate) fn target_of(uri: &Uri) -> &[u8]
    ensures { result.now ≡ target_of uri.now }
{
    match uri.path_and_query() {
        Some(text) => text.as_str().as_bytes(),
        None => authority_or_nothing(uri),
    }
}

fn authority_or_nothing(uri: &Uri) -> &[u8]
    ensures { result.now ≡ unwrap_or (uri_authority uri.now) [] }
{
    match uri.authority() {
        Some(authority) => authority.as_str().as_bytes(),
        None => b"",
    }
}

/// A copy of the authority, where there is one.
pub(crate) fn authority_of(alloc: Global, uri: &Uri) -> Result<Option<Box<Vec<u8>>>, Error>
    ensures ok { IfOk result (λ copy. option_map (λ bytes. bytes.value.items) copy
        ≡ uri_authority uri.now) }
    ensures err { IsOkUnless result no_memory }
{
    match uri.authority() {
        Some(authority) => box_bytes(alloc, Some(authority.as_str().as_bytes())),
        None => Ok(None),
    }
}
