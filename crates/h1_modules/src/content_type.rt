//! Content types of gRPC and of gRPC-web (gRPC's PROTOCOL-WEB.md).
ghost use Rattle.std.specs.Prelude.{◌≡◌, map, IfOk, IsOkUnless, IsTrue, nat_eq};
ghost use Rattle.std.specs.Char.{to_ascii_lowercase};
ghost use Rattle.h1_error.specs.Memory.{no_memory};
ghost use Rattle.h1_modules.specs.ContentType.{is_visible, is_visible_text, begins_in_any_case, is_grpc_web, is_grpc, as_grpc, as_grpc_web};

use bstr::ByteSlice;
use h1_error::Error;
use h1_fields::is_same_name;
use std::alloc::Global;

/// How a content type of gRPC begins.
const GRPC: &[u8; 16] = b"application/grpc";

/// How a content type of gRPC-web begins.
const GRPC_WEB: &[u8; 20] = b"application/grpc-web";

/// Whether a request's content type is of gRPC-web.
pub(crate) fn is_grpc_web(value: &[u8]) -> bool
    ensures { result ≡ is_grpc_web value.now }
{
    is_visible_text(value) && begins_in_any_case(GRPC_WEB, value)
}

/// Whether a response's content type is of gRPC. Servers of gRPC write it in lower case.
pub(crate) fn is_grpc(value: &[u8]) -> bool
    ensures { result ≡ is_grpc value.now }
{
    is_visible_text(value) && value.starts_with(GRPC)
}

/// A request's content type as one of gRPC, in lower case.
pub(crate) fn as_grpc(alloc: Global, value: &[u8]) -> Result<Vec<u8>, Error>
    ensures ok { IfOk result (λ made. made.items ≡ as_grpc value.now) }
    ensures err { IsOkUnless result no_memory }
{
    let value = value.to_ascii_lowercase(alloc)?;
    let made = value.as_slice().replace(alloc, GRPC_WEB, GRPC)?;
    Ok(made)
}

/// A response's content type as one of gRPC-web.
pub(crate) fn as_grpc_web(alloc: Global, value: &[u8]) -> Result<Vec<u8>, Error>
    ensures ok { IfOk result (λ made. made.items ≡ as_grpc_web value.now) }
    ensures err { IsOkUnless result no_memory }
{
    let made = value.replace(alloc, GRPC, GRPC_WEB)?;
    Ok(made)
}

/// Whether all bytes are visible ASCII.
fn is_visible_text(value: &[u8]) -> bool
    ensures { result ≡ is_visible_text value.now }
{
    value.iter().all(|byte| is_visible(*byte))
}

fn is_visible(byte: u8) -> bool
    ensures { result ≡ is_visible byte }
{
    (32 <= byte && byte <= 126) || byte == b'\t'
}

/// Whether the value begins with the name, in any case.
fn begins_in_any_case(name: &[u8], value: &[u8]) -> bool
    ensures { result ≡ begins_in_any_case name.now value.now }
{
    let len = name.len().min(value.len());
    is_same_name(name, &value[..len])
}
