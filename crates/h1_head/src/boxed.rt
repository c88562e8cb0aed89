//! Bytes that most heads don't have, each in a block of its own.
ghost use Rattle.std.specs.Prelude.{◌≡◌, IfOk, IsOkUnless, option_map};
ghost use Rattle.h1_error.specs.Memory.{no_memory};

use h1_error::Error;
use std::alloc::Global;

/// A copy of the bytes, where there are some.
pub(crate) fn box_bytes(alloc: Global, bytes: Option<&[u8]>) -> Result<Option<Box<Vec<u8>>>, Error>
    ensures ok { IfOk result (λ copy. option_map (λ bytes. bytes.value.items) copy
        ≡ option_map (λ bytes. bytes.now) bytes.entry) }
    ensures err { IsOkUnless result no_memory }
{
    match bytes {
        Some(bytes) => {
            let own = Vec::from_slice(alloc, bytes)?;
            Ok(Some(Box::new(alloc, own)?))
        }
        None => Ok(None),
    }
}

/// The same bytes again, where there are some.
#[inline(always)]
pub(crate) fn copy_boxed(
    alloc: Global,
    bytes: &Option<Box<Vec<u8>>>,
) -> Result<Option<Box<Vec<u8>>>, Error>
    ensures ok { IfOk result (λ copy. option_map (λ bytes. bytes.value.items) copy
        ≡ option_map (λ bytes. bytes.value.items) bytes.now) }
    ensures err { IsOkUnless result no_memory }
{
    match bytes {
        Some(bytes) => box_bytes(alloc, Some(bytes.as_slice())),
        None => Ok(None),
    }
}
