//! Trailers as the last frame of a gRPC-web body (gRPC's PROTOCOL-WEB.md).
ghost use Rattle.std.specs.Prelude.{◌≡◌, ◌++◌, ◌<◌, ◌^◌, length, IfOk, OnOk, IsOkUnless};
ghost use Rattle.h1_error.specs.Memory.{no_memory};
ghost use Rattle.h1_modules.specs.TrailerFrame.{trailer_line, trailer_block, frame};

use bstr::ByteSlice;
use bytes::Bytes;
use h1_error::Error;
use h1_head::Fields;
use std::alloc::Global;

/// The first byte of a frame of trailers.
const TRAILERS: u8 = 0x80;

/// The bytes of a frame before its block: the first, and the block's length.
const FRONT: usize = 5;

/// The trailers as a block: `name:value` CRLF for each, the names in lower case.
pub(crate) fn trailer_block(alloc: Global, trailers: &Fields) -> Result<Vec<u8>, Error>
    ensures ok { IfOk result (λ block. block.items ≡ trailer_block trailers.now) }
    ensures err { IsOkUnless result no_memory }
{
    let mut block = Vec::new(alloc);
    for (name, value) in trailers.iter() {
        push_line(alloc, &mut block, name, value)?;
    }
    Ok(block)
}

/// Appends one trailer.
fn push_line(alloc: Global, block: &mut Vec<u8>, name: &[u8], value: &[u8]) -> Result<(), Error>
    ensures ok { OnOk result (block.new.items
        ≡ block.old.items ++ trailer_line (name.now, value.now)) }
    ensures err { IsOkUnless result no_memory }
{
    let name = name.to_ascii_lowercase(alloc)?;
    block.extend_from_slice(&name)?;
    block.extend_from_slice(b":")?;
    block.extend_from_slice(value)?;
    block.extend_from_slice(b"\r\n")?;
    Ok(())
}

/// The frame of a block.
pub(crate) fn frame(alloc: Global, block: &[u8]) -> Result<Bytes, Error>
    requires { length block.now < 2 ^ 32 }
    ensures ok { IfOk result (λ made. made ≡ frame block.now) }
    ensures err { IsOkUnless result no_memory }
{
    let len = block.len() as u32;
    let mut bytes = Vec::with_capacity(alloc, FRONT + block.len())?;
    bytes.push(TRAILERS)?;
    bytes.extend_from_slice(&len.to_be_bytes())?;
    bytes.extend_from_slice(block)?;
    let made = Bytes::from_vec(bytes)?;
    Ok(made)
}
