//! The bytes of a response, by its kind.
use h1_error::Error;
use std::alloc::Global;

const OK: &[u8] = b"HTTP/1.1 200 OK\r\n\
    Server: example/1.0\r\n\
    Date: Sun, 06 Nov 1994 08:49:37 GMT\r\n\
    Content-Type: text/plain\r\n\
    Content-Length: 16\r\n\
    \r\n\
    0123456789abcdef";

/// How many bytes a chunk has, and the line that states it (RFC 9112, section 7.1).
const CHUNK: usize = 0x1000;

const SIZE_LINE: &[u8] = b"1000\r\n";

/// How many long lines a long head has.
const LONG_LINES: usize = 8;

/// The response of this kind and size. None where there is no such kind.
pub(crate) fn response(alloc: Global, kind: &str, size: usize) -> Result<Option<Vec<u8>>, Error> {
    let mut bytes = Vec::new(alloc);
    match kind {
        "get" | "anew" => push(&mut bytes, OK)?,
        "counted" => push_counted(alloc, &mut bytes, size)?,
        "chunked" => push_chunked(&mut bytes, size)?,
        "head" => push_head(&mut bytes, size)?,
        _ => return Ok(None),
    }
    Ok(Some(bytes))
}

fn push(bytes: &mut Vec<u8>, more: &[u8]) -> Result<(), Error> {
    bytes.extend_from_slice(more)?;
    Ok(())
}

fn push_often(bytes: &mut Vec<u8>, part: &[u8], count: usize) -> Result<(), Error> {
    for _ in 0..count {
        push(bytes, part)?;
    }
    Ok(())
}

fn push_counted(alloc: Global, bytes: &mut Vec<u8>, size: usize) -> Result<(), Error> {
    push(bytes, b"HTTP/1.1 200 OK\r\nContent-Length: ")?;
    let digits = size.to_string(alloc)?;
    push(bytes, digits.as_bytes())?;
    push(bytes, b"\r\n\r\n")?;
    push_often(bytes, b"a", size)
}

fn push_chunked(bytes: &mut Vec<u8>, size: usize) -> Result<(), Error> {
    push(
        bytes,
        b"HTTP/1.1 200 OK\r\nTransfer-Encoding: chunked\r\n\r\n",
    )?;
    for _ in 0..size / CHUNK {
        push(bytes, SIZE_LINE)?;
        push_often(bytes, b"a", CHUNK)?;
        push(bytes, b"\r\n")?;
    }
    push(bytes, b"0\r\n\r\n")
}

fn push_head(bytes: &mut Vec<u8>, size: usize) -> Result<(), Error> {
    push(bytes, b"HTTP/1.1 200 OK\r\nContent-Length: 0\r\n")?;
    for _ in 0..LONG_LINES {
        push(bytes, b"X-Long: ")?;
        push_often(bytes, b"a", size / LONG_LINES)?;
        push(bytes, b"\r\n")?;
    }
    push(bytes, b"\r\n")
}
