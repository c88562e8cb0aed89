//! The bytes that a connection is given, by their kind.
use h1_error::Error;
use std::alloc::Global;

const GET: &[u8] = b"GET / HTTP/1.1\r\nHost: a\r\n\r\n";

const BROWSER_GET: &[u8] = b"GET /news/today?page=2 HTTP/1.1\r\n\
    Host: www.example.org\r\n\
    User-Agent: Mozilla/5.0 (X11; Linux x86_64; rv:128.0) Gecko/20100101 Firefox/128.0\r\n\
    Accept: text/html,application/xhtml+xml;q=0.9\r\n\
    Accept-Language: en-US,en;q=0.5\r\n\
    Accept-Encoding: gzip, deflate, br\r\n\
    Referer: https://www.example.org/news\r\n\
    Cookie: session=0123456789abcdef\r\n\
    Connection: keep-alive\r\n\
    Upgrade-Insecure-Requests: 1\r\n\
    \r\n";

const POST: &[u8] = b"POST / HTTP/1.1\r\nHost: a\r\nContent-Length: 100\r\n\r\n\
    0123456789012345678901234567890123456789012345678901234567890123456789012345678901234567890123456789";

/// How many bytes a chunk has, and the line that states it (RFC 9112, section 7.1).
const CHUNK: usize = 0x1000;

const SIZE_LINE: &[u8] = b"1000\r\n";

/// How many long lines a long head has.
const LONG_LINES: usize = 8;

/// The input of this kind: so many requests of the kinds `get`, `browser` and `post`, one request
/// with so many bytes of body of the kinds `counted` and `chunked` (of which only whole chunks are made),
/// and one with a head of about so many bytes of the kind `head`. None where there is no such kind.
pub(crate) fn input(alloc: Global, kind: &str, count: usize) -> Result<Option<Vec<u8>>, Error> {
    let mut bytes = Vec::new(alloc);
    match kind {
        "get" => push_often(&mut bytes, GET, count)?,
        "browser" => push_often(&mut bytes, BROWSER_GET, count)?,
        "post" => push_often(&mut bytes, POST, count)?,
        "counted" => push_counted(alloc, &mut bytes, count)?,
        "chunked" => push_chunked(&mut bytes, count)?,
        "head" => push_head(&mut bytes, count)?,
        _ => return Ok(None),
    }
    Ok(Some(bytes))
}

fn push(bytes: &mut Vec<u8>, more: &[u8]) -> Result<(), Error> {
    bytes.extend_from_slice(more)?;
    Ok(())
}

fn push_often(bytes: &mut Vec<u8>, part: &[u8], count: usize) -> Result<(), Error> {
    for _ in 0..count {
        push(bytes, part)?;
    }
    Ok(())
}

fn push_counted(alloc: Global, bytes: &mut Vec<u8>, count: usize) -> Result<(), Error> {
    push(bytes, b"POST / HTTP/1.1\r\nHost: a\r\nContent-Length: ")?;
    let digits = count.to_string(alloc)?;
    push(bytes, digits.as_bytes())?;
    push(bytes, b"\r\n\r\n")?;
    push_often(bytes, b"a", count)
}

fn push_chunked(bytes: &mut Vec<u8>, count: usize) -> Result<(), Error> {
    push(
        bytes,
        b"POST / HTTP/1.1\r\nHost: a\r\nTransfer-Encoding: chunked\r\n\r\n",
    )?;
    for _ in 0..count / CHUNK {
        push(bytes, SIZE_LINE)?;
        push_often(bytes, b"a", CHUNK)?;
        push(bytes, b"\r\n")?;
    }
    push(bytes, b"0\r\n\r\n")
}

fn push_head(bytes: &mut Vec<u8>, count: usize) -> Result<(), Error> {
    push(bytes, b"GET / HTTP/1.1\r\nHost: a\r\n")?;
    for _ in 0..LONG_LINES {
        push(bytes, b"X-Long: ")?;
        push_often(bytes, b"a", count / LONG_LINES)?;
        push(bytes, b"\r\n")?;
    }
    push(bytes, b"\r\n")
}
