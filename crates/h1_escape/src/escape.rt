//! The escape of an illegal request line (RFC 9112, section 3.2; RFC 3986, section 2.1).
ghost use Rattle.std.specs.Prelude.{◌≡◌, ◌-◌, ◌^◌, ◌++◌, false, count_by, length, min, option_map, IfOk, IfErr};
ghost use Rattle.h1_error.specs.Memory.{no_memory};
ghost use Rattle.h1_escape.specs.Escape.{esc, escaped, is_illegal};

use crate::target::{target_len, target_start};
use h1_error::Error;
use percent_encoding::{AsciiSet, CONTROLS, ascii_set, percent_encode};
use std::alloc::{AllocError, Global};

/// The bytes of ASCII that no target may have. Those outside of ASCII are escaped by any set.
const ILLEGAL: AsciiSet = ascii_set!(CONTROLS.add(b' ').add(b'"').add(b'<').add(b'>'));

/// The head with the illegal bytes of its target escaped, or `None` where the first line has no
/// method, target and version, or where no byte of the target is illegal.
pub fn escape_head(alloc: Global, head: &[u8]) -> Result<Option<Vec<u8>>, Error>
    ensures ok { IfOk result (λ found. option_map (λ v. v.items) found ≡ esc head.now) }
    ensures err { IfErr result (λ error. error ≡ no_memory) }
{
    let Some(start) = target_start(head) else {
        return Ok(None);
    };
    let line = &head[start..];
    let Some(len) = target_len(line) else {
        return Ok(None);
    };
    let target = &line[..len];
    if illegal_count(target) == 0 {
        return Ok(None);
    }
    let escaped = with_target_escaped(alloc, &head[..start], target, &head[start + len..])?;
    Ok(Some(escaped))
}

/// The three parts of a head in one, with the illegal bytes of the target escaped.
fn with_target_escaped(
    alloc: Global,
    front: &[u8],
    target: &[u8],
    rest: &[u8],
) -> Result<Vec<u8>, AllocError>
    ensures { IfOk result (λ head. head.items ≡ front.now ++ escaped target.now ++ rest.now) }
{
    let mut head = Vec::with_capacity(alloc, escaped_len(front, target, rest))?;
    head.extend_from_slice(front)?;
    for piece in percent_encode(target, ILLEGAL) {
        head.extend_from_slice(piece.as_bytes())?;
    }
    head.extend_from_slice(rest)?;
    Ok(head)
}

/// The length of the three parts with the illegal bytes of the target escaped: an escape has two
/// bytes more than the byte that it stands for.
fn escaped_len(front: &[u8], target: &[u8], rest: &[u8]) -> usize
    ensures { result ≡ min (length (front.now ++ escaped target.now ++ rest.now)) (2 ^ 64 - 1) }
{
    let more = illegal_count(target).saturating_mul(2);
    let len = front.len().saturating_add(target.len());
    len.saturating_add(rest.len()).saturating_add(more)
}

fn illegal_count(bytes: &[u8]) -> usize
    ensures { result ≡ count_by is_illegal bytes.now }
{
    bytes.iter().filter(|byte| is_illegal(**byte)).count()
}

/// Whether no target may have the byte: a control byte, a space, `"`, `<`, `>`, or one outside of
/// ASCII.
fn is_illegal(byte: u8) -> bool
    ensures { result ≡ is_illegal byte }
{
    ILLEGAL.should_percent_encode(byte)
}
