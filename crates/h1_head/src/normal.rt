//! The bytes that the head of a response is read as (RFC 9112, sections 5.1 and 5.2).
ghost use Rattle.std.specs.Prelude.{◌≡◌, ◌++◌, IfOk, OnOk, IsOkUnless};
ghost use Rattle.std.specs.List.{join_with_byte};
ghost use Rattle.h1_error.specs.Memory.{no_memory};
ghost use Rattle.h1_head.specs.Normal.{joined, normal, normal_fields, parts_at, tight};

use crate::line::{around, is_continuation, is_empty_line, without_cr};
use h1_error::Error;
use h1_fields::{trim_ows_end, trim_ows_start};
use std::alloc::Global;

/// The head with each field line that is continued as one line, and without white space before the
/// colons of names.
pub(crate) fn normal(alloc: Global, head: &[u8]) -> Result<Vec<u8>, Error>
    ensures ok { IfOk result (λ bytes. bytes.items ≡ normal head.now) }
    ensures err { IsOkUnless result no_memory }
{
    let mut out = Vec::with_capacity(alloc, head.len())?;
    let mut left = head;
    'lines: loop {
        let (line, behind) = around(left, b'\n');
        out.extend_from_slice(line)?;
        let Some(behind) = behind else {
            return Ok(out);
        };
        out.push(b'\n')?;
        if !is_empty_line(line) {
            push_fields(alloc, behind, &mut out)?;
            return Ok(out);
        }
        left = behind;
    }
}

/// Adds the field lines, and the empty line behind them.
fn push_fields(alloc: Global, fields: &[u8], out: &mut Vec<u8>) -> Result<(), Error>
    ensures ok { OnOk result (out.new.items
        ≡ out.old.items ++ join_with_byte 10 (normal_fields (parts_at 10 fields.now))) }
    ensures err { IsOkUnless result no_memory }
{
    let (first, mut behind) = around(fields, b'\n');
    let mut line = Vec::new(alloc);
    line.extend_from_slice(first)?;
    while let Some(left) = behind {
        let (next, further) = around(left, b'\n');
        if is_continuation(next) {
            join(&mut line, next)?;
        } else {
            push_tight(line.as_slice(), out)?;
            out.push(b'\n')?;
            line.clear();
            line.extend_from_slice(next)?;
        }
        behind = further;
    }
    push_tight(line.as_slice(), out)
}

/// Adds the line that goes on with this one.
fn join(line: &mut Vec<u8>, next: &[u8]) -> Result<(), Error>
    ensures ok { OnOk result (line.new.items ≡ joined line.old.items next.now) }
    ensures err { IsOkUnless result no_memory }
{
    let len = without_cr(line.as_slice()).len();
    line.truncate(len);
    line.push(b' ')?;
    line.extend_from_slice(trim_ows_start(next))?;
    Ok(())
}

/// Adds a field line without white space before its first colon.
fn push_tight(line: &[u8], out: &mut Vec<u8>) -> Result<(), Error>
    ensures ok { OnOk result (out.new.items ≡ out.old.items ++ tight line.now) }
    ensures err { IsOkUnless result no_memory }
{
    let (name, behind) = around(line, b':');
    let Some(value) = behind else {
        out.extend_from_slice(name)?;
        return Ok(());
    };
    out.extend_from_slice(trim_ows_end(name))?;
    out.push(b':')?;
    out.extend_from_slice(value)?;
    Ok(())
}
