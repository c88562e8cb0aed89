//! The bytes of heads (RFC 9112, sections 2.1, 3 and 4).
ghost use Rattle.std.specs.Prelude.{◌≡◌, ◌∷◌, ◌++◌, [], codes, true, false, if◌then◌else◌, unwrap_or, IsTrue, IsSomeAnd, IfOk, OnOk, OnErr, IsOkUnless, MatchOption};
ghost use Rattle.h1_error.specs.Memory.{no_memory};
ghost use Rattle.h1_fields.specs.Lines.{with_line, print_lines};
ghost use Rattle.h1_head.specs.Versions.{is_http_1, version_name};
ghost use Rattle.h1_head.specs.Response.{reason_of};
ghost use Rattle.h1_head.specs.Wire.{print_status_line, head_bytes, reply_head, keep_option, is_forbidden_byte, has_forbidden_byte, print_request_line, print_request, request_bytes};

use crate::version::name_of;
use crate::{Fields, HeadBuffer, RequestHeader, ResponseHeader};
use bytes::BytesMut;
use h1_error::Error;
use h1_fields::is_same_name;
use http::Version;

/// Appends the status line, the field lines and the empty line after them.
pub fn push_response_head(header: &ResponseHeader, out: &mut Vec<u8>) -> Result<(), Error>
    requires { IsTrue (is_http_1 header.now.version) }
    ensures ok { OnOk result (out.new.items ≡ out.old.items ++ head_bytes header.now) }
    ensures err { IsOkUnless result no_memory }
    ensures same { OnErr result (out.new.items ≡ out.old.items) }
{
    let head = response_bytes(header)?;
    out.extend_from_slice(head.as_slice())?;
    Ok(())
}

/// Puts the bytes of the head of a final reply in place of what `out` holds: with Date, and after it
/// Connection. With an error `out` is empty. Room that `out` has is used again.
#[inline(always)]
pub fn print_reply_head(
    header: &ResponseHeader,
    date: &[u8; 29],
    keep: bool,
    out: &mut HeadBuffer,
) -> Result<(), Error>
    requires { IsTrue (is_http_1 header.now.version) }
    ensures ok { OnOk result
        (out.new ≡ head_bytes (reply_head header.now date.now keep)) }
    ensures err { IsOkUnless result no_memory }
    ensures none { OnErr result (out.new ≡ []) }
{
    out.clear();
    let printed = push_final_head(out, header, date, keep);
    if printed.is_err() {
        out.clear();
    }
    printed
}

/// Appends the head of a final reply, with Date and Connection.
#[inline(always)]
fn push_final_head(
    out: &mut HeadBuffer,
    header: &ResponseHeader,
    date: &[u8; 29],
    keep: bool,
) -> Result<(), Error>
    requires { IsTrue (is_http_1 header.now.version) }
    ensures ok { OnOk result (out.new
        ≡ out.old ++ head_bytes (reply_head header.now date.now keep)) }
    ensures err { IsOkUnless result no_memory }
{
    push_status_line(out, header)?;
    push_reply_lines(out, header.fields(), date, keep)?;
    Ok(())
}

/// The option of Connection that says whether the connection is kept.
fn option_of(keep: bool) -> &'static [u8]
    ensures { result.now ≡ keep_option keep }
{
    if keep { b"keep-alive" } else { b"close" }
}

/// The bytes of a response head.
fn response_bytes(header: &ResponseHeader) -> Result<HeadBuffer, Error>
    requires { IsTrue (is_http_1 header.now.version) }
    ensures ok { IfOk result (λ bytes. bytes ≡ head_bytes header.now) }
    ensures err { IsOkUnless result no_memory }
{
    let mut out = HeadBuffer::new(header.allocator());
    push_status_line(&mut out, header)?;
    push_lines(&mut out, header.fields())?;
    out.push(b"\r\n")?;
    Ok(out)
}

/// Appends version, status code and phrase.
#[inline(always)]
fn push_status_line(out: &mut HeadBuffer, header: &ResponseHeader) -> Result<(), Error>
    requires { IsTrue (is_http_1 header.now.version) }
    ensures ok { OnOk result (out.new ≡ out.old ++ print_status_line header.now) }
    ensures err { IsOkUnless result no_memory }
{
    if is_plain_ok(header) {
        out.push(b"HTTP/1.1 200 OK\r\n")?;
        return Ok(());
    }
    out.push(reply_version(header.version()).as_bytes())?;
    out.push(b" ")?;
    out.push(header.status_digits().as_bytes())?;
    out.push(b" ")?;
    out.push(phrase_or_nothing(header))?;
    out.push(b"\r\n")?;
    Ok(())
}

/// Whether the status line is that of most replies: version 1.1, status 200 and its own phrase.
fn is_plain_ok(header: &ResponseHeader) -> bool
    ensures { result ≡ true → print_status_line header.now ≡ codes "HTTP/1.1 200 OK\r\n" }
{
    header.version() == Version::HTTP_11 && header.status() == 200 && !header.has_own_phrase()
}

/// The name of a version that a reply may have.
fn reply_version(version: Version) -> &'static str
    requires { IsTrue (is_http_1 version) }
    ensures { result.now ≡ unwrap_or (version_name version) [] }
{
    match name_of(version) {
        Some(name) => name,
        None => unreachable!(),
    }
}

/// The phrase of the status line, or nothing.
fn phrase_or_nothing(header: &ResponseHeader) -> &[u8]
    ensures { result.now ≡ unwrap_or (reason_of header.now) [] }
{
    match header.get_reason_phrase() {
        Some(phrase) => phrase,
        None => b"",
    }
}

/// Appends each line.
pub(crate) fn push_lines(out: &mut HeadBuffer, fields: &Fields) -> Result<(), Error>
    ensures ok { OnOk result (out.new ≡ out.old ++ print_lines fields.now) }
    ensures err { IsOkUnless result no_memory }
{
    for (name, value) in fields.iter() {
        out.push_line(name, value)?;
    }
    Ok(())
}

/// Appends the lines of a reply, with Date and Connection in the places of the first lines of these
/// names and without later ones, or at the end, and an empty line.
#[inline(always)]
fn push_reply_lines(
    out: &mut HeadBuffer,
    fields: &Fields,
    date: &[u8; 29],
    keep: bool,
) -> Result<(), Error>
    ensures ok { let dated = with_line (codes "Date") date.now fields.now in
        let lines = with_line (codes "Connection") (keep_option keep) dated in
        OnOk result (out.new ≡ out.old ++ print_lines lines ++ (13 ∷ 10 ∷ [])) }
    ensures err { IsOkUnless result no_memory }
{
    let mut dated = false;
    let mut connected = false;
    for (name, value) in fields.iter() {
        if is_same_name(b"Date", name) {
            push_once(out, dated, b"Date", date)?;
            dated = true;
        } else if is_same_name(b"Connection", name) {
            push_once(out, connected, b"Connection", option_of(keep))?;
            connected = true;
        } else {
            out.push_line(name, value)?;
        }
    }
    push_end(out, dated, date, connected, keep)?;
    Ok(())
}

/// Appends Date and Connection, as far as they aren't written yet, and an empty line.
#[inline(always)]
fn push_end(
    out: &mut HeadBuffer,
    dated: bool,
    date: &[u8; 29],
    connected: bool,
    keep: bool,
) -> Result<(), Error>
    ensures ok { let first = if dated then [] else (codes "Date", date.now) ∷ [] in
        let second = if connected then [] else (codes "Connection", keep_option keep) ∷ [] in
        let lines = print_lines (first ++ second) in
        OnOk result (out.new ≡ out.old ++ lines ++ (13 ∷ 10 ∷ [])) }
    ensures err { IsOkUnless result no_memory }
{
    // Of most replies neither is written yet, and the connection is kept.
    if let (false, false, true) = (dated, connected, keep) {
        out.push(&kept_end(date))?;
        return Ok(());
    }
    push_once(out, dated, b"Date", date)?;
    push_once(out, connected, b"Connection", option_of(keep))?;
    out.push(b"\r\n")?;
    Ok(())
}

/// The end of a head whose last lines are Date and Connection, of a connection that is kept.
#[inline(always)]
fn kept_end(date: &[u8; 29]) -> [u8; 63]
    ensures { result
        ≡ codes "Date: " ++ date.now ++ codes "\r\nConnection: keep-alive\r\n\r\n" }
{
    let mut end = *b"Date: .............................\r\nConnection: keep-alive\r\n\r\n";
    end[6..35].copy_from_slice(date);
    end
}

/// Appends one line, if it isn't written yet.
fn push_once(out: &mut HeadBuffer, written: bool, name: &[u8], value: &[u8]) -> Result<(), Error>
    ensures ok { let lines = if written then [] else (name.now, value.now) ∷ [] in
        OnOk result (out.new ≡ out.old ++ print_lines lines) }
    ensures err { IsOkUnless result no_memory }
{
    if written {
        return Ok(());
    }
    out.push_line(name, value)
}

/// The bytes of a request head. None where its target or its version can't stand on a request line.
pub fn http_req_header_to_wire(req: &RequestHeader) -> Result<Option<BytesMut>, Error>
    ensures wire { MatchOption (request_bytes req.now) (result ≡ Ok None)
        (λ bytes. IfOk result (λ wire. IsSomeAnd wire (λ wire. wire.items ≡ bytes))) }
    ensures err { IsOkUnless result no_memory }
{
    let mut head = HeadBuffer::new(req.allocator());
    if push_request_head(req, &mut head)? {
        Ok(Some(BytesMut::from(head.into_bytes())))
    } else {
        Ok(None)
    }
}

/// Appends the bytes of a request head. False, with nothing appended, where its target or its version
/// can't stand on a request line.
pub fn push_request_head(req: &RequestHeader, out: &mut HeadBuffer) -> Result<bool, Error>
    ensures wire { MatchOption (request_bytes req.now) ((result ≡ Ok false) × (out.new ≡ out.old))
        (λ bytes. IfOk result (λ pushed. (pushed ≡ true) × (out.new ≡ out.old ++ bytes))) }
    ensures err { IsOkUnless result no_memory }
{
    if request_target_has_forbidden_byte(req.raw_path()) {
        return Ok(false);
    }
    match name_of(req.version()) {
        Some(version) => {
            push_request(out, req, version)?;
            Ok(true)
        }
        None => Ok(false),
    }
}

/// Appends the request line with this name of the version, the field lines and an empty line.
fn push_request(out: &mut HeadBuffer, req: &RequestHeader, version: &str) -> Result<(), Error>
    ensures ok { OnOk result (out.new ≡ out.old ++ print_request req.now version.now) }
    ensures err { IsOkUnless result no_memory }
{
    push_request_line(out, req, version)?;
    push_lines(out, req.fields())?;
    out.push(b"\r\n")?;
    Ok(())
}

/// Appends method, target and version.
fn push_request_line(out: &mut HeadBuffer, req: &RequestHeader, version: &str) -> Result<(), Error>
    ensures ok { OnOk result
        (out.new ≡ out.old ++ print_request_line req.now version.now) }
    ensures err { IsOkUnless result no_memory }
{
    out.push(req.method().as_str().as_bytes())?;
    out.push(b" ")?;
    out.push(req.raw_path())?;
    out.push(b" ")?;
    out.push(version.as_bytes())?;
    out.push(b"\r\n")?;
    Ok(())
}

/// Whether a target has NUL, LF, CR or SP, with which it can't stand on a request line.
pub fn request_target_has_forbidden_byte(path: &[u8]) -> bool
    ensures { result ≡ has_forbidden_byte path.now }
{
    path.iter().any(|byte| is_forbidden_byte(*byte))
}

fn is_forbidden_byte(byte: u8) -> bool
    ensures { result ≡ is_forbidden_byte byte }
{
    byte == 0 || byte == b'\n' || byte == b'\r' || byte == b' '
}
