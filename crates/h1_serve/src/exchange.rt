//! The lines of a report that tell what was read and written.
ghost use Rattle.std.specs.Prelude.{◌≡◌, ◌++◌, OnOk, IfOk};
ghost use Rattle.std.specs.List.{All};
ghost use Rattle.h1_transcript.specs.Entries.{transcript_entries};
ghost use Rattle.h1_transcript.specs.declared.history.History.TheVariants.{Kept};
ghost use Rattle.h1_serve.specs.ExchangeText.{version_text, request_line, field_line, field_lines, body_line, exchange_lines, exchanges_lines, wrote_line};

use h1_app::{Entry, Transcript};
use h1_error::Error;
use h1_fields::Fields;
use h1_head::RequestHeader;
use h1_words::Text;
use http::Version;
use std::alloc::Global;

/// All exchanges of a connection that keeps them.
pub(crate) fn all_exchanges(transcript: &Transcript) -> &[Entry]
    requires { transcript.now.holding.history ≡ Kept }
    ensures { result.now ≡ transcript_entries transcript.now }
{
    match transcript.all() {
        Some(exchanges) => exchanges,
        None => unreachable!(),
    }
}

/// Adds the lines of these exchanges.
pub(crate) fn push_exchanges(
    alloc: Global,
    exchanges: &[Entry],
    text: &mut Text,
) -> Result<(), Error>
    requires { All (λ e. e.holding.history ≡ Kept) exchanges.now }
    ensures { OnOk result (text.new ≡ text.old ++ exchanges_lines exchanges.now) }
{
    for entry in exchanges {
        let lines = exchange_lines(alloc, entry)?;
        text.push(lines.as_slice())?;
    }
    Ok(())
}

/// Adds the line that tells what was written.
pub(crate) fn push_written(alloc: Global, written: &[u8], text: &mut Text) -> Result<(), Error>
    ensures { OnOk result (text.new ≡ text.old ++ wrote_line written.now) }
{
    let line = wrote_line(alloc, written)?;
    text.push(line.as_slice())
}

fn wrote_line(alloc: Global, written: &[u8]) -> Result<Text, Error>
    ensures { IfOk result (λ text. text ≡ wrote_line written.now) }
{
    let mut text = Text::new(alloc);
    text.push(b"wrote ")?;
    text.push_counted(alloc, written)?;
    text.push(b"\n")?;
    Ok(text)
}

fn exchange_lines(alloc: Global, entry: &Entry) -> Result<Text, Error>
    requires { entry.now.holding.history ≡ Kept }
    ensures { IfOk result (λ text. text ≡ exchange_lines entry.now) }
{
    let Some(head) = entry.head() else {
        unreachable!()
    };
    let mut text = request_line(alloc, head)?;
    let fields = field_lines(alloc, head.fields())?;
    text.push(fields.as_slice())?;
    let Some(payload) = entry.body() else {
        unreachable!()
    };
    let body = body_line(alloc, payload)?;
    text.push(body.as_slice())?;
    Ok(text)
}

fn request_line(alloc: Global, head: &RequestHeader) -> Result<Text, Error>
    ensures { IfOk result (λ text. text ≡ request_line head.now) }
{
    let mut text = Text::new(alloc);
    text.push(b"request ")?;
    text.push(head.method().as_str().as_bytes())?;
    text.push(b" ")?;
    text.push(head.raw_path())?;
    text.push(b" ")?;
    text.push(version_text(head.version()).as_bytes())?;
    text.push(b"\n")?;
    Ok(text)
}

fn version_text(version: Version) -> &'static str
    ensures { result.now ≡ version_text version }
{
    if version == Version::HTTP_10 {
        "HTTP/1.0"
    } else {
        "HTTP/1.1"
    }
}

fn field_lines(alloc: Global, fields: &Fields) -> Result<Text, Error>
    ensures { IfOk result (λ text. text ≡ field_lines fields.now) }
{
    let mut text = Text::new(alloc);
    for (name, value) in fields.iter() {
        let line = field_line(alloc, name, value)?;
        text.push(line.as_slice())?;
    }
    Ok(text)
}

fn field_line(alloc: Global, name: &[u8], value: &[u8]) -> Result<Text, Error>
    ensures { IfOk result (λ text. text ≡ field_line (name.now, value.now)) }
{
    let mut text = Text::new(alloc);
    text.push(b"field ")?;
    text.push(name)?;
    text.push(b": ")?;
    text.push(value)?;
    text.push(b"\n")?;
    Ok(text)
}

fn body_line(alloc: Global, body: &[u8]) -> Result<Text, Error>
    ensures { IfOk result (λ text. text ≡ body_line body.now) }
{
    let mut text = Text::new(alloc);
    text.push(b"body ")?;
    text.push_counted(alloc, body)?;
    text.push(b"\n")?;
    Ok(text)
}
