//! The text of `gen N`: requests that are made and served, told in numbers.
ghost use Rattle.std.specs.Prelude.{◌≡◌, ◌<◌, ◌≤◌, ◌++◌, ◌^◌, codes, length, IfOk, OnOk, Some};
ghost use Rattle.h1_error.specs.declared.progress.End.TheVariants as end;
ghost use Rattle.h1_transcript.specs.Entries.{bodies};
ghost use Rattle.h1_app.specs.View.{entries};
ghost use Rattle.h1_serve.specs.Generated.{count_line, TellsServed, IsGenText};

use h1_error::{Error, Progress};
use h1_link::MemLink;
use h1_serving::{Echoed, serve_gen};
use h1_words::{MOST_GENERATED, Text};
use std::alloc::Global;

/// Makes so many requests, serves them, and tells in four lines what was read and written.
pub(crate) fn gen_text(alloc: Global, count: u32) -> Result<Text, Error>
    requires { count ≤ MOST_GENERATED }
    ensures { IfOk result (IsGenText count) }
{
    let connection = serve_gen(alloc, count)?;
    served_text(alloc, &connection)
}

/// The four lines that tell of a connection that finished.
fn served_text(alloc: Global, connection: &Echoed<MemLink>) -> Result<Text, Error>
    requires end { connection.now.end ≡ Some end.Finished }
    requires few { length (entries connection.now) < 2 ^ 64 }
    requires small { length (bodies (entries connection.now)) < 2 ^ 64 }
    ensures { IfOk result (TellsServed connection.now) }
{
    let Some(end) = connection.end() else {
        unreachable!()
    };
    let transcript = connection.transcript();
    let mut text = Text::new(alloc);
    push_count(alloc, b"requests ", transcript.len() as u64, &mut text)?;
    push_count(alloc, b"body bytes ", transcript.payload_len(), &mut text)?;
    push_count(
        alloc,
        b"written ",
        connection.link().written().len() as u64,
        &mut text,
    )?;
    text.push_answer(alloc, Progress::Ready(end))?;
    text.push(b"\n")?;
    Ok(text)
}

/// Adds a line with a number.
fn push_count(alloc: Global, name: &[u8], number: u64, text: &mut Text) -> Result<(), Error>
    ensures { OnOk result (text.new ≡ text.old ++ count_line name.now number) }
{
    let line = count_line(alloc, name, number)?;
    text.push(line.as_slice())
}

fn count_line(alloc: Global, name: &[u8], number: u64) -> Result<Text, Error>
    ensures { IfOk result (λ text. text ≡ count_line name.now number) }
{
    let mut text = Text::new(alloc);
    text.push(name)?;
    text.push_number(alloc, number)?;
    text.push(b"\n")?;
    Ok(text)
}
