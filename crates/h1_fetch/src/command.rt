//! The top call.
ghost use Rattle.std.specs.Prelude.{◌≡◌, map, string_bytes, IfOk};
ghost use Rattle.h1_fetch.specs.Output.{fault_line};
ghost use Rattle.h1_fetch.specs.Status.{CauseBy, Ends, ScriptCause, number_of, status_after};
ghost use Rattle.h1_fetch.specs.Words.{job_in};

use crate::getting::get;
use crate::input::{InputFault, read_script};
use crate::output::{Written, write_whole};
use crate::script::parse_lines;
use crate::scripted::report_of;
use crate::status::Status;
use crate::words::{Task, parse_words};
use h1_error::Error;
use h1_link::{Clock, Dialer, Sink, Source};
use h1_words::{ScriptFault, Text};
use std::alloc::Global;
use std::sync::Wait;

/// What is written where the words are no task.
const USAGE: &[u8] = b"usage: h1_fetch get PORT PATH COUNT [BODY] | script\n";

/// Does what the words ask for, and answers the exit status.
///
/// With the one word `script`, the source is read to its end as a script, which plays a session over
/// a link in memory, and the report is written to the sink. With `get PORT PATH COUNT`, the server at
/// this port is asked so many times for this path, and with a BODY it is sent that; a line is written
/// for each response, and one that tells of the links. Where no response comes, a line on `messages`
/// tells why.
pub fn run<R: Wait, S: Source, K: Sink, M: Sink, D: Dialer, T: Clock>(
    rt: &R,
    alloc: Global,
    words: &[String],
    source: &mut S,
    sink: &mut K,
    messages: &mut M,
    dialer: &mut D,
    clock: &mut T,
) -> u8
    ensures { Ends D.Link.state D.state (job_in (map string_bytes words.now))
        (S.state source.old) (S.state source.new) (K.state sink.old) (K.state sink.new)
        (M.state messages.old) (M.state messages.new) dialer.old dialer.new result }
{
    number_of(perform(rt, alloc, words, source, sink, messages, dialer, clock))
}

fn perform<R: Wait, S: Source, K: Sink, M: Sink, D: Dialer, T: Clock>(
    rt: &R,
    alloc: Global,
    words: &[String],
    source: &mut S,
    sink: &mut K,
    messages: &mut M,
    dialer: &mut D,
    clock: &mut T,
) -> Status
    ensures { CauseBy D.Link.state D.state (job_in (map string_bytes words.now))
        (S.state source.old) (S.state source.new) (K.state sink.old) (K.state sink.new)
        (M.state messages.old) (M.state messages.new) dialer.old dialer.new result }
{
    match parse_words(words) {
        Some(Task::Script) => run_script(alloc, source, sink),
        Some(Task::Get(asked)) => get(rt, alloc, asked, sink, messages, dialer, clock),
        None => status_of(write_whole(sink, USAGE), Status::Words),
    }
}

fn number_of(status: Status) -> u8
    ensures { result ≡ number_of status }
{
    match status {
        Status::Done => 0,
        Status::Words => 2,
        Status::Script => 3,
        Status::Source | Status::Response => 4,
        Status::Sink => 5,
        Status::Memory => 6,
        Status::Server => 7,
    }
}

/// Reads a script and judges it, runs it and reports.
fn run_script<S: Source, K: Sink>(alloc: Global, source: &mut S, sink: &mut K) -> Status
    ensures { ScriptCause (S.state source.old) (S.state source.new) (K.state sink.old)
        (K.state sink.new) result }
{
    let bytes = match read_script(alloc, source) {
        Ok(bytes) => bytes,
        Err(InputFault::Failed) => return Status::Source,
        Err(InputFault::NoMemory) => return Status::Memory,
    };
    match parse_lines(alloc, &bytes) {
        Ok(lines) => match report_of(alloc, lines.as_slice()) {
            Ok(text) => status_of(write_whole(sink, text.as_slice()), Status::Done),
            Err(_) => Status::Memory,
        },
        Err(ScriptFault::Line(number)) => match fault_line(alloc, number) {
            Ok(text) => status_of(write_whole(sink, text.as_slice()), Status::Script),
            Err(_) => Status::Memory,
        },
        Err(ScriptFault::NoMemory) => Status::Memory,
    }
}

/// The status once a text was written; it is `whole` where all of it was taken and flushed.
fn status_of(written: Written, whole: Status) -> Status
    ensures { result ≡ status_after whole written }
{
    match written {
        Written::Whole => whole,
        Written::Failed => Status::Sink,
        Written::NoMemory => Status::Memory,
    }
}

/// The line that tells where a script is outside of its grammar.
fn fault_line(alloc: Global, number: u64) -> Result<Text, Error>
    ensures { IfOk result (λ text. text ≡ fault_line number) }
{
    let mut text = Text::new(alloc);
    text.push(b"line ")?;
    text.push_number(alloc, number)?;
    text.push(b"\n")?;
    Ok(text)
}
