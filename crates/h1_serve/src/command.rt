//! The top call.
ghost use Rattle.std.specs.Prelude.{◌≡◌, ◌≤◌, map, string_bytes, IfOk};
ghost use Rattle.h1_words.specs.Words.{task_of};
ghost use Rattle.h1_serving.specs.Peer.{clock_of};
ghost use Rattle.h1_serve.specs.ListenPeer.{IsPeer};
ghost use Rattle.h1_serve.specs.Output.{fault_line};
ghost use Rattle.h1_serve.specs.Status.{CauseBy, ScriptCause, GenCause, Ends, NetBy, ClockBy, number_of, status_after};

use crate::generated::gen_text;
use crate::input::{InputFault, read_script};
use crate::listening::listen;
use crate::output::{Written, write_whole};
use crate::scripted::report_of;
use crate::status::Status;
use h1_error::Error;
use h1_link::{Acceptor, Clock, Sink, Source};
use h1_words::{MOST_GENERATED, ScriptFault, Task, Text, parse_script, parse_words};
use std::alloc::Global;
use std::sync::Wait;
use std::thread::Threads;

/// What is written where the words are no task.
const USAGE: &[u8] = b"usage: h1_serve script | gen N | sub | listen PORT COUNT\n";

/// Does what the words ask for, and answers the exit status.
///
/// With the one word `script`, the source is read to its end as a script, which runs over a
/// connection in memory, and the report is written to the sink. With `gen N`, N requests are made
/// and served over such a connection, and four lines are written that tell it in numbers. With
/// `listen PORT COUNT`, so many peers are served at this port, one after another, each link is handed
/// back, and a line is written for each.
pub fn run<
    R: Wait + Threads + Sync + Send + Clone + Drop,
    S: Source,
    K: Sink,
    A: Acceptor,
    T: Clock,
>(
    _rt: &R,
    alloc: Global,
    words: &[String],
    source: &mut S,
    sink: &mut K,
    net: &mut A,
    clock: &mut T,
) -> u8
    ensures status { Ends (IsPeer A.Link.state A.Link.same_plan)
        (task_of (map string_bytes words.now)) (S.state source.old) (S.state source.new)
        (K.state sink.old) (K.state sink.new) (A.state net.old) (A.state net.new)
        (clock_of T.moment T.asked clock.old) (clock_of T.moment T.asked clock.new) result }

    // `listen` alone uses the network and the clock.
    ensures net { NetBy (task_of (map string_bytes words.now)) (A.state net.old) (A.state net.new) }
    ensures clock { ClockBy (task_of (map string_bytes words.now))
        (clock_of T.moment T.asked clock.old) (clock_of T.moment T.asked clock.new) }
{
    number_of(perform(alloc, words, source, sink, net, clock))
}

fn number_of(status: Status) -> u8
    ensures { result ≡ number_of status }
{
    match status {
        Status::Done => 0,
        Status::Words => 2,
        Status::Script => 3,
        Status::Source => 4,
        Status::Sink => 5,
        Status::Memory => 6,
        Status::Acceptor => 8,
    }
}

fn perform<S: Source, K: Sink, A: Acceptor, T: Clock>(
    alloc: Global,
    words: &[String],
    source: &mut S,
    sink: &mut K,
    net: &mut A,
    clock: &mut T,
) -> Status
    ensures status { CauseBy (IsPeer A.Link.state A.Link.same_plan)
        (task_of (map string_bytes words.now)) (S.state source.old) (S.state source.new)
        (K.state sink.old) (K.state sink.new) (A.state net.old) (A.state net.new)
        (clock_of T.moment T.asked clock.old) (clock_of T.moment T.asked clock.new) result }
    ensures net { NetBy (task_of (map string_bytes words.now)) (A.state net.old) (A.state net.new) }
    ensures clock { ClockBy (task_of (map string_bytes words.now))
        (clock_of T.moment T.asked clock.old) (clock_of T.moment T.asked clock.new) }
{
    match parse_words(words) {
        Some(Task::Script) => run_script(alloc, source, sink),
        Some(Task::Gen(count)) => run_gen(alloc, count, sink),
        Some(Task::Listen { port, count }) => listen(alloc, port, count, sink, net, clock),
        None => status_of(write_whole(sink, USAGE), Status::Words),
    }
}

/// Reads a script and judges it, runs it and reports.
fn run_script<S: Source, K: Sink>(alloc: Global, source: &mut S, sink: &mut K) -> Status
    ensures { ScriptCause (S.state source.old) (S.state source.new) (K.state sink.old)
        (K.state sink.new) result }
{
    let bytes = match read_script(alloc, source) {
        Ok(bytes) => bytes,
        Err(InputFault::Failed) => return Status::Source,
        Err(InputFault::NoMemory) => return Status::Memory,
    };
    match parse_script(alloc, &bytes) {
        Ok(script) => match report_of(alloc, script.commands()) {
            Ok(text) => status_of(write_whole(sink, text.as_slice()), Status::Done),
            Err(_) => Status::Memory,
        },
        Err(ScriptFault::Line(number)) => match fault_line(alloc, number) {
            Ok(text) => status_of(write_whole(sink, text.as_slice()), Status::Script),
            Err(_) => Status::Memory,
        },
        Err(ScriptFault::NoMemory) => Status::Memory,
    }
}

/// Makes so many requests, serves them and tells it in numbers.
fn run_gen<K: Sink>(alloc: Global, count: u32, sink: &mut K) -> Status
    requires { count ≤ MOST_GENERATED }
    ensures { GenCause count (K.state sink.old) (K.state sink.new) result }
{
    match gen_text(alloc, count) {
        Ok(text) => status_of(write_whole(sink, text.as_slice()), Status::Done),
        Err(_) => Status::Memory,
    }
}

/// The status once a text was written; it is `whole` where all of it was taken and flushed.
fn status_of(written: Written, whole: Status) -> Status
    ensures { result ≡ status_after whole written }
{
    match written {
        Written::Whole => whole,
        Written::Failed => Status::Sink,
        Written::NoMemory => Status::Memory,
    }
}

/// The line that tells where a script is outside of its grammar.
fn fault_line(alloc: Global, number: u64) -> Result<Text, Error>
    ensures { IfOk result (λ text. text ≡ fault_line number) }
{
    let mut text = Text::new(alloc);
    text.push(b"line ")?;
    text.push_number(alloc, number)?;
    text.push(b"\n")?;
    Ok(text)
}
