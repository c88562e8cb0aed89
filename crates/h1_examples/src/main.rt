//! Runs scripts and command lines whose reports were worked out by hand, and says of each whether its
//! report is the expected one.
#![tactic(auto)]

ghost use Rattle.std.specs.Prelude.{◌≡◌, ◌↔◌, IsTrue};

use h1_error::Error;
use h1_link::{MemAcceptor, MemSink, MemSource, SetClock};
use h1_serve::run;
use std::rt::Files;
use std::sync::Wait;
use std::thread::Threads;
use std::{fs, io};

/// The examples, each with its exit status: `NAME.script` is run, and `NAME.report` expected.
const EXAMPLES: [(&str, u8); 69] = [
    ("one_request", 0),
    ("byte_by_byte", 0),
    ("cut_head", 0),
    ("empty_line", 0),
    ("no_bytes", 0),
    ("cut_body", 0),
    ("kept_alive", 0),
    ("chunked_body", 0),
    ("both_lengths", 0),
    ("broken_chunk", 0),
    ("chunked_reply", 0),
    ("reply_until_close", 0),
    ("reply_to_head", 0),
    ("short_reply", 0),
    ("escaped_target", 0),
    ("escaped_byte_by_byte", 0),
    ("illegal_behind_an_empty_line", 0),
    ("two_hosts", 0),
    ("http_10", 0),
    ("a_minute_later", 0),
    ("cut_behind_a_wait", 0),
    ("chunks_in_pieces", 0),
    ("kept_byte_by_byte", 0),
    ("next_request_in_the_next_piece", 0),
    ("two_requests", 0),
    ("two_requests_byte_by_byte", 0),
    ("lengths_alike", 0),
    ("lengths_alike_and_next", 0),
    ("lengths_alike_byte_by_byte", 0),
    ("chunks_and_next", 0),
    ("chunks_byte_by_byte_and_next", 0),
    ("both_lengths_in_pieces", 0),
    ("escaped_kept", 0),
    ("escaped_and_next", 0),
    ("escaped_kept_byte_by_byte", 0),
    ("broken_chunk_closes", 0),
    ("broken_chunk_and_next", 0),
    ("broken_chunk_byte_by_byte", 0),
    ("cut_body_closes", 0),
    ("cut_body_byte_by_byte", 0),
    ("limit_of_two", 0),
    ("limit_of_two_byte_by_byte", 0),
    ("limit_of_two_not_reached", 0),
    ("limit_of_none", 0),
    ("short_and_next", 0),
    ("short_byte_by_byte", 0),
    ("head_kept", 0),
    ("head_and_next", 0),
    ("head_byte_by_byte", 0),
    ("http_10_and_next", 0),
    ("http_10_byte_by_byte", 0),
    ("until_close_of_a_kept", 0),
    ("until_close_and_next", 0),
    ("until_close_byte_by_byte", 0),
    ("chunk_kept", 0),
    ("chunk_and_next", 0),
    ("chunk_byte_by_byte", 0),
    ("overread", 0),
    ("overread_stays", 0),
    ("nopipe_byte_by_byte", 0),
    ("three_fields", 0),
    ("three_fields_and_next", 0),
    ("three_fields_line_by_line", 0),
    ("shutdown_first", 0),
    ("shutdown_byte_by_byte", 0),
    ("shutdown_inside_a_head", 0),
    ("shutdown_between", 0),
    ("poll_goes_back", 3),
    ("give_behind_end", 3),
];

/// The examples whose link takes little or fails, each with its exit status as above.
const LINK_EXAMPLES: [(&str, u8); 17] = [
    ("five_bytes_a_second", 0),
    ("a_byte_for_each_poll", 0),
    ("fault_of_a_read", 0),
    ("fault_of_a_write", 0),
    ("two_faults_of_writes", 0),
    ("blocked_and_freed", 0),
    ("room_of_none", 0),
    ("blocked_in_a_reply", 0),
    ("fault_in_a_body", 0),
    ("fault_in_a_body_and_no_room", 0),
    ("fault_before_the_end", 0),
    ("faults_behind_the_end", 0),
    ("room_for_the_first_of_two", 0),
    ("room_for_a_part_of_two", 0),
    ("fault_of_a_second_reply", 0),
    ("room_without_a_number", 3),
    ("fault_of_a_flush", 3),
];

/// The examples whose peer stops or is slow, each with its exit status as above.
const DEADLINE_EXAMPLES: [(&str, u8); 27] = [
    ("no_head_in_a_minute", 0),
    ("no_head_to_the_millisecond", 0),
    ("no_head_in_a_shutdown", 0),
    ("no_next_head_in_a_minute", 0),
    ("head_stops", 0),
    ("head_stops_to_the_millisecond", 0),
    ("head_stops_in_an_empty_line", 0),
    ("next_head_stops", 0),
    ("head_comes_at_its_deadline", 0),
    ("next_head_behind_a_full_link", 0),
    ("end_at_the_deadline_of_a_head", 0),
    ("fault_at_the_deadline_of_a_head", 0),
    ("body_stops", 0),
    ("body_stops_to_the_millisecond", 0),
    ("body_stops_and_no_room", 0),
    ("second_body_stops", 0),
    ("body_drips", 0),
    ("size_line_drips", 0),
    ("slow_stops", 0),
    ("slow_stops_to_the_millisecond", 0),
    ("slow_byte_by_byte", 0),
    ("slow_goes_on_at_its_deadline", 0),
    ("slow_head_has_no_deadline", 0),
    ("slow_without_a_body", 0),
    ("slow_and_next", 0),
    ("fault_of_a_slow_write", 0),
    ("reply_has_no_deadline", 0),
];

/// The examples whose server has modules, each with its exit status as above.
const MODULE_EXAMPLES: [(&str, u8); 37] = [
    ("mark", 0),
    ("refusal", 0),
    ("mark_byte_by_byte", 0),
    ("refusal_byte_by_byte", 0),
    ("refuse_without_modules", 0),
    ("refuse_behind_a_mark", 0),
    ("two_marks", 0),
    ("two_marks_in_the_other_order", 0),
    ("the_least_and_the_greatest_mark", 0),
    ("the_greatest_refusal", 0),
    ("a_mark_and_a_refusal_of_one_number", 0),
    ("modules_among_other_lines", 0),
    ("mark_of_two_replies", 0),
    ("mark_of_a_reply_in_parts", 0),
    ("mark_of_chunks", 0),
    ("mark_until_close", 0),
    ("mark_of_head", 0),
    ("mark_of_a_short_reply", 0),
    ("mark_of_a_broken_body", 0),
    ("mark_and_a_fault_of_a_write", 0),
    ("refusal_stays", 0),
    ("refusal_behind_a_reply", 0),
    ("refusal_leaves_the_body", 0),
    ("refusal_of_head", 0),
    ("refusal_of_the_whole_target", 0),
    ("refused_head_is_no_refusal", 0),
    ("refusal_by_the_first", 0),
    ("refusal_by_the_second", 0),
    ("refusal_by_the_last", 0),
    ("first_of_three_refusals", 0),
    ("first_of_two_refusals_behind_a_mark", 0),
    ("mark_twice", 3),
    ("refuse_twice", 3),
    ("mark_without_a_number", 3),
    ("module_of_no_kind", 3),
    ("mark_of_33_bits", 3),
    ("module_behind_a_poll", 3),
];

/// The lines of two modules that change nothing where no request is for `/refuse`.
const IDLE_MODULES: &[u8] = b"module refuse 1\nmodule refuse 2\n";

/// The command lines that read no script, each with its words and its exit status: `NAME.report` is
/// expected.
const COMMANDS: [(&str, &str, u8); 5] = [
    ("gen_3", "gen 3", 0),
    ("gen_0", "gen 0", 0),
    ("gen_20000", "gen 20000", 0),
    ("gen_20001", "gen 20001", 2),
    ("gen_x", "gen x", 2),
];

fn main(rt: HostRuntime) -> io::Result<()> {
    for (name, status) in EXAMPLES {
        let verdict = verdict(is_example(&rt, name, status)?);
        println!(rt; "{name} {verdict}")?;
    }
    for (name, status) in LINK_EXAMPLES {
        let verdict = verdict(is_example(&rt, name, status)?);
        println!(rt; "{name} {verdict}")?;
    }
    for (name, status) in DEADLINE_EXAMPLES {
        let verdict = verdict(is_example(&rt, name, status)?);
        println!(rt; "{name} {verdict}")?;
    }
    for (name, status) in MODULE_EXAMPLES {
        let script = script_of(&rt, name)?;
        let verdict = verdict(is_as_expected(&rt, name, "script", &script, status)?);
        println!(rt; "{name} {verdict}")?;
    }
    for (name, line, status) in COMMANDS {
        let verdict = verdict(is_as_expected(&rt, name, line, b"", status)?);
        println!(rt; "{name} {verdict}")?;
    }
    Ok(())
}

fn verdict(as_expected: bool) -> &'static str {
    if as_expected { "ok" } else { "differs" }
}

/// The script of this name.
fn script_of<R: Files + AllocGlobal>(rt: &R, name: &str) -> io::Result<Vec<u8>> {
    fs::read(rt, format!(in rt.alloc(); "{name}.script")?)
}

/// Whether the script of this name is as expected, and so where the lines of two modules stand in
/// front of it that change nothing. A line outside of the grammar is another one behind them.
fn is_example<R: Files + AllocGlobal + Wait + Threads + Sync + Send + Clone + Drop>(
    rt: &R,
    name: &str,
    status: u8,
) -> io::Result<bool> {
    let script = script_of(rt, name)?;
    if !is_as_expected(rt, name, "script", &script, status)? {
        return Ok(false);
    }
    if status != 0 {
        return Ok(true);
    }
    let mut behind = Vec::new(rt.alloc());
    behind.extend_from_slice(IDLE_MODULES)?;
    behind.extend_from_slice(&script)?;
    is_as_expected(rt, name, "script", &behind, status)
}

/// Whether the words of a line, over this script, end with this status and the report of this name.
fn is_as_expected<R: Files + AllocGlobal + Wait + Threads + Sync + Send + Clone + Drop>(
    rt: &R,
    name: &str,
    line: &str,
    script: &[u8],
    status: u8,
) -> io::Result<bool> {
    let alloc = rt.alloc();
    let report = fs::read(rt, format!(in alloc; "{name}.report")?)?;
    let mut words = Vec::new(alloc);
    for word in line.split(' ') {
        words.push(String::from_str(alloc, word)?)?;
    }
    let mut source = MemSource::new(alloc, script).map_err(no_memory)?;
    let mut sink = MemSink::new(alloc);
    let mut net = MemAcceptor::new(alloc);
    let mut clock = SetClock::new(0);
    let ended = run(
        rt,
        alloc,
        &words,
        &mut source,
        &mut sink,
        &mut net,
        &mut clock,
    );
    Ok(agrees(ended, sink.written(), status, report.as_slice()))
}

/// Whether a run ended with the expected status and wrote the expected text.
fn agrees(ended: u8, written: &[u8], status: u8, report: &[u8]) -> bool
    ensures { IsTrue result ↔ ((ended ≡ status) × (written.now ≡ report.now)) }
{
    ended == status && written == report
}

fn no_memory(_refused: Error) -> io::Error {
    io::Error::from(io::ErrorKind::OutOfMemory)
}
