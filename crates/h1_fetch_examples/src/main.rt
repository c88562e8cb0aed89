//! Runs scripts and command lines of the client whose reports were worked out by hand, and says of
//! each whether its report is the expected one.
#![tactic(auto)]

ghost use Rattle.std.specs.Prelude.{◌≡◌, ◌↔◌, IsTrue};

use h1_error::Error;
use h1_fetch::run;
use h1_link::{DialStep, MemDialer, MemLink, MemSink, MemSource, SetClock};
use std::rt::Files;
use std::sync::Wait;
use std::{fs, io};

/// The scripts, each with its exit status: `NAME.script` is run, and `NAME.report` expected.
const SCRIPTS: [(&str, u8); 12] = [
    ("an_interim_head_and_the_final_one", 0),
    ("several_interim_heads", 0),
    ("a_broken_chunk", 0),
    ("a_refused_head", 0),
    ("two_lengths", 0),
    ("a_chunked_body_byte_by_byte", 0),
    ("a_request_byte_by_byte", 0),
    ("a_body_until_the_end", 0),
    ("a_cut_head", 0),
    ("a_late_response", 0),
    ("a_poll_before_the_request", 3),
    ("a_second_request", 3),
];

/// The bytes of the peer of `get`: what its first and its second link give.
const LINKS: [&str; 2] = [
    "HTTP/1.1 100 Continue\r\n\r\nHTTP/1.1 200 OK\r\nContent-Length: 3\r\n\r\nabc",
    "HTTP/1.1 404 Not Found\r\nTransfer-Encoding: chunked\r\n\r\n2\r\nno\r\n0\r\n\r\n",
];

/// The command lines that ask this peer, each with its exit status.
const COMMANDS: [(&str, &str, u8); 6] = [
    ("get_1", "get 80 /a 1", 0),
    ("get_2", "get 80 /a 2", 0),
    ("get_3", "get 80 /a 3", 7),
    ("post_1", "get 80 /a 1 abc", 0),
    ("get_0", "get 80 /a 0", 0),
    ("get_x", "get 80 /a x", 2),
];

fn main(rt: HostRuntime) -> io::Result<()> {
    for (name, status) in SCRIPTS {
        let script = fs::read(&rt, format!(in rt.alloc(); "{name}.script")?)?;
        let verdict = verdict(is_as_expected(&rt, name, "script", &script, status)?);
        println!(rt; "{name} {verdict}")?;
    }
    for (name, line, status) in COMMANDS {
        let verdict = verdict(is_as_expected(&rt, name, line, b"", status)?);
        println!(rt; "{name} {verdict}")?;
    }
    Ok(())
}

fn verdict(as_expected: bool) -> &'static str {
    if as_expected { "ok" } else { "differs" }
}

/// Whether the words of a line, over this script, end with this status and the report of this name.
fn is_as_expected<R: Files + AllocGlobal + Wait>(
    rt: &R,
    name: &str,
    line: &str,
    script: &[u8],
    status: u8,
) -> io::Result<bool> {
    let alloc = rt.alloc();
    let report = fs::read(rt, format!(in alloc; "{name}.report")?)?;
    let mut words = Vec::new(alloc);
    for word in line.split(' ') {
        words.push(String::from_str(alloc, word)?)?;
    }
    let mut source = MemSource::new(alloc, script).map_err(no_memory)?;
    let (mut sink, mut messages) = (MemSink::new(alloc), MemSink::new(alloc));
    let mut dialer = MemDialer::new(alloc);
    for bytes in LINKS {
        let mut link = MemLink::new(alloc);
        link.give(bytes.as_bytes()).map_err(no_memory)?;
        link.end();
        dialer.plan(DialStep::Connected(link)).map_err(no_memory)?;
    }
    let ended = run(
        rt,
        alloc,
        &words,
        &mut source,
        &mut sink,
        &mut messages,
        &mut dialer,
        &mut SetClock::new(0),
    );
    Ok(agrees(ended, sink.written(), status, report.as_slice()))
}

/// Whether a run ended with the expected status and wrote the expected text.
fn agrees(ended: u8, written: &[u8], status: u8, report: &[u8]) -> bool
    ensures { IsTrue result ↔ ((ended ≡ status) × (written.now ≡ report.now)) }
{
    ended == status && written == report
}

fn no_memory(_refused: Error) -> io::Error {
    io::Error::from(io::ErrorKind::OutOfMemory)
}
