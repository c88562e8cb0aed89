//! The program: it does what the words of its command line ask for, over standard input and
//! output, TCP and the runtime's clock.
#![tactic(auto)]

use h1_fetch::run;
use h1_link::{StdSink, StdSource, SystemClock, TcpDialer};
use std::process::ExitCode;
use std::rt::Env;
use std::{env, io};

/// The exit status where there is no memory.
const NO_MEMORY: u8 = 6;

fn main(rt: HostRuntime) -> io::Result<ExitCode> {
    let words = match words(&rt) {
        Ok(words) => words,
        // A command line that isn't UTF-8 names no task.
        Err(error) if error.kind() == io::ErrorKind::InvalidData => Vec::new(rt.alloc()),
        Err(_) => return Ok(ExitCode::from(NO_MEMORY)),
    };
    let mut source = StdSource::new(&rt);
    let mut sink = StdSink::new(rt.clone()?);
    let mut messages = StdSink::new(rt.stderr());
    let mut dialer = TcpDialer::new(rt.clone()?);
    let mut clock = SystemClock::new(rt.clone()?);
    let status = run(
        &rt,
        rt.alloc(),
        &words,
        &mut source,
        &mut sink,
        &mut messages,
        &mut dialer,
        &mut clock,
    );
    if let Some(reason) = reason(status) {
        eprintln!(rt; "{reason}")?;
    }
    Ok(ExitCode::from(status))
}

/// What an exit status other than 0 tells.
fn reason(status: u8) -> Option<&'static str> {
    match status {
        0 => None,
        2 => Some("no task has these words"),
        3 => Some("the script is outside of its grammar"),
        4 => Some("standard input failed, or no response came"),
        5 => Some("standard output failed"),
        6 => Some("there is no memory"),
        _ => Some("the server can't be reached"),
    }
}

/// The words after the program's name.
fn words(rt: &(impl Env + AllocGlobal)) -> io::Result<Vec<String>> {
    let mut words = env::args(rt)?;
    let _ = words.next();
    Ok(words.collect(rt.alloc())?)
}
