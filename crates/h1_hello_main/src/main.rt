//! The program: it says hello at a port of this machine, in so many threads.
#![tactic(auto)]

mod words;

use crate::words::read_words;
use h1_app::{HeadModule, Responds};
use h1_hello::{Gate, Hello, hello_server};
use h1_link::{Acceptor, SystemClock, TcpAcceptor};
use h1_workers::{Peers, serve_workers};
use std::alloc::Global;
use std::io;
use std::process::ExitCode;
use std::sync::Arc;

/// The exit status where the words of the command line ask for nothing.
const NO_TASK: u8 = 2;

/// The exit status where the port can't be had.
const NO_PORT: u8 = 8;

fn main(rt: HostRuntime) -> io::Result<ExitCode> {
    let Some(told) = read_words(&rt)? else {
        eprintln!(rt; "usage: h1_hello_main PORT WORKERS COUNT (0 for connections without end)")?;
        return Ok(ExitCode::from(NO_TASK));
    };
    let mut acceptor = TcpAcceptor::new(rt.clone()?);
    if !acceptor.bind(told.port) {
        eprintln!(rt;
            "cannot listen on port {}: it is taken, or not for this user",
            told.port
        )?;
        return Ok(ExitCode::from(NO_PORT));
    }
    eprintln!(rt; "listening on port {}", told.port)?;
    let mut clocks = Vec::new(rt.alloc());
    for _ in 0..told.workers {
        clocks.push(SystemClock::new(rt.clone()?))?;
    }
    serve_workers(
        &rt,
        rt.alloc(),
        &peers(rt.alloc())?,
        acceptor,
        told.count,
        clocks,
    )?;
    Ok(ExitCode::SUCCESS)
}

/// Whoever comes is said hello to.
fn peers(alloc: Global) -> io::Result<Peers<Responds<Hello>, HeadModule<Gate>>> {
    let server = hello_server(alloc).map_err(|_| io::Error::from(io::ErrorKind::OutOfMemory))?;
    Ok(Peers::new(Arc::new(alloc, server)?))
}
