//! What a connection costs: the program serves input of one kind and size over a link in memory, so
//! that its instructions can be counted.
//!
//! Its words are `KIND SIZE PIECE`: so many requests or bytes by their kind, in pieces of so many
//! bytes, with polls after each until the connection waits for more. With the fourth word `give` the
//! input is made and given, and nothing is polled. With `flow` PIECE tells how many copies of the
//! input come, over a link that keeps no byte.
#![tactic(auto)]

mod flow;
mod input;
mod serving;

use input::input;
use serving::{Work, serve, serve_flow};
use std::process::ExitCode;
use std::rt::Env;
use std::{env, io};

/// The exit status of a command line that names no work.
const USAGE: u8 = 2;

/// The exit status where memory runs out, or the connection ends.
const FAILED: u8 = 1;

fn main(rt: HostRuntime) -> io::Result<ExitCode> {
    let mut words = env::args(&rt)?;
    let _ = words.next();
    let words: Vec<String> = words.collect(rt.alloc())?;
    let (Some(kind), Some(size), Some(piece)) = (words.get(0), words.get(1), words.get(2)) else {
        return Ok(ExitCode::from(USAGE));
    };
    let (Ok(size), Ok(piece)) = (size.parse::<usize>(), piece.parse::<usize>()) else {
        return Ok(ExitCode::from(USAGE));
    };
    let work = match words.get(3) {
        None => Work::Serve,
        Some(word) if word.as_str() == "give" => Work::Give,
        Some(word) if word.as_str() == "flow" => Work::Flow,
        Some(_) => return Ok(ExitCode::from(USAGE)),
    };
    let bytes = match input(rt.alloc(), kind.as_str(), size) {
        Ok(Some(bytes)) if piece > 0 => bytes,
        Ok(_) => return Ok(ExitCode::from(USAGE)),
        Err(_) => return Ok(ExitCode::from(FAILED)),
    };
    let given = bytes.len();
    let told = match work {
        Work::Serve | Work::Give => serve(rt.alloc(), bytes.as_slice(), piece, work),
        Work::Flow => serve_flow(rt.alloc(), bytes, piece),
    };
    let Ok(served) = told else {
        return Ok(ExitCode::from(FAILED));
    };
    if served.ended {
        return Ok(ExitCode::from(FAILED));
    }
    println!(rt;
        "{} requests, {} bytes in, {} bytes out",
        served.requests, given, served.bytes_out
    )?;
    Ok(ExitCode::from(0))
}
