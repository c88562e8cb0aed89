//! What exchanges of a client cost: the program asks again and again over one link in memory, so
//! that its instructions can be counted.
//!
//! Its words are `KIND SIZE COUNT`: so many exchanges, each with a response of its kind. Of the kind
//! `get` it has four fields and 16 bytes of counted body. Of `counted` and `chunked` SIZE is how many
//! bytes its body has, of which only whole chunks are made, and of `head` about how many its head
//! has. A request of three fields is made once, and a copy of its head is handed in each time; of
//! the kind `anew`, which is `get` otherwise, it is made each time. The link goes from one session to
//! the next as in a pool.
#![tactic(auto)]

mod asking;
mod flow;
mod response;

use asking::ask_often;
use response::response;
use std::process::ExitCode;
use std::rt::Env;
use std::{env, io};

/// The exit status of a command line that names no work.
const USAGE: u8 = 2;

/// The exit status where memory runs out, or the link isn't kept.
const FAILED: u8 = 1;

fn main(rt: HostRuntime) -> io::Result<ExitCode> {
    let mut words = env::args(&rt)?;
    let _ = words.next();
    let words: Vec<String> = words.collect(rt.alloc())?;
    let (Some(kind), Some(size), Some(count)) = (words.get(0), words.get(1), words.get(2)) else {
        return Ok(ExitCode::from(USAGE));
    };
    let (Ok(size), Ok(count)) = (size.parse::<usize>(), count.parse::<usize>()) else {
        return Ok(ExitCode::from(USAGE));
    };
    let bytes = match response(rt.alloc(), kind.as_str(), size) {
        Ok(Some(bytes)) => bytes,
        Ok(None) => return Ok(ExitCode::from(USAGE)),
        Err(_) => return Ok(ExitCode::from(FAILED)),
    };
    let is_anew = kind.as_str() == "anew";
    let Ok(Some(length)) = ask_often(rt.alloc(), bytes, count, is_anew) else {
        return Ok(ExitCode::from(FAILED));
    };
    println!(rt; "{count} exchanges, {length} bytes of body")?;
    Ok(ExitCode::from(0))
}
