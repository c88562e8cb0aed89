//! What the words of the command line ask for.
use std::rt::Env;
use std::str::FromStr;
use std::{env, io};

/// A port, how many threads serve the connections, and how many connections are served.
#[derive(Clone, Copy, Debug, PartialEq, Eq)]
pub struct Told {
    pub port: u16,
    pub workers: u16,
    pub count: u64,
}

/// The words behind the program's name: PORT WORKERS COUNT, where 0 connections are as many as
/// come. `None` where they are no three numbers, or no thread is asked for. No clause says so: std
/// tells nothing of the words that the system hands in.
pub fn read_words(rt: &(impl Env + AllocGlobal)) -> io::Result<Option<Told>> {
    let mut words = env::args(rt)?;
    let _ = words.next();
    let (port, workers, count) = (words.next(), words.next(), words.next());
    if words.next().is_some() {
        return Ok(None);
    }
    let (Some(port), Some(workers), Some(count)) = (
        number(port),
        number(workers),
        number::<u64>(count),
    ) else {
        return Ok(None);
    };
    if workers == 0 {
        return Ok(None);
    }
    let count = if count == 0 { u64::MAX } else { count };
    Ok(Some(Told {
        port,
        workers,
        count,
    }))
}

/// The number that a word is.
fn number<N: FromStr>(word: Option<String>) -> Option<N>
where
    N::Err: Drop,
{
    word?.parse().ok()
}
