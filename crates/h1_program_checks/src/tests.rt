//! The program and the sample servers, as their callers and peers meet them. None of the functions
//! here promises anything: an expectation that isn't met ends the test.

mod fetching;
mod greeting;
mod health;
mod hello;
mod listening;
mod long;
mod marking;
mod scripts;
mod sockets;
mod workers;

use h1_app::{Connection, LawfulFor, ServeHttp};
use h1_error::End;
use h1_link::{Acceptor, Clock, MemLink, Sink, Source};
use h1_serve::run;
use std::process::Abort;
use std::sync::Wait;
use std::thread::Threads;

/// These words, as the program gets them.
fn owned(rt: &(impl Abort + AllocGlobal), words: &[&str]) -> Vec<String> {
    let mut all = Vec::new(rt.alloc());
    for word in words {
        let word = String::from_str(rt.alloc(), word).expect(rt, "memory");
        all.push(word).expect(rt, "memory");
    }
    all
}

/// The status with which the program ends on these words, over this source, sink, network and clock.
fn status_of<R, S: Source, K: Sink, A: Acceptor, T: Clock>(
    rt: &R,
    words: &[&str],
    source: &mut S,
    sink: &mut K,
    net: &mut A,
    clock: &mut T,
) -> u8
where
    R: Wait + Threads + Abort + AllocGlobal + Sync + Send + Clone + Drop,
{
    run(rt, rt.alloc(), &owned(rt, words), source, sink, net, clock)
}

/// Why a connection over a link in memory ended, how many requests it read, and what its peer was
/// sent.
#[derive(Drop)]
struct Outcome {
    end: Option<End>,
    exchanges: usize,
    written: Vec<u8>,
}

/// What this connection came to.
fn outcome_of<SV: ServeHttp<MemLink, ()> + Drop, B: LawfulFor<MemLink, (), SV> + Drop>(
    rt: &(impl Abort + AllocGlobal),
    connection: Connection<MemLink, SV, B, ()>,
) -> Outcome {
    let written = connection.link().written().to_vec(rt.alloc());
    Outcome {
        end: connection.end(),
        exchanges: connection.transcript().len(),
        written: written.expect(rt, "memory"),
    }
}
