//! Links and what stands beside them, call by call. None of the functions here promises anything: an
//! expectation that isn't met ends the test.
ghost use Rattle.std.specs.Prelude.{◌<◌, ◌≤◌, length};

mod beside;
mod closing;
mod links;
mod sockets;
mod tcp;

use h1_link::{FlushStep, Link, ReadStep, WriteStep};
use std::marker::Model;
use std::process::Abort;

/// A link. Contracts see nothing of it: a test would carry what they say from call to call, and needs
/// none of it.
#[derive(Drop)]
struct Tried<L: Link + Drop> {
    link: L,
}

impl<L: Link + Drop> Model for Tried<L> {
    ghost Value = { Unit {0} };

    ghost view = { λ _. tt };
}

/// What a read into this buffer answers.
fn read<L: Link + Drop>(tried: &mut Tried<L>, buf: &mut [u8]) -> ReadStep
    requires { 0 < length buf.old }
{
    tried.link.poll_read(buf)
}

/// A read of at most so many bytes gives these.
fn gives<L: Link + Drop>(rt: &impl Abort, tried: &mut Tried<L>, most: usize, bytes: &[u8])
    requires room { 0 < most }
    requires fits { most ≤ 16 }
{
    let mut buf = [0u8; 16];
    assert_eq!(rt; read(tried, &mut buf[..most]), ReadStep::Got(bytes.len()));
    assert!(rt; buf.starts_with(bytes), "{bytes:?}");
}

/// A read gives no byte, and answers this.
fn gives_none<L: Link + Drop>(rt: &impl Abort, tried: &mut Tried<L>, expected: ReadStep) {
    let mut buf = [0u8; 16];
    assert_eq!(rt; read(tried, &mut buf), expected);
}

/// What a write of this piece answers.
fn write<L: Link + Drop>(tried: &mut Tried<L>, piece: &[u8]) -> WriteStep {
    tried.link.poll_write(piece)
}

/// A write takes all of this piece.
fn takes<L: Link + Drop>(rt: &impl Abort, tried: &mut Tried<L>, piece: &[u8]) {
    assert_eq!(rt; write(tried, piece), WriteStep::Took(piece.len()));
}

/// What a flush answers.
fn flush<L: Link + Drop>(tried: &mut Tried<L>) -> FlushStep {
    tried.link.poll_flush()
}

/// A flush answers this.
fn flushes<L: Link + Drop>(rt: &impl Abort, tried: &mut Tried<L>, expected: FlushStep) {
    assert_eq!(rt; flush(tried), expected);
}

/// Shuts the link down.
fn shut_down<L: Link + Drop>(tried: &mut Tried<L>) {
    tried.link.shutdown();
}
