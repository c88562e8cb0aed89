//! How many bytes the reads of a body ask for, by how many came before.
use super::calls::{payload, read_head};
use super::peer::{give, send};
use super::{Timed, Told, session_of};
use bytes::Bytes;
use std::marker::Model;
use std::process::Abort;

/// A head of 43 bytes.
const HEAD: &[u8] = b"POST / HTTP/1.1\r\nContent-Length: 300002\r\n\r\n";

/// The length of the body.
const LEN: usize = 300_002;

/// How many bytes the peer sends before each read, and how many the read gives.
const READS: [(usize, usize); 14] = [
    (200_000, 4_096),
    (0, 8_192),
    (0, 16_384),
    (0, 32_768),
    (0, 65_536),
    (0, 65_536),
    (0, 7_488),
    // Behind a short read the next asks for few.
    (1, 1),
    (100_000, 4_096),
    (0, 8_192),
    (0, 16_384),
    (0, 32_768),
    (0, 38_560),
    (1, 1),
];

/// A session that reads the body of a request, with what is still to be read. Contracts see nothing
/// of it.
#[derive(Drop)]
struct Reading<'a> {
    timed: Timed<'a>,
    left: &'a [u8],
    /// Pieces that were read.
    held: Vec<Bytes>,
}

impl<'a> Model for Reading<'a> {
    ghost Value = { Unit {0} };

    ghost view = { λ _. tt };
}

#[test]
fn a_body_is_whole_whatever_its_reads_ask_for(rt: HostRuntime) {
    let body = body_of(&rt);
    let mut reading = reading_of(&rt, &body);
    for i in 0..READS.len() {
        read_piece(&rt, &mut reading, i);
    }
    assert!(rt; reading.left.is_empty());
}

#[test]
fn pieces_of_a_body_that_are_held_stay_as_they_were_read(rt: HostRuntime) {
    let body = body_of(&rt);
    let mut reading = reading_of(&rt, &body);
    for i in 0..READS.len() {
        hold_piece(&rt, &mut reading, i);
    }
    for i in 0..READS.len() {
        judge_held(&rt, &mut reading, i);
    }
    assert!(rt; reading.left.is_empty());
}

/// A body in which no two reads give the same bytes.
fn body_of(rt: &(impl Abort + AllocGlobal)) -> Vec<u8> {
    let mut bytes = Vec::new(rt.alloc());
    for at in 0..LEN {
        assert!(rt; bytes.push((at % 251) as u8).is_ok());
    }
    bytes
}

/// A session that read the head, and was sent nothing of this body.
fn reading_of<'a>(rt: &(impl Abort + AllocGlobal), body: &'a [u8]) -> Reading<'a> {
    let mut timed = session_of(rt, body);
    give(rt, &mut timed, HEAD);
    assert!(rt; read_head(rt, &mut timed, 0) == Told::Gives(43));
    Reading {
        timed,
        left: body,
        held: Vec::new(rt.alloc()),
    }
}

/// The numbers of a read. A test would carry all of them through its loop, and needs none.
fn numbers(i: usize) -> (usize, usize) {
    match READS.get(i) {
        Some(numbers) => *numbers,
        None => (0, 0),
    }
}

/// Makes a read, which has to give what comes next of the body.
fn read_piece(rt: &impl Abort, reading: &mut Reading, i: usize) {
    let piece = next_piece(rt, &mut reading.timed, i);
    reading.left = left_behind(rt, reading.left, piece.as_slice(), i);
}

/// Makes a read, and holds the piece.
fn hold_piece(rt: &impl Abort, reading: &mut Reading, i: usize) {
    let piece = next_piece(rt, &mut reading.timed, i);
    assert!(rt; reading.held.push(piece).is_ok());
}

/// A piece that is held has to be what comes next of the body.
fn judge_held(rt: &impl Abort, reading: &mut Reading, i: usize) {
    let piece = reading.held.get(i).expect(rt, "a piece is held");
    reading.left = left_behind(rt, reading.left, piece.as_slice(), i);
}

/// Has the peer send so many bytes more, and reads once.
fn next_piece(rt: &impl Abort, timed: &mut Timed, i: usize) -> Bytes {
    let (sent, _) = numbers(i);
    send(rt, timed, sent);
    payload(rt, timed, 0).expect(rt, "payload is there")
}

/// What is left of the body behind a piece, which has to be as long as the read gives.
fn left_behind<'a>(rt: &impl Abort, left: &'a [u8], piece: &[u8], i: usize) -> &'a [u8] {
    let (_, came) = numbers(i);
    assert_eq!(rt; piece.len(), came, "read {i}");
    let (front, rest) = left
        .split_at_checked(came)
        .expect(rt, "so many bytes are left");
    assert!(rt; front == piece, "read {i}");
    rest
}
