//! Bodies that come and go, and the calls of them.
use bytes::{Bytes, BytesMut};
use h1_body::{
    BodyBytes, BodyReader, BodyWriter, FeedState, FixedBuffer, Framing, Gathering, Payload, Wire,
};
use h1_error::Error;
use h1_head::Room;
use std::alloc::Global;
use std::marker::Model;
use std::process::Abort;

/// Bytes one after another, of which contracts see nothing.
#[derive(Drop)]
pub(super) struct Joined {
    bytes: BodyBytes,
}

impl Model for Joined {
    ghost Value = { Unit {0} };

    ghost view = { λ _. tt };
}

pub(super) fn no_bytes(alloc: Global) -> Joined {
    let bytes = BodyBytes::new(alloc);
    Joined { bytes }
}

pub(super) fn append(rt: &impl Abort, joined: &mut Joined, more: &[u8]) {
    joined.bytes.append(more).expect(rt, "memory");
}

pub(super) fn bytes_of(joined: &Joined) -> &[u8] {
    joined.bytes.as_slice()
}

/// A reader of a body, of which contracts see nothing.
#[derive(Drop)]
pub(super) struct Fed {
    reader: BodyReader,
}

impl Model for Fed {
    ghost Value = { Unit {0} };

    ghost view = { λ _. tt };
}

pub(super) fn reader_of(framing: Framing) -> Fed {
    let reader = BodyReader::new(framing);
    Fed { reader }
}

/// Feeds a piece, whose payload is joined to what came before: how many bytes were used.
pub(super) fn feed_into(
    rt: &impl Abort,
    fed: &mut Fed,
    piece: &[u8],
    payload: &mut Joined,
) -> usize {
    fed.reader
        .feed_into(piece, &mut payload.bytes)
        .expect(rt, "memory")
        .used
}

/// Feeds a piece: the state that it comes to.
pub(super) fn feed(fed: &mut Fed, piece: &[u8]) -> FeedState {
    fed.reader.feed(piece).state
}

pub(super) fn state(fed: &Fed) -> FeedState {
    fed.reader.state()
}

/// What the end of the link makes of the body.
pub(super) fn ended(fed: &mut Fed) -> FeedState {
    fed.reader.ended()
}

/// Received bytes, the reader of the chunked body in their front, and its payload. Contracts see
/// nothing of them.
#[derive(Drop)]
pub(super) struct Received {
    buf: BytesMut,
    reader: BodyReader,
    payload: Payload,
    room: Room,
}

impl Model for Received {
    ghost Value = { Unit {0} };

    ghost view = { λ _. tt };
}

pub(super) fn receive(
    rt: &impl Abort,
    alloc: Global,
    bytes: &[u8],
    gathering: Gathering,
) -> Received {
    Received {
        buf: BytesMut::copy_from_slice(alloc, bytes).expect(rt, "memory"),
        reader: BodyReader::new(Framing::Chunked),
        payload: Payload::new(alloc, gathering),
        room: Room::new(alloc),
    }
}

/// Takes the next piece of payload: the piece, and the state.
pub(super) fn take(rt: &impl Abort, received: &mut Received) -> (Option<Bytes>, FeedState) {
    let taken = received
        .reader
        .take(&mut received.buf, &mut received.room)
        .expect(rt, "memory");
    (taken.payload, taken.state)
}

/// Takes the next piece of payload, and notes it as read: the piece, and the state.
pub(super) fn take_into(received: &mut Received) -> Result<(Option<Bytes>, FeedState), Error> {
    let taken = received.reader.take_into(
        &mut received.buf,
        &mut received.payload,
        &mut received.room,
    )?;
    Ok((taken.payload, taken.state))
}

/// The bytes that are left.
pub(super) fn left(received: &Received) -> &[u8] {
    received.buf.as_slice()
}

/// The payload that is held.
pub(super) fn held(received: &Received) -> Option<&[u8]> {
    received.payload.held()
}

/// How much payload is noted as read.
pub(super) fn read_len(received: &Received) -> u64 {
    received.payload.len()
}

/// Lets go of the payload.
pub(super) fn clear(received: &mut Received) {
    received.payload.clear();
}

/// A writer of a body, and what it wrote. Contracts see nothing of them.
#[derive(Drop)]
pub(super) struct Written {
    writer: BodyWriter,
    out: BodyBytes,
}

impl Model for Written {
    ghost Value = { Unit {0} };

    ghost view = { λ _. tt };
}

pub(super) fn writer_of(alloc: Global, framing: Framing) -> Written {
    let mut writer = BodyWriter::new();
    writer.begin(framing);
    let out = BodyBytes::new(alloc);
    Written { writer, out }
}

/// Writes a piece of payload.
pub(super) fn write(rt: &impl Abort, written: &mut Written, piece: &'static [u8]) {
    let wire = written
        .writer
        .piece(Bytes::from_static(piece))
        .expect(rt, "memory");
    send(rt, &mut written.out, wire);
}

/// Ends the body.
pub(super) fn finish(rt: &impl Abort, written: &mut Written) -> Result<(), Error> {
    let wire = written.writer.finish()?;
    send(rt, &mut written.out, wire);
    Ok(())
}

/// Adds what a wire holds, piece by piece.
fn send(rt: &impl Abort, out: &mut BodyBytes, mut wire: Wire) {
    for _ in 0..3 {
        send_front(rt, out, &mut wire);
    }
}

fn send_front(rt: &impl Abort, out: &mut BodyBytes, wire: &mut Wire) {
    let front = wire.front();
    let count = front.len();
    out.append(front).expect(rt, "memory");
    wire.advance(count);
}

pub(super) fn is_finished(written: &Written) -> bool {
    written.writer.finished()
}

/// The bytes that were written.
pub(super) fn sent(written: &Written) -> &[u8] {
    written.out.as_slice()
}

/// A buffer of fixed capacity, of which contracts see nothing.
#[derive(Drop)]
pub(super) struct Kept {
    buffer: FixedBuffer,
}

impl Model for Kept {
    ghost Value = { Unit {0} };

    ghost view = { λ _. tt };
}

pub(super) fn buffer_of(alloc: Global, capacity: usize) -> Kept {
    let buffer = FixedBuffer::new(alloc, capacity);
    Kept { buffer }
}

pub(super) fn keep(rt: &impl Abort, kept: &mut Kept, piece: &'static [u8]) {
    let piece = Bytes::from_static(piece);
    kept.buffer.write_to_buffer(&piece).expect(rt, "memory");
}

/// What the buffer gives.
pub(super) fn given(rt: &impl Abort, kept: &Kept) -> Option<Bytes> {
    kept.buffer.get_buffer().expect(rt, "memory")
}

pub(super) fn is_truncated(kept: &Kept) -> bool {
    kept.buffer.is_truncated()
}

pub(super) fn is_empty(kept: &Kept) -> bool {
    kept.buffer.is_empty()
}

/// Lets go of what is kept.
pub(super) fn let_go(kept: &mut Kept) {
    kept.buffer.clear();
}
