//! A client's session that writes a request that was read.
use super::{Client, Forward, Reader, Writer};
use bytes::Bytes;
use futures::task::Poll;
use h1_forward::Stage;
use h1_link::MemLink;
use std::process::Abort;

/// A client's session that is to write the request that was read.
pub(crate) fn writer_of(rt: &(impl Abort + AllocGlobal), reader: &mut Reader) -> Writer {
    assert!(rt; reader.session.has_request());
    let (Ok(head), Ok(body)) = (
        reader.session.req_header().copy(),
        Bytes::copy_from_slice(rt.alloc(), reader.payload.as_slice()),
    ) else {
        panic!(rt; "no memory for a request");
    };
    Writer {
        session: Client::new(rt.alloc(), MemLink::new(rt.alloc())),
        forward: Forward::new(head, body),
    }
}

/// Takes steps until the request is written, with room for so many bytes before each.
pub(crate) fn write(rt: &impl Abort, writer: &mut Writer, room: u64) {
    for _ in 0..1_000u32 {
        if writer.forward.stage() == Stage::Done {
            return;
        }
        writer.session.with_link(|link| link.room(room));
        step(rt, writer);
    }
    panic!(rt; "the request isn't written");
}

/// Takes a step.
fn step(rt: &impl Abort, writer: &mut Writer) {
    assert!(rt; writer.forward.is_at(&writer.session));
    if let Poll::Ready(Err(error)) = writer.forward.poll_step(&mut writer.session, 0) {
        panic!(rt; "{error}");
    }
}
