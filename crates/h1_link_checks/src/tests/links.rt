//! Links in memory, as their owners and callers use them.
use super::{Tried, flushes, gives, gives_none, shut_down, takes, write};
use h1_link::{DummyIO, FlushStep, MemLink, ReadStep, WriteStep};
use std::alloc::Global;
use std::process::Abort;

/// A link in memory with nothing ahead.
fn mem_link(alloc: Global) -> Tried<MemLink> {
    Tried {
        link: MemLink::new(alloc),
    }
}

/// A link in memory that these bytes are put ahead of.
fn mem_link_of(rt: &(impl Abort + AllocGlobal), bytes: &[u8]) -> Tried<MemLink> {
    let mut link = MemLink::new(rt.alloc());
    link.give(bytes).expect(rt, "memory");
    Tried { link }
}

/// A link whose reads give these bytes and then wait.
fn dummy_of(rt: &(impl Abort + AllocGlobal), bytes: &[u8]) -> Tried<DummyIO> {
    let link = DummyIO::new(rt.alloc(), bytes).expect(rt, "memory");
    Tried { link }
}

/// Ends the link after what is ahead, and lets the next read fail.
fn end_behind_a_fault(tried: &mut Tried<MemLink>) {
    tried.link.end();
    tried.link.fail_next_read();
}

/// Lets every write and flush wait, and the next write fail.
fn block_behind_a_fault(tried: &mut Tried<MemLink>) {
    tried.link.block();
    tried.link.fail_next_write();
}

/// Takes that many bytes more, and then lets writes wait.
fn make_room(tried: &mut Tried<MemLink>, count: u64) {
    tried.link.room(count);
}

fn given(tried: &Tried<MemLink>) -> &[u8] {
    tried.link.rule();
    tried.link.given()
}

fn written(tried: &Tried<MemLink>) -> &[u8] {
    tried.link.written()
}

fn flushed(tried: &Tried<MemLink>) -> u64 {
    tried.link.flushed()
}

fn is_shut(tried: &Tried<MemLink>) -> bool {
    tried.link.is_shut()
}

#[test]
fn a_link_gives_what_was_put_ahead_then_waits_then_ends(rt: HostRuntime) {
    let mut link = mem_link_of(&rt, b"GET / ");
    gives(&rt, &mut link, 4, b"GET ");
    gives(&rt, &mut link, 4, b"/ ");
    gives_none(&rt, &mut link, ReadStep::NotReady);
    end_behind_a_fault(&mut link);
    gives_none(&rt, &mut link, ReadStep::Failed);
    gives_none(&rt, &mut link, ReadStep::End);
    assert_eq!(rt; given(&link), b"GET / ".as_slice());
}

#[test]
fn a_link_takes_everything_until_its_room_is_used_up(rt: HostRuntime) {
    let mut link = mem_link(rt.alloc());
    takes(&rt, &mut link, b"HTTP/1.1 ");
    flushes(&rt, &mut link, FlushStep::Done);
    make_room(&mut link, 2);
    assert_eq!(rt; write(&mut link, b"200 OK"), WriteStep::Took(2));
    assert_eq!(rt; write(&mut link, b"0 OK"), WriteStep::NotReady);
    assert_eq!(rt; flushed(&link), 9);
    flushes(&rt, &mut link, FlushStep::Done);
    assert_eq!(rt; flushed(&link), 11);
    assert_eq!(rt; written(&link), b"HTTP/1.1 20".as_slice());
}

#[test]
fn a_blocked_link_takes_nothing_and_a_planned_fault_comes_first(rt: HostRuntime) {
    let mut link = mem_link(rt.alloc());
    block_behind_a_fault(&mut link);
    assert_eq!(rt; write(&mut link, b"a"), WriteStep::Failed);
    assert_eq!(rt; write(&mut link, b"a"), WriteStep::NotReady);
    flushes(&rt, &mut link, FlushStep::NotReady);
    assert!(rt; !is_shut(&link));
    shut_down(&mut link);
    assert!(rt; is_shut(&link));
}

#[test]
fn a_dummy_gives_its_bytes_and_waits(rt: HostRuntime) {
    let mut link = dummy_of(&rt, b"abc");
    gives(&rt, &mut link, 8, b"abc");
    gives_none(&rt, &mut link, ReadStep::NotReady);
    takes(&rt, &mut link, b"HTTP/1.1");
    flushes(&rt, &mut link, FlushStep::Done);
    shut_down(&mut link);
    link.link.rule();
}
