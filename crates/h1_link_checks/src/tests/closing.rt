//! In which order a stream is closed, as the stream sees it.
use super::{Tried, shut_down, write};
use h1_link::{CLOSE_BYTES, CLOSE_WAITS, TcpLink, WriteStep};
use std::io::{self, ErrorKind, Read, Write};
use std::net::{OpenStream, Shutdown};
use std::process::Abort;
use std::sync::Arc;
use std::sync::atomic::{AtomicU64, AtomicUsize, Ordering};
use std::time::Duration;

/// The bytes left, and what was done: 1 for a write, 2 once the way out is closed, 3 for a read of
/// the end, 4 once both ways are closed, one digit after the other.
#[derive(Drop)]
struct Seen {
    unread: AtomicUsize,
    waits: AtomicU64,
    done: AtomicU64,
}

/// A peer that has sent bytes, and gives at most so many of them in a read. Then it ends or waits.
#[derive(Drop)]
struct Talker {
    seen: Arc<Seen>,
    most: usize,
    ends: bool,
}

/// Notes this digit behind those before.
fn note(seen: &Seen, digit: u64) {
    let before = seen.done.load(Ordering::SeqCst);
    let after = before.saturating_mul(10).saturating_add(digit);
    seen.done.store(after, Ordering::SeqCst);
}

impl Read for Talker {
    fn read(&mut self, buf: &mut [u8]) -> io::Result<usize> {
        let left = self.seen.unread.load(Ordering::SeqCst);
        if left > 0 {
            let count = buf.len().min(self.most).min(left);
            self.seen
                .unread
                .store(left.saturating_sub(count), Ordering::SeqCst);
            return Ok(count);
        }
        if self.ends {
            note(&self.seen, 3);
            return Ok(0);
        }
        self.seen.waits.fetch_add(1, Ordering::SeqCst);
        Err(io::Error::from(ErrorKind::WouldBlock))
    }
}

impl Write for Talker {
    fn write(&mut self, buf: &[u8]) -> io::Result<usize> {
        note(&self.seen, 1);
        Ok(buf.len())
    }

    fn flush(&mut self) -> io::Result<()> {
        Ok(())
    }
}

impl OpenStream for Talker {
    fn shutdown(&self, how: Shutdown) -> io::Result<()> {
        note(&self.seen, if how == Shutdown::Write { 2 } else { 4 });
        Ok(())
    }

    fn set_nodelay(&self, _nodelay: bool) -> io::Result<()> {
        Ok(())
    }

    fn set_read_timeout(&self, _dur: Option<Duration>) -> io::Result<()> {
        Ok(())
    }

    fn set_write_timeout(&self, _dur: Option<Duration>) -> io::Result<()> {
        Ok(())
    }

    fn try_clone(&self) -> io::Result<Talker> {
        Ok(Talker {
            seen: Arc::try_clone(&self.seen)?,
            most: self.most,
            ends: self.ends,
        })
    }
}

/// What was seen of the close of a link that took two bytes and read none of so many.
fn closed(rt: &(impl Abort + AllocGlobal), unread: usize, most: usize, ends: bool) -> Arc<Seen> {
    let seen = Seen {
        unread: AtomicUsize::new(unread),
        waits: AtomicU64::new(0),
        done: AtomicU64::new(0),
    };
    let seen = Arc::new(rt.alloc(), seen).expect(rt, "memory");
    let talker = Talker {
        seen: Arc::try_clone(&seen).expect(rt, "memory"),
        most,
        ends,
    };
    let mut tried = Tried {
        link: TcpLink::new(rt.alloc(), talker).expect(rt, "no link"),
    };
    let _: WriteStep = write(&mut tried, b"ok");
    shut_down(&mut tried);
    seen
}

/// How many bytes were left.
fn unread(seen: &Seen) -> usize {
    seen.unread.load(Ordering::SeqCst)
}

/// What was done, a digit each.
fn done(seen: &Seen) -> u64 {
    seen.done.load(Ordering::SeqCst)
}

#[test]
fn what_was_not_read_is_read_before_both_ways_are_closed(rt: HostRuntime) {
    let seen = closed(&rt, 100_000, 8_192, true);
    assert_eq!(rt; unread(&seen), 0);
    assert_eq!(rt; done(&seen), 1_234);
}

#[test]
fn a_close_waits_for_the_peers_end_so_often_and_no_more(rt: HostRuntime) {
    let seen = closed(&rt, 5_000, 8_192, false);
    assert_eq!(rt; unread(&seen), 0);
    assert_eq!(rt; seen.waits.load(Ordering::SeqCst), u64::from(CLOSE_WAITS));
    assert_eq!(rt; done(&seen), 124);
}

#[test]
fn a_close_drops_so_many_bytes_and_no_more(rt: HostRuntime) {
    let seen = closed(&rt, CLOSE_BYTES + 5, 5_000, true);
    assert_eq!(rt; unread(&seen), 5);
    assert_eq!(rt; done(&seen), 124);
}

#[test]
fn a_peer_that_sends_byte_by_byte_is_not_waited_for_longer(rt: HostRuntime) {
    let seen = closed(&rt, 1_000, 1, true);
    assert_eq!(rt; unread(&seen), 950);
    assert_eq!(rt; done(&seen), 124);
}
