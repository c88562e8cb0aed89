//! What a link over TCP holds and sends, as the stream below it sees it.
use super::{Tried, flushes, shut_down, takes, write};
use h1_link::{FlushStep, TcpLink, WriteStep};
use std::alloc::Global;
use std::io::{self, ErrorKind, Read, Write};
use std::net::{OpenStream, Shutdown};
use std::process::Abort;
use std::sync::Arc;
use std::sync::atomic::{AtomicU8, AtomicU64, AtomicUsize, Ordering};
use std::time::Duration;

/// How many of the bytes that a stream took are kept.
const KEPT: usize = 64;

/// How many writes a stream was asked for, how many bytes it took, and the first of them.
#[derive(Drop)]
struct Seen {
    writes: AtomicU64,
    count: AtomicUsize,
    first: Vec<AtomicU8>,
}

/// Nothing was taken yet.
fn nothing_seen(rt: &(impl Abort + AllocGlobal)) -> Arc<Seen> {
    let mut first = Vec::new(rt.alloc());
    for _ in 0..KEPT {
        first.push(AtomicU8::new(0)).expect(rt, "memory");
    }
    let seen = Seen {
        writes: AtomicU64::new(0),
        count: AtomicUsize::new(0),
        first,
    };
    Arc::new(rt.alloc(), seen).expect(rt, "memory")
}

/// Notes these bytes behind those before.
fn note(seen: &Seen, bytes: &[u8]) {
    for byte in bytes {
        let at = seen.count.fetch_add(1, Ordering::SeqCst);
        if let Some(place) = seen.first.get(at) {
            place.store(*byte, Ordering::SeqCst);
        }
    }
}

/// Whether these bytes were taken and no other.
fn is_taken(seen: &Seen, bytes: &[u8]) -> bool {
    for (place, byte) in seen.first.iter().zip(bytes) {
        if place.load(Ordering::SeqCst) != *byte {
            return false;
        }
    }
    bytes.len() <= KEPT && taken_count(seen) == bytes.len()
}

fn taken_count(seen: &Seen) -> usize {
    seen.count.load(Ordering::SeqCst)
}

fn writes(seen: &Seen) -> u64 {
    seen.writes.load(Ordering::SeqCst)
}

/// A stream that takes at most so many bytes in a write, and lets every second write wait.
#[derive(Drop)]
struct Slow {
    most: usize,
    seen: Arc<Seen>,
}

impl Read for Slow {
    fn read(&mut self, _buf: &mut [u8]) -> io::Result<usize> {
        Ok(0)
    }
}

impl Write for Slow {
    fn write(&mut self, buf: &[u8]) -> io::Result<usize> {
        let before = self.seen.writes.fetch_add(1, Ordering::SeqCst);
        if !before.is_multiple_of(2) {
            return Err(io::Error::from(ErrorKind::WouldBlock));
        }
        let count = buf.len().min(self.most);
        note(&self.seen, &buf[..count]);
        Ok(count)
    }

    fn flush(&mut self) -> io::Result<()> {
        Ok(())
    }
}

impl OpenStream for Slow {
    fn shutdown(&self, _how: Shutdown) -> io::Result<()> {
        Ok(())
    }

    fn set_nodelay(&self, _nodelay: bool) -> io::Result<()> {
        Ok(())
    }

    fn set_read_timeout(&self, _dur: Option<Duration>) -> io::Result<()> {
        Ok(())
    }

    fn set_write_timeout(&self, _dur: Option<Duration>) -> io::Result<()> {
        Ok(())
    }
}

/// A link over a stream that takes at most so many bytes in a write, and notes them here.
fn slow_link(
    rt: &(impl Abort + AllocGlobal),
    most: usize,
    seen: &Arc<Seen>,
) -> Tried<TcpLink<Slow>> {
    let seen = Arc::try_clone(seen).expect(rt, "memory");
    let link = TcpLink::new(rt.alloc(), Slow { most, seen }).expect(rt, "no link");
    Tried { link }
}

/// Asks that the value may go to another thread.
fn needs_send<T: Send>(_value: &T) {}

/// A link over each stream that may go to another thread may go there too.
fn may_go<S: Read + Write + OpenStream + Drop + Send>(link: &TcpLink<S>) {
    needs_send(link);
}

#[test]
fn the_parts_of_a_reply_leave_in_one_write(rt: HostRuntime) {
    let seen = nothing_seen(&rt);
    let mut link = slow_link(&rt, 8_192, &seen);
    takes(
        &rt,
        &mut link,
        b"HTTP/1.1 200 OK\r\ncontent-length: 2\r\n\r\n",
    );
    takes(&rt, &mut link, b"ok");
    assert_eq!(rt; writes(&seen), 0);
    flushes(&rt, &mut link, FlushStep::Done);
    assert_eq!(rt; writes(&seen), 1);
    assert!(rt; is_taken(&seen, b"HTTP/1.1 200 OK\r\ncontent-length: 2\r\n\r\nok"));
}

#[test]
fn a_flush_that_waited_goes_on_where_it_stopped(rt: HostRuntime) {
    let seen = nothing_seen(&rt);
    let mut link = slow_link(&rt, 3, &seen);
    takes(&rt, &mut link, b"HTTP/");
    takes(&rt, &mut link, b"1.1");
    flushes(&rt, &mut link, FlushStep::NotReady);
    assert!(rt; is_taken(&seen, b"HTT"));
    flushes(&rt, &mut link, FlushStep::NotReady);
    assert!(rt; is_taken(&seen, b"HTTP/1"));
    flushes(&rt, &mut link, FlushStep::Done);
    assert!(rt; is_taken(&seen, b"HTTP/1.1"));
}

/// A piece as long as what a link holds at most.
static PIECE: [u8; 8_192] = [b'a'; 8_192];

#[test]
fn a_large_piece_leaves_at_once_behind_what_is_held(rt: HostRuntime) {
    let seen = nothing_seen(&rt);
    let mut link = slow_link(&rt, 10_000, &seen);
    takes(&rt, &mut link, b"\r\n");
    assert_eq!(rt; write(&mut link, &PIECE), WriteStep::NotReady);
    assert!(rt; is_taken(&seen, b"\r\n"));
    takes(&rt, &mut link, &PIECE);
    assert_eq!(rt; taken_count(&seen), 8_194);
}

#[test]
fn a_shutdown_sends_what_is_held(rt: HostRuntime) {
    let seen = nothing_seen(&rt);
    let mut link = slow_link(&rt, 100, &seen);
    takes(&rt, &mut link, b"HTTP/1.1");
    shut_down(&mut link);
    assert!(rt; is_taken(&seen, b"HTTP/1.1"));
}

#[test]
fn a_shutdown_sends_again_what_waited_and_a_second_sends_nothing(rt: HostRuntime) {
    let seen = nothing_seen(&rt);
    let mut link = slow_link(&rt, 3, &seen);
    for _ in 0..2 {
        takes(&rt, &mut link, b"HTTP/1.1");
        shut_down(&mut link);
        assert!(rt; is_taken(&seen, b"HTTP/1.1"));
    }
}

#[test]
fn a_link_may_go_to_another_thread(rt: HostRuntime) {
    let seen = nothing_seen(&rt);
    let link = slow_link(&rt, 1, &seen);
    may_go(&link.link);
}
