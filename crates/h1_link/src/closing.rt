//! How a stream is closed in stages (RFC 9112, section 9.6).
ghost use Rattle.std.specs.Io.KnownBytes.{Keeps};
ghost use Rattle.std.specs.Io.Buffered.{writer_contents};

use std::io::{self, BufWriter, ErrorKind, Read, Write};
use std::net::{OpenStream, Shutdown};

/// How long a read or a write waits for the peer, in milliseconds.
pub const WAIT: u64 = 20;

/// How often a close waits for a peer that takes nothing, and again for one that sends next to
/// nothing: with 20 milliseconds for each wait, a second each.
pub const CLOSE_WAITS: u32 = 50;

/// How many bytes a close reads and drops at most.
pub const CLOSE_BYTES: usize = 16 * 1_024 * 1_024;

/// A read of fewer bytes counts as a wait, since it may have waited as long.
pub const CLOSE_PIECE: usize = 1_024;

/// How many bytes a close reads at a time.
const ROOM: usize = 8_192;

/// Each read drops a piece or counts as a wait, so more of them are never needed.
const READS: usize = CLOSE_BYTES / CLOSE_PIECE + CLOSE_WAITS as usize;

/// Whether the peer may be ready at a later call. The system's errors have no meaning in contracts,
/// so it promises nothing.
pub fn is_wait(error: &io::Error) -> bool {
    matches!(
        error.kind(),
        ErrorKind::WouldBlock | ErrorKind::TimedOut | ErrorKind::Interrupted
    )
}

/// Closes a stream so that the peer can read all that was sent: what is held is sent, the way out is
/// closed, what the peer still sends is read and dropped, and then both ways are closed. A stream
/// that is closed over unread bytes is reset, and a reset takes from the peer what it hasn't read.
///
/// What can't be sent is lost, and a stream that the peer has closed can't be shut down again:
/// neither is a fault.
pub fn close<S: Read + Write + OpenStream + Drop>(stream: &mut BufWriter<S>)
    ensures { Keeps (writer_contents S.Write.contents stream.old)
        (writer_contents S.Write.contents stream.new) }
{
    send_held(stream);
    let stream = stream.get_ref();
    let _ = stream.shutdown(Shutdown::Write);
    // They are read from another handle of it, since no contract says that a stream keeps the bytes
    // that it took while it is read.
    if let Ok(mut other) = stream.try_clone() {
        drop_rest(&mut other);
    }
    let _ = stream.shutdown(Shutdown::Both);
}

/// Sends what is held, again while the peer isn't ready.
fn send_held<W: Write + Drop>(stream: &mut BufWriter<W>)
    ensures { Keeps (writer_contents W.contents stream.old)
        (writer_contents W.contents stream.new) }
{
    for _ in 0..CLOSE_WAITS {
        match stream.flush() {
            Err(error) if is_wait(&error) => {}
            _ => return,
        }
    }
}

/// Reads and drops what the peer sends until its end, a fault, [`CLOSE_WAITS`] waits or
/// [`CLOSE_BYTES`] bytes. A reader's state says nothing of what it is still to give, so no promise
/// could tell these ends apart.
pub fn drop_rest<S: Read>(stream: &mut S) {
    let mut room = [0u8; ROOM];
    let mut left = CLOSE_BYTES;
    let mut waits = 0u32;
    for _ in 0..READS {
        match stream.read(&mut room[..left.min(ROOM)]) {
            Ok(0) => return,
            Ok(count) => {
                left = left.saturating_sub(count);
                waits = waits.saturating_add(u32::from(count < CLOSE_PIECE));
            }
            Err(error) if is_wait(&error) => waits = waits.saturating_add(1),
            Err(_) => return,
        }
        if left == 0 || waits >= CLOSE_WAITS {
            return;
        }
    }
}
