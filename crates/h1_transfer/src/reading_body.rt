//! Reading a part of a request's body off the link (RFC 9112, section 6).
ghost use Rattle.std.specs.Prelude.{◌≡◌, ◌<◌, ◌≤◌, ◌+◌, ℕ, List, []};
ghost use Rattle.h1_body.specs.Body.{unfinished};
ghost use Rattle.h1_body.specs.Reader.{reads};
ghost use Rattle.h1_transfer.specs.Decoding.{ReadsBody, BodyCause, StopCause, IsUnfinished, payload_of};
ghost use Rattle.h1_transfer.specs.Calls.{Called, is_part, is_done, fault_of_read, fault_of_stop};

use crate::Kept;
use crate::receiving::{Filled, fill_on};
use crate::taking::{TakeStep, take};
use bytes::{Bytes, BytesMut};
use h1_body::{BodyReader, FeedState};
use h1_head::Room;
use h1_link::Link;

/// Why the reading of a body goes no further.
#[derive(Clone, Copy, Debug, PartialEq, Eq)]
pub enum BodyStop {
    /// The body is at its end.
    Done,
    /// The bytes of the body are none that its framing allows.
    Broken,
    /// The link ended inside the body.
    Cut,
    NotReady,
    /// No further link call may move bytes.
    Spent,
    Failed,
    /// The body goes on past the limit of the payload that is kept of it.
    TooLarge,
    NoMemory,
}

/// What reading a part of a body came to.
#[derive(Drop)]
pub enum BodyRead {
    /// Payload, which is not empty.
    Piece(Bytes),
    Stopped(BodyStop),
}

/// Reads until payload is there, the body ends or reading can't go on. What is received already
/// is used before the first read. How many bytes the last read of the body gave is noted for the
/// next one (`fill_on`).
#[tactic(auto, using(crate::proofs::BodyLemmas::body_took, crate::proofs::BodyLemmas::body_filled))]
#[inline(always)]
pub fn read_body<L: Link>(
    link: &mut L,
    received: &mut BytesMut,
    reader: &mut BodyReader,
    kept: &mut Kept,
    room: &mut Room,
    came: &mut usize,
    budget: &mut u32,
) -> BodyRead
    ensures reads { ReadsBody (L.state link.old)
        (L.state link.new) received.old.items received.new.items reader.old reader.new kept.old
        kept.new budget.old budget.new (payload_of result) }
    ensures cause { BodyCause (L.state link.old) (L.state link.new) kept.new reader.new
        received.new.items budget.new result }
    ensures few { (L.state link.new).read_waits ≤ (L.state link.old).read_waits + 1 }
    ensures parsed { budget.new < budget.old → reads reader.old received.old.items ≡ unfinished [] }
    ensures calls { Called (L.state link.old) (L.state link.new) (is_part result)
        (fault_of_read result) }
    ensures plan { L.same_plan link.old link.new }
{
    'reads: loop {
        match take(received, reader, kept, room) {
            Ok(TakeStep::Piece(bytes)) => return BodyRead::Piece(bytes),
            Ok(TakeStep::Done) => return BodyRead::Stopped(BodyStop::Done),
            Ok(TakeStep::Broken) => return BodyRead::Stopped(BodyStop::Broken),
            Ok(TakeStep::TooLarge) => return BodyRead::Stopped(BodyStop::TooLarge),
            Ok(TakeStep::Lacks) => {}
            Err(_) => return BodyRead::Stopped(BodyStop::NoMemory),
        }
        if *budget == 0 {
            return BodyRead::Stopped(BodyStop::Spent);
        }
        match fill_on(link, received, *came) {
            Filled::Got => {
                *came = received.len();
                *budget -= 1;
            }
            Filled::End => return BodyRead::Stopped(BodyStop::Cut),
            Filled::NotReady => return BodyRead::Stopped(BodyStop::NotReady),
            Filled::Failed => return BodyRead::Stopped(BodyStop::Failed),
            Filled::NoMemory => return BodyRead::Stopped(BodyStop::NoMemory),
        }
    }
}

/// Reads on until the body ends or can't be read on.
#[inline(always)]
pub fn drain_body<L: Link>(
    link: &mut L,
    received: &mut BytesMut,
    reader: &mut BodyReader,
    kept: &mut Kept,
    room: &mut Room,
    came: &mut usize,
    budget: &mut u32,
) -> BodyStop
    ensures reads { (payload : List ℕ)
        × ReadsBody (L.state link.old)
        (L.state link.new) received.old.items received.new.items reader.old reader.new kept.old
        kept.new budget.old budget.new payload }
    ensures cause { StopCause (L.state link.old) (L.state link.new) kept.new reader.new
        received.new.items budget.new result }
    ensures few { (L.state link.new).read_waits ≤ (L.state link.old).read_waits + 1 }
    ensures parsed { budget.new < budget.old → IsUnfinished (reads reader.old received.old.items) }
    ensures calls { Called (L.state link.old) (L.state link.new) (is_done result)
        (fault_of_stop result) }
    ensures plan { L.same_plan link.old link.new }
{
    // Of most bodies nothing is left.
    match reader.state() {
        FeedState::Done => BodyStop::Done,
        FeedState::More | FeedState::Broken => {
            drain_rest(link, received, reader, kept, room, came, budget)
        }
    }
}

/// The same of a body of which something may be left.
#[inline(never)]
fn drain_rest<L: Link>(
    link: &mut L,
    received: &mut BytesMut,
    reader: &mut BodyReader,
    kept: &mut Kept,
    room: &mut Room,
    came: &mut usize,
    budget: &mut u32,
) -> BodyStop
    ensures reads { (payload : List ℕ)
        × ReadsBody (L.state link.old)
        (L.state link.new) received.old.items received.new.items reader.old reader.new kept.old
        kept.new budget.old budget.new payload }
    ensures cause { StopCause (L.state link.old) (L.state link.new) kept.new reader.new
        received.new.items budget.new result }
    ensures few { (L.state link.new).read_waits ≤ (L.state link.old).read_waits + 1 }
    ensures parsed { budget.new < budget.old → IsUnfinished (reads reader.old received.old.items) }
    ensures calls { Called (L.state link.old) (L.state link.new) (is_done result)
        (fault_of_stop result) }
    ensures plan { L.same_plan link.old link.new }
{
    'drains: loop {
        let read = read_body(link, received, reader, kept, room, came, budget);
        // What is received is bounded by its buffer before the next read.
        let _left_over = received.len();
        match read {
            BodyRead::Piece(payload) => drop(payload),
            BodyRead::Stopped(stop) => return stop,
        }
    }
}
