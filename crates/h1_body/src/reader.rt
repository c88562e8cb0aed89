//! Reading a body from pieces of any size (RFC 9112, sections 6 and 7.1).
ghost use Rattle.std.specs.Prelude.{◌≡◌, ◌≤◌, ◌++◌, ℕ, List, [], length, true, false, slice_range, IfOk, IfErr, OnErr};
ghost use Rattle.h1_error.specs.Memory.{no_memory};
ghost use Rattle.h1_body.specs.Body.{stop_of, whole, unfinished};
ghost use Rattle.h1_body.specs.Chunks.{chunked};
ghost use Rattle.h1_body.specs.Reader.{body, counted, reads, closes_with_link, is_until_close};
ghost use Rattle.h1_body.specs.Feeds.{Feeds};
ghost use Rattle.h1_body.specs.Payload.{TakeFault, grown};
ghost use Rattle.h1_body.specs.Takes.{Cuts, HasNextRun, LacksRoom, Takes, payload_bytes};
ghost use Rattle.h1_body.specs.declared.fed.FeedState.TheVariants as state;

use crate::chunking::{Chunking, state_of, step};
use crate::payload::SHORT;
use crate::{BodyBytes, Fed, FeedState, Framing, Payload, Taken};
use bytes::{Bytes, BytesMut};
use h1_error::Error;
use h1_head::Room;

/// Reads the payload out of the bytes of one body.
#[derive(Clone, Copy, Debug, PartialEq, Eq)]
pub struct BodyReader {
    reading: Reading,
}

/// Where a reader stands in its body.
#[derive(Clone, Copy, Debug, PartialEq, Eq)]
pub enum Reading {
    /// So many bytes of the body are still to come.
    Counted(u64),
    /// In a chunked body.
    Chunked(Chunking),
    /// In a body that ends where the link does.
    UntilClose,
    /// After a body that ended where the link did.
    Ended,
}

impl BodyReader {
    /// A reader before a body.
    pub fn new(framing: Framing) -> Self
        ensures reads { (bytes : List ℕ) → reads result bytes ≡ body framing bytes }
        ensures closes { closes_with_link result ≡ is_until_close framing }
    {
        let reading = match framing {
            Framing::Counted(n) => Reading::Counted(n),
            Framing::Chunked => Reading::Chunked(Chunking::Start),
            Framing::UntilClose => Reading::UntilClose,
        };
        BodyReader { reading }
    }

    /// The state of all bytes used so far.
    pub fn state(&self) -> FeedState
        ensures { stop_of result ≡ reads self.now [] }
    {
        match self.reading {
            Reading::Counted(0) | Reading::Ended => FeedState::Done,
            Reading::Counted(_) | Reading::UntilClose => FeedState::More,
            Reading::Chunked(place) => state_of(place),
        }
    }

    /// Takes the bytes of a piece through the end of the first run of payload in it.
    #[inline(always)]
    pub fn feed(&mut self, piece: &[u8]) -> Fed
        ensures feeds { Feeds (reads self.old) (reads self.new) piece.now result }
        ensures closes { closes_with_link self.new ≡ closes_with_link self.old }
    {
        match self.reading {
            Reading::Counted(left) => {
                let (left, fed) = feed_counted(left, piece);
                self.reading = Reading::Counted(left);
                fed
            }
            Reading::Chunked(place) => {
                let (place, fed) = feed_chunks(place, piece);
                self.reading = Reading::Chunked(place);
                fed
            }
            Reading::UntilClose => feed_all(piece),
            Reading::Ended => feed_none(piece),
        }
    }

    /// Feeds a piece, and adds its payload to what is kept. Where there is no memory for it, the
    /// piece isn't fed.
    pub fn feed_into(&mut self, piece: &[u8], kept: &mut BodyBytes) -> Result<Fed, Error>
        ensures ok { IfOk result (λ fed. Feeds (reads self.old) (reads self.new) piece.now fed
            × (kept.new ≡ kept.old ++ slice_range piece.now fed.payload.start fed.payload.end)) }
        ensures err { IfErr result (λ error. (error ≡ no_memory)
            × HasNextRun self.old piece.now × (self.new ≡ self.old) × (kept.new ≡ kept.old)) }
        ensures closes { closes_with_link self.new ≡ closes_with_link self.old }
    {
        let mut next = *self;
        let fed = next.feed(piece);
        if !fed.payload.is_empty() {
            kept.append(&piece[fed.payload.start..fed.payload.end])?;
        }
        *self = next;
        Ok(fed)
    }

    /// Takes the first run of payload out of the front of received bytes, with the bytes of the
    /// body before it. A short run is copied into the room's memory; a longer one is not, and keeps
    /// the block alive that it was received in.
    #[inline(always)]
    pub fn take(&mut self, buf: &mut BytesMut, room: &mut Room) -> Result<Taken, Error>
        ensures ok { IfOk result
            (λ taken. Takes self.old self.new buf.old.items buf.new.items taken) }
        ensures err { IfErr result (λ error. (error ≡ no_memory)
            × HasNextRun self.old buf.old.items × (self.new ≡ self.old) × (buf.new ≡ buf.old)) }
        ensures closes { closes_with_link self.new ≡ closes_with_link self.old }
    {
        let mut behind = *self;
        let fed = behind.feed(buf.as_slice());
        let payload = cut_or_copy(buf, fed.payload.start, fed.payload.end, room)?;
        *self = behind;
        Ok(Taken {
            payload,
            state: fed.state,
        })
    }

    /// Takes as `take` does, and notes the payload as read. Where payload is held a copy is added to
    /// it; a short run before which nothing is held is copied into the room's memory, and the copy
    /// itself is handed out. A body that goes on past the payload's limit is refused.
    #[inline(always)]
    pub fn take_into(
        &mut self,
        buf: &mut BytesMut,
        kept: &mut Payload,
        room: &mut Room,
    ) -> Result<Taken, Error>
        ensures ok { IfOk result
            (λ taken. Takes self.old self.new buf.old.items buf.new.items taken
            × (kept.new ≡ grown (payload_bytes taken.payload) kept.old)) }
        ensures fault { IfErr result (TakeFault kept.old self.old buf.old.items) }
        ensures err { OnErr result ((self.new ≡ self.old) × (buf.new ≡ buf.old)
            × (kept.new ≡ kept.old)) }
        ensures closes { closes_with_link self.new ≡ closes_with_link self.old }
    {
        let mut after = *self;
        let fed = after.feed(buf.as_slice());
        let payload = kept.keep(buf, fed.payload.start, fed.payload.end, room)?;
        *self = after;
        Ok(Taken {
            payload,
            state: fed.state,
        })
    }

    /// Says what the end of the link makes of the body: `More` means that the body is cut.
    pub fn ended(&mut self) -> FeedState
        ensures closed { closes_with_link self.old ≡ true
            → (result ≡ state.Done) × (closes_with_link self.new ≡ false)
            × ((bytes : List ℕ) → reads self.new bytes ≡ whole [] 0) }
        ensures otherwise { closes_with_link self.old ≡ false
            → (stop_of result ≡ reads self.old []) × (self.new ≡ self.old) }
    {
        if let Reading::UntilClose = self.reading {
            self.reading = Reading::Ended;
        }
        self.state()
    }
}

/// Takes the bytes through this end out of the buffer, and hands out those from the start on.
#[inline(always)]
pub(crate) fn cut(buf: &mut BytesMut, start: usize, end: usize) -> Result<Option<Bytes>, Error>
    requires ordered { start ≤ end }
    requires within { end ≤ length buf.old.items }
    ensures ok { IfOk result (Cuts buf.old.items buf.new.items start end) }
    ensures err { IfErr result (λ error. LacksRoom start end error × (buf.new ≡ buf.old)) }
{
    if start == end {
        buf.advance(end);
        return Ok(None);
    }
    let mut piece = buf.freeze_to(end)?;
    piece.advance(start);
    Ok(Some(piece))
}

/// The same, but for a short run, of which a copy is handed out.
#[inline(always)]
fn cut_or_copy(
    buf: &mut BytesMut,
    start: usize,
    end: usize,
    room: &mut Room,
) -> Result<Option<Bytes>, Error>
    requires ordered { start ≤ end }
    requires within { end ≤ length buf.old.items }
    ensures ok { IfOk result (Cuts buf.old.items buf.new.items start end) }
    ensures err { IfErr result (λ error. LacksRoom start end error × (buf.new ≡ buf.old)) }
{
    if start == end || SHORT < end - start {
        return cut(buf, start, end);
    }
    let piece = room.copy(&buf.as_slice()[start..end])?;
    buf.advance(end);
    Ok(Some(piece))
}

fn feed_counted(left: u64, piece: &[u8]) -> (u64, Fed)
    ensures { Feeds (counted left) (counted result.0) piece.now result.1 }
{
    if left <= piece.len() as u64 {
        return (0, Fed::of(0, left as usize, FeedState::Done));
    }
    let used = piece.len();
    (left - used as u64, Fed::of(0, used, FeedState::More))
}

fn feed_all(piece: &[u8]) -> Fed
    ensures { Feeds unfinished unfinished piece.now result }
{
    Fed::of(0, piece.len(), FeedState::More)
}

fn feed_none(piece: &[u8]) -> Fed
    ensures { Feeds (λ _. whole [] 0) (λ _. whole [] 0) piece.now result }
{
    let _ = piece;
    Fed::of(0, 0, FeedState::Done)
}

fn feed_chunks(start: Chunking, piece: &[u8]) -> (Chunking, Fed)
    ensures { Feeds (chunked start) (chunked result.0) piece.now result.1 }
{
    let mut place = start;
    for (at, byte) in piece.iter().enumerate() {
        match place {
            // All data that are left, or all that the piece holds.
            Chunking::Data(more) => {
                let room = (piece.len() - at) as u64;
                if more < room {
                    let end = at + more as usize + 1;
                    return (Chunking::DataCr, Fed::of(at, end, FeedState::More));
                }
                let place = Chunking::Data(more - room);
                return (place, Fed::of(at, piece.len(), FeedState::More));
            }
            Chunking::Done | Chunking::Broken => {
                return (place, Fed::of(at, at, state_of(place)));
            }
            _ => place = step(place, *byte),
        }
    }
    let end = piece.len();
    (place, Fed::of(end, end, state_of(place)))
}
