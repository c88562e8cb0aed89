//! The payload that was read of a body, which memory holds or not.
ghost use Rattle.std.specs.Prelude.{◌≡◌, true, [], ◌≤◌, ◌<◌, ◌+◌, ◌-◌, ◌^◌, ◌++◌, ◌==◌, length, slice_range, IfOk, IfErr};
ghost use Rattle.std.specs.Option.{option_copied};
ghost use Rattle.h1_body.specs.Payload.{KeepFault, grown, held_in, no_payload};
ghost use Rattle.h1_body.specs.Takes.{Cuts, LacksRoom};

use crate::BodyBytes;
use crate::reader::cut;
use bytes::{Bytes, BytesMut};
use h1_error::{Error, ErrorType};
use h1_head::Room;
use h1_link::Tap;
use std::alloc::Global;
use std::marker::Model;

/// A run of payload that has at most so many bytes stands in memory that small pieces share.
pub(crate) const SHORT: usize = 512;

/// What memory holds of a body's payload, and how much of it may be read.
#[derive(Clone, Copy, Debug, PartialEq, Eq)]
pub struct Gathering {
    /// Whether all payload that was read is held. Otherwise none is: it is handed out in pieces.
    pub holds: bool,
    /// The most bytes of payload. A body that goes on past them is refused (RFC 9110, section
    /// 15.5.14).
    pub limit: u64,
}

/// The payload that was read of a body. Contracts see all of it.
#[derive(Drop)]
pub struct Payload {
    held: Held,
    limit: u64,
}

/// What memory has of payload.
#[derive(Drop)]
enum Held {
    Whole(BodyBytes),
    /// It was handed out, so many bytes.
    Passed(Tap, u64),
}

impl Model for Payload {
    ghost use Rattle.std.specs.Prelude.{◌≤◌, length};
    ghost use Rattle.h1_body.specs.Payload.{IsCounted, Payload, bytes_of, is_held};

    ghost Value = { Payload };

    ghost view = { λ p. record {
      bytes = bytes_of p.held;
      gathering = record { holds = is_held p.held; limit = p.limit };
    } };

    ghost invariant = { λ p. IsCounted p.held × (length (bytes_of p.held) ≤ p.limit) };
}

impl Payload {
    /// Nothing was read yet. Takes no memory.
    pub fn new(alloc: Global, gathering: Gathering) -> Self
        ensures { result ≡ no_payload gathering }
    {
        let held = if gathering.holds {
            Held::Whole(BodyBytes::new(alloc))
        } else {
            Held::Passed(Tap::new(), 0)
        };
        Payload {
            held,
            limit: gathering.limit,
        }
    }

    /// Begins with the next body, of which so much is held and may be read.
    #[inline(always)]
    pub fn start_over(&mut self, alloc: Global, gathering: Gathering)
        ensures { self.new ≡ no_payload gathering }
    {
        self.clear();
        match &self.held {
            Held::Whole(_) if gathering.holds => {}
            Held::Passed(_, _) if !gathering.holds => {}
            _ => *self = Payload::new(alloc, gathering),
        }
        self.limit = gathering.limit;
    }

    /// What memory holds of it, and how much of it may be read.
    #[inline(always)]
    pub fn gathering(&self) -> Gathering
        ensures { result ≡ self.now.gathering }
    {
        let holds = match &self.held {
            Held::Whole(_) => true,
            Held::Passed(_, _) => false,
        };
        Gathering {
            holds,
            limit: self.limit,
        }
    }

    /// Drops what was read.
    #[inline(always)]
    pub fn clear(&mut self)
        ensures { self.new ≡ no_payload self.old.gathering }
    {
        match &mut self.held {
            Held::Whole(bytes) => {
                if !bytes.is_empty() {
                    bytes.clear();
                }
            }
            Held::Passed(passed, count) => {
                *passed = Tap::new();
                *count = 0;
            }
        }
    }

    /// How many bytes were read.
    #[inline(always)]
    pub fn len(&self) -> u64
        ensures value { result ≡ length self.now.bytes }
        ensures within { result ≤ self.now.gathering.limit }
    {
        match &self.held {
            Held::Whole(bytes) => bytes.len() as u64,
            Held::Passed(_, count) => *count,
        }
    }

    pub fn is_empty(&self) -> bool
        ensures { result ≡ (length self.now.bytes == 0) }
    {
        self.len() == 0
    }

    /// Whether nothing was read and no block of memory is held for what comes.
    #[inline(always)]
    pub fn is_fresh(&self) -> bool
        ensures { result ≡ true → self.now.bytes ≡ [] }
    {
        match &self.held {
            Held::Whole(bytes) => bytes.is_fresh(),
            Held::Passed(_, count) => *count == 0,
        }
    }

    /// All that was read, where it is held.
    #[inline(always)]
    pub fn held(&self) -> Option<&[u8]>
        ensures { option_copied result ≡ held_in self.now }
    {
        match &self.held {
            Held::Whole(bytes) => Some(bytes.as_slice()),
            Held::Passed(_, _) => None,
        }
    }

    /// Takes the bytes through this end out of the buffer, notes those from the start on as read,
    /// and hands them out.
    #[inline(always)]
    pub(crate) fn keep(
        &mut self,
        buf: &mut BytesMut,
        start: usize,
        end: usize,
        room: &mut Room,
    ) -> Result<Option<Bytes>, Error>
        requires ordered { start ≤ end }
        requires within { end ≤ length buf.old.items }
        ensures ok { IfOk result (λ piece. Cuts buf.old.items buf.new.items start end piece
            × (self.new ≡ grown (slice_range buf.old.items start end) self.old)) }
        ensures err { IfErr result
            (λ error. KeepFault self.old (slice_range buf.old.items start end) error
            × (buf.new ≡ buf.old) × (self.new ≡ self.old)) }
    {
        if (end - start) as u64 > self.limit - self.len() {
            return Err(Error::from(ErrorType::ContentTooLarge));
        }
        match &mut self.held {
            Held::Whole(bytes) => hold(buf, start, end, bytes, room),
            Held::Passed(passed, count) => pass(buf, start, end, passed, count),
        }
    }
}

/// Cuts, and holds a copy of what is handed out behind what is held.
#[inline(always)]
fn hold(
    buf: &mut BytesMut,
    start: usize,
    end: usize,
    kept: &mut BodyBytes,
    room: &mut Room,
) -> Result<Option<Bytes>, Error>
    requires ordered { start ≤ end }
    requires within { end ≤ length buf.old.items }
    ensures ok { IfOk result (λ piece. Cuts buf.old.items buf.new.items start end piece
        × (kept.new ≡ kept.old ++ slice_range buf.old.items start end)) }
    ensures err { IfErr result (λ error. LacksRoom start end error × (buf.new ≡ buf.old)
        × (kept.new ≡ kept.old)) }
{
    if start == end {
        return cut(buf, start, end);
    }
    if end - start <= SHORT && kept.is_empty() {
        let piece = kept.hold_copy(&buf.as_slice()[start..end], room)?;
        buf.advance(end);
        return Ok(Some(piece));
    }
    hold_behind(buf, start, end, kept)
}

/// The same of a piece that is long or has others before it.
fn hold_behind(
    buf: &mut BytesMut,
    start: usize,
    end: usize,
    kept: &mut BodyBytes,
) -> Result<Option<Bytes>, Error>
    requires some { start < end }
    requires within { end ≤ length buf.old.items }
    ensures ok { IfOk result (λ piece. Cuts buf.old.items buf.new.items start end piece
        × (kept.new ≡ kept.old ++ slice_range buf.old.items start end)) }
    ensures err { IfErr result (λ error. LacksRoom start end error × (buf.new ≡ buf.old)
        × (kept.new ≡ kept.old)) }
{
    let len = kept.len();
    kept.append(&buf.as_slice()[start..end])?;
    let piece = cut(buf, start, end);
    if piece.is_err() {
        kept.truncate(len);
    }
    piece
}

/// Cuts, and notes what is handed out. No byte is copied.
fn pass(
    buf: &mut BytesMut,
    start: usize,
    end: usize,
    passed: &mut Tap,
    count: &mut u64,
) -> Result<Option<Bytes>, Error>
    requires ordered { start ≤ end }
    requires within { end ≤ length buf.old.items }
    requires fits { count.old + (end - start) < 2 ^ 64 }
    ensures ok { IfOk result (λ piece. Cuts buf.old.items buf.new.items start end piece
        × (passed.new ≡ passed.old ++ slice_range buf.old.items start end)
        × (count.new ≡ count.old + (end - start))) }
    ensures err { IfErr result (λ error. LacksRoom start end error × (buf.new ≡ buf.old)
        × (passed.new ≡ passed.old) × (count.new ≡ count.old)) }
{
    let piece = cut(buf, start, end)?;
    if let Some(bytes) = &piece {
        passed.pass(bytes.as_slice());
    }
    *count += (end - start) as u64;
    Ok(piece)
}
