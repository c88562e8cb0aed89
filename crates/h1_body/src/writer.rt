//! Writing a body (RFC 9112, sections 6 and 7.1).
ghost use Rattle.std.specs.Prelude.{◌≡◌, ◌<◌, ◌^◌, ℕ, List, take, length, Some, None, true, false, IsTrue, IsOkAnd, MatchResult};
ghost use Rattle.h1_body.specs.Writer.{taken, taken_by, piece_bytes, after_piece, end_bytes, is_short, is_finished, until_close, begun};
ghost use Rattle.h1_error.specs.declared.error.ErrorType.TheVariants.{PrematureBodyEnd};

use crate::{Framing, Wire};
use bytes::Bytes;
use h1_error::{Error, ErrorType};
use std::marker::Model;

/// Turns the payload of one body into the bytes that go to the link.
#[derive(Debug, Drop)]
pub struct BodyWriter {
    framing: Option<Framing>,
    written: u64,
    ended: bool,
}

impl Model for BodyWriter {
    ghost use Rattle.h1_body.specs.Writer.{WriterView};

    ghost Value = { WriterView };

    ghost view = { λ writer. record {
      framing = writer.framing;
      written = writer.written;
      ended = writer.ended;
    } };
}

impl BodyWriter {
    /// A writer whose body has not begun. It gives nothing.
    pub fn new() -> Self
        ensures { result ≡ record { framing = None; written = 0; ended = false } }
    {
        BodyWriter {
            framing: None,
            written: 0,
            ended: false,
        }
    }

    /// Begins a body of this framing.
    pub fn begin(&mut self, framing: Framing)
        ensures { self.new ≡ begun framing }
    {
        self.framing = Some(framing);
        self.written = 0;
        self.ended = false;
    }

    /// Takes the next piece of payload, and gives what is to be written for it. It takes no memory.
    #[inline(always)]
    pub fn piece(&mut self, payload: Bytes) -> Result<Wire, Error>
        ensures ok { IsOkAnd result (λ wire. wire ≡ piece_bytes self.old payload) }
        ensures after { self.new ≡ after_piece self.old payload }
    {
        let mut payload = payload;
        payload.truncate(self.room());
        self.written = self.written.saturating_add(payload.len() as u64);
        match self.framing {
            Some(Framing::Chunked) => Ok(Wire::chunk(payload)),
            _ => Ok(Wire::plain(payload)),
        }
    }

    /// Ends the body, and gives what is to be written for its end. A body that has less payload
    /// than its framing states is refused.
    pub fn finish(&mut self) -> Result<Wire, Error>
        ensures cases { MatchResult result
            (λ wire. (wire ≡ end_bytes self.old) × (is_short self.old ≡ false))
            (λ error. (error ≡ record { kind = PrematureBodyEnd; retry = false })
            × IsTrue (is_short self.old)) }
        ensures after { self.new ≡ record self.old { ended = true } }
    {
        let ended = self.ended;
        self.ended = true;
        match self.framing {
            Some(Framing::Counted(n)) if self.written < n => {
                Err(Error::from(ErrorType::PrematureBodyEnd))
            }
            Some(Framing::Chunked) if !ended => Ok(Wire::last_chunk()),
            _ => Ok(Wire::empty()),
        }
    }

    /// Whether the body was ended, or has all payload that its framing states.
    pub fn finished(&self) -> bool
        ensures { result ≡ is_finished self.now }
    {
        match self.framing {
            Some(Framing::Counted(n)) => self.ended || n <= self.written,
            _ => self.ended,
        }
    }

    /// How many bytes of payload were taken. The count stands still at its type's end.
    pub fn written(&self) -> u64
        ensures { result ≡ self.now.written }
    {
        self.written
    }

    /// The framing of the body, if it has begun.
    pub fn framing(&self) -> Option<Framing>
        ensures { result ≡ self.now.framing }
    {
        self.framing
    }

    /// Whether the body was ended.
    pub fn is_ended(&self) -> bool
        ensures { result ≡ self.now.ended }
    {
        self.ended
    }

    /// How many bytes of this payload the body takes as its next piece.
    pub fn taken_len(&self, payload: &[u8]) -> usize
        ensures { result ≡ length (taken self.now payload.now) }
    {
        payload.len().min(self.room())
    }

    /// Whether less payload was taken than the framing states.
    pub fn is_short(&self) -> bool
        ensures { result ≡ is_short self.now }
    {
        matches!(self.framing, Some(Framing::Counted(n)) if self.written < n)
    }

    /// Whether the end of the link ends the body.
    pub fn is_until_close(&self) -> bool
        ensures { result ≡ until_close self.now.framing }
    {
        matches!(self.framing, Some(Framing::UntilClose))
    }

    /// How many bytes of the next piece the body takes at most.
    fn room(&self) -> usize
        ensures { (payload : List ℕ) → length payload < 2 ^ 64
            → take result payload ≡ taken self.now payload }
    {
        match self.framing {
            Some(framing) if !self.ended => room_of(framing, self.written),
            _ => 0,
        }
    }
}

/// How many bytes of the next piece a body of this framing takes at most.
fn room_of(framing: Framing, written: u64) -> usize
    ensures { (payload : List ℕ) → length payload < 2 ^ 64
        → take result payload ≡ taken_by (Some framing) written payload }
{
    match framing {
        Framing::Counted(n) => n.saturating_sub(written) as usize,
        Framing::Chunked | Framing::UntilClose => usize::MAX,
    }
}
