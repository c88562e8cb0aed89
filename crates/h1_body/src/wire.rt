//! Pieces of a body as they go to the link (RFC 9112, sections 6 and 7.1).
ghost use Rattle.std.specs.Prelude.{◌≡◌, ◌<◌, ◌≤◌, ◌^◌, ◌==◌, [], drop, take, length};
ghost use Rattle.h1_body.specs.Written.{chunk_bytes, last_chunk};

use crate::size_line::SizeLine;
use bytes::Bytes;
use std::marker::Model;

/// Bytes to write, in up to three pieces: the size line of a chunk, its data, and what follows
/// them. Contracts see the bytes that are left.
#[derive(Debug, Drop)]
pub struct Wire {
    size_line: SizeLine,
    payload: Bytes,
    tail: &'static [u8],
}

impl Model for Wire {
    ghost use Rattle.std.specs.Prelude.{ℕ, List, ◌++◌, ◌≤◌, length};

    ghost Value = { List ℕ };

    ghost view = { λ wire. wire.size_line ++ wire.payload ++ wire.tail.now };

    ghost invariant = { λ wire. length wire.tail.now ≤ 2 };
}

impl Wire {
    /// Nothing to write.
    pub fn empty() -> Self
        ensures { result ≡ [] }
    {
        Wire::plain(Bytes::new())
    }

    /// The payload as it is.
    pub fn plain(payload: Bytes) -> Self
        ensures { result ≡ payload }
    {
        Wire {
            size_line: SizeLine::empty(),
            payload,
            tail: b"",
        }
    }

    /// A chunk with this payload, and nothing where it is empty.
    pub fn chunk(payload: Bytes) -> Self
        ensures { result ≡ chunk_bytes payload }
    {
        if payload.is_empty() {
            return Wire::empty();
        }
        Wire {
            size_line: SizeLine::of(payload.len() as u64),
            payload,
            tail: b"\r\n",
        }
    }

    /// The last chunk, with no trailers.
    pub fn last_chunk() -> Self
        ensures { result ≡ last_chunk }
    {
        Wire::plain(Bytes::from_static(b"0\r\n\r\n"))
    }

    /// How many bytes are left.
    pub fn len(&self) -> u64
        ensures { result ≡ length self.now }
    {
        self.size_line.len() as u64 + self.payload.len() as u64 + self.tail.len() as u64
    }

    pub fn is_empty(&self) -> bool
        ensures { result ≡ (length self.now == 0) }
    {
        self.size_line.len() == 0 && self.payload.is_empty() && self.tail.is_empty()
    }

    /// The bytes of the first piece that isn't empty.
    pub fn front(&self) -> &[u8]
        ensures front { result.now ≡ take (length result.now) self.now }
        ensures within { length result.now ≤ length self.now }
        ensures some { 0 < length self.now → 0 < length result.now }
    {
        if self.size_line.len() > 0 {
            self.size_line.as_slice()
        } else if !self.payload.is_empty() {
            self.payload.as_slice()
        } else {
            self.tail
        }
    }

    /// Leaves out this many bytes in front.
    pub fn advance(&mut self, count: usize)
        requires { count ≤ length self.old }
        ensures { self.new ≡ drop count self.old }
    {
        let lines = count.min(self.size_line.len());
        self.size_line.advance(lines);
        let count = count - lines;
        let payload = count.min(self.payload.len());
        self.payload.advance(payload);
        self.tail = &self.tail[count - payload..];
    }
}
