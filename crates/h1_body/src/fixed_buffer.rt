//! A copy of payload up to a capacity.
ghost use Rattle.std.specs.Prelude.{◌≡◌, ◌<◌, ◌==◌, [], false, length, OnOk, IfOk, IfErr, MatchOption};
ghost use Rattle.h1_body.specs.Fixed.{after_write};
ghost use Rattle.h1_error.specs.Memory.{no_memory};

use crate::BodyBytes;
use bytes::Bytes;
use h1_error::Error;
use std::alloc::Global;
use std::marker::Model;

/// Bytes up to a capacity. A write beyond it drops them all, and the buffer is truncated until it is
/// cleared.
#[derive(Debug, Drop)]
pub struct FixedBuffer {
    alloc: Global,
    capacity: usize,
    bytes: BodyBytes,
    truncated: bool,
}

impl Model for FixedBuffer {
    ghost use Rattle.std.specs.Prelude.{◌≤◌, length};
    ghost use Rattle.h1_body.specs.Fixed.{FixedView};

    ghost Value = { FixedView };

    ghost view = { λ buffer. record {
      capacity = buffer.capacity;
      bytes = buffer.bytes;
      truncated = buffer.truncated;
    } };

    ghost invariant = { λ buffer. length buffer.bytes ≤ buffer.capacity };
}

impl FixedBuffer {
    /// An empty buffer for this many bytes. It takes no memory.
    pub fn new(alloc: Global, capacity: usize) -> Self
        ensures { result ≡ record { capacity = capacity; bytes = []; truncated = false } }
    {
        FixedBuffer {
            alloc,
            capacity,
            bytes: BodyBytes::new(alloc),
            truncated: false,
        }
    }

    /// Adds a piece where it fits, and otherwise drops all bytes. A truncated buffer stays as it is.
    pub fn write_to_buffer(&mut self, piece: &Bytes) -> Result<(), Error>
        ensures ok { OnOk result (self.new ≡ after_write self.old piece.now) }
        ensures err { IfErr result (λ error. (error ≡ no_memory) × (self.new ≡ self.old)) }
    {
        if self.truncated {
            return Ok(());
        }
        if piece.len() <= self.capacity - self.bytes.len() {
            return self.bytes.append(piece.as_slice());
        }
        self.bytes = BodyBytes::new(self.alloc);
        self.truncated = true;
        Ok(())
    }

    /// Drops all bytes. The buffer takes bytes again.
    pub fn clear(&mut self)
        ensures { self.new ≡ record self.old { bytes = []; truncated = false } }
    {
        self.bytes.clear();
        self.truncated = false;
    }

    pub fn is_empty(&self) -> bool
        ensures { result ≡ (length self.now.bytes == 0) }
    {
        self.bytes.is_empty()
    }

    pub fn is_truncated(&self) -> bool
        ensures { result ≡ self.now.truncated }
    {
        self.truncated
    }

    /// A copy of the bytes, and `None` where there are none.
    pub fn get_buffer(&self) -> Result<Option<Bytes>, Error>
        ensures ok { IfOk result (λ kept. MatchOption kept (length self.now.bytes ≡ 0)
            (λ bytes. (bytes ≡ self.now.bytes) × (0 < length self.now.bytes))) }
        ensures err { IfErr result (λ error. error ≡ no_memory) }
    {
        if self.bytes.is_empty() {
            return Ok(None);
        }
        let bytes = Bytes::copy_from_slice(self.alloc, self.bytes.as_slice())?;
        Ok(Some(bytes))
    }
}
