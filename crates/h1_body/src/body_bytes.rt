//! Bytes of a body that are kept.
ghost use Rattle.std.specs.Prelude.{◌≡◌, ◌==◌, ◌++◌, [], length, take, nat_eq, true, OnOk, IfOk, IfErr};
ghost use Rattle.h1_error.specs.Memory.{no_memory};
ghost use Rattle.std.specs.Cmp.Lexicographic.{pointwise, nat_list_eq_equiv};
ghost use Rattle.std.specs.Cmp.{partial_equiv_from_equiv};

use bytes::Bytes;
use h1_error::{Error, ErrorType};
use h1_head::Room;
use std::alloc::Global;
use std::marker::Model;
use std::mem;

/// The most room that bytes keep once they are cleared.
pub const ROOM: usize = 65_536;

/// Bytes that grow at their end. Contracts see the list of them.
#[derive(Debug, Drop)]
pub struct BodyBytes {
    held: Held,
}

/// The block in which the bytes stand.
#[derive(Debug, Drop)]
enum Held {
    Own(Vec<u8>),
    /// Others may hold it too, so no byte of it changes.
    Shared(Global, Bytes),
}

impl Model for BodyBytes {
    ghost use Rattle.std.specs.Prelude.{ℕ, List};
    ghost use Rattle.h1_body.specs.BodyBytes.{held_bytes};

    ghost Value = { List ℕ };

    ghost view = { λ kept. held_bytes kept.held };
}

impl BodyBytes {
    /// No bytes, for which no memory is taken.
    pub fn new(alloc: Global) -> Self
        ensures { result ≡ [] }
    {
        BodyBytes {
            held: Held::Own(Vec::new(alloc)),
        }
    }

    /// No bytes, with room for that many.
    pub fn with_capacity(alloc: Global, capacity: usize) -> Result<Self, Error>
        ensures ok { IfOk result (λ kept. kept ≡ []) }
        ensures err { IfErr result (λ error. error ≡ no_memory) }
    {
        let own = Vec::with_capacity(alloc, capacity)?;
        Ok(BodyBytes {
            held: Held::Own(own),
        })
    }

    /// A copy of these bytes.
    pub fn from_slice(alloc: Global, bytes: &[u8]) -> Result<Self, Error>
        ensures ok { IfOk result (λ kept. kept ≡ bytes.now) }
        ensures err { IfErr result (λ error. error ≡ no_memory) }
    {
        let own = Vec::from_slice(alloc, bytes)?;
        Ok(BodyBytes {
            held: Held::Own(own),
        })
    }

    /// These bytes, of which none is copied.
    pub fn from_shared(alloc: Global, bytes: Bytes) -> Self
        ensures { result ≡ bytes }
    {
        BodyBytes {
            held: Held::Shared(alloc, bytes),
        }
    }

    /// The bytes to be held by others too, of which none is copied.
    #[inline(always)]
    pub fn share(&mut self) -> Result<Bytes, Error>
        ensures ok { IfOk result (λ shared. shared ≡ self.old) }
        ensures err { IfErr result (λ error. error ≡ no_memory) }
        ensures kept { self.new ≡ self.old }
    {
        match &mut self.held {
            Held::Shared(_, bytes) => Ok(bytes.clone()?),
            Held::Own(own) => {
                let alloc = *own.allocator();
                match Bytes::from_vec(mem::replace(own, Vec::new(alloc))) {
                    Ok(bytes) => {
                        let shared: Result<_, _> = bytes.clone();
                        self.held = Held::Shared(alloc, bytes);
                        Ok(shared?)
                    }
                    Err(failed) => {
                        *own = failed.value;
                        Err(Error::from(ErrorType::NoMemory))
                    }
                }
            }
        }
    }

    /// Adds these bytes at the end. Bytes that others hold too are copied first.
    #[inline(always)]
    pub fn append(&mut self, bytes: &[u8]) -> Result<(), Error>
        ensures ok { OnOk result (self.new ≡ self.old ++ bytes.now) }
        ensures err { IfErr result (λ error. (error ≡ no_memory) × (self.new ≡ self.old)) }
    {
        match &mut self.held {
            Held::Own(own) => {
                own.extend_from_slice(bytes)?;
                Ok(())
            }
            Held::Shared(alloc, shared) => {
                let own = joined(*alloc, shared.as_slice(), bytes)?;
                self.held = Held::Own(own);
                Ok(())
            }
        }
    }

    /// Puts a copy of these bytes in the room's memory, in place of what is held, and hands it out
    /// too.
    #[inline(always)]
    pub(crate) fn hold_copy(&mut self, bytes: &[u8], room: &mut Room) -> Result<Bytes, Error>
        ensures ok { IfOk result (λ piece. (piece ≡ bytes.now) × (self.new ≡ bytes.now)) }
        ensures err { IfErr result (λ error. (error ≡ no_memory) × (self.new ≡ self.old)) }
    {
        let copy = room.copy(bytes)?;
        let piece = copy.clone()?;
        *self = BodyBytes::from_shared(self.allocator(), copy);
        Ok(piece)
    }

    fn allocator(&self) -> Global {
        match &self.held {
            Held::Own(own) => *own.allocator(),
            Held::Shared(alloc, _) => *alloc,
        }
    }

    /// Drops the bytes behind the first `len`.
    pub fn truncate(&mut self, len: usize)
        ensures { self.new ≡ take len self.old }
    {
        match &mut self.held {
            Held::Own(own) => own.truncate(len),
            Held::Shared(_, shared) => shared.truncate(len),
        }
    }

    /// Drops all bytes. A block of at most [`ROOM`] bytes that no one else holds is kept.
    pub fn clear(&mut self)
        ensures { self.new ≡ [] }
    {
        match &mut self.held {
            Held::Own(own) if own.capacity() > ROOM => *own = Vec::new(*own.allocator()),
            Held::Own(own) => own.clear(),
            Held::Shared(alloc, _) => self.held = Held::Own(Vec::new(*alloc)),
        }
    }

    #[inline(always)]
    pub fn as_slice(&self) -> &[u8]
        ensures { result.now ≡ self.now }
    {
        match &self.held {
            Held::Own(own) => own.as_slice(),
            Held::Shared(_, shared) => shared.as_slice(),
        }
    }

    pub fn len(&self) -> usize
        ensures { result ≡ length self.now }
    {
        self.as_slice().len()
    }

    pub fn is_empty(&self) -> bool
        ensures { result ≡ (length self.now == 0) }
    {
        self.as_slice().is_empty()
    }

    /// Whether there are no bytes, and no block of memory is held for any.
    #[inline(always)]
    pub fn is_fresh(&self) -> bool
        ensures { result ≡ true → self.now ≡ [] }
    {
        match &self.held {
            Held::Own(own) => own.is_empty() && own.capacity() == 0,
            Held::Shared(_, _) => false,
        }
    }
}

/// A block of its own with the bytes of both.
#[inline(never)]
fn joined(alloc: Global, front: &[u8], back: &[u8]) -> Result<Vec<u8>, Error>
    ensures ok { IfOk result (λ own. own.items ≡ front.now ++ back.now) }
    ensures err { IfErr result (λ error. error ≡ no_memory) }
{
    let mut own = Vec::with_capacity(alloc, front.len().saturating_add(back.len()))?;
    own.extend_from_slice(front)?;
    own.extend_from_slice(back)?;
    Ok(own)
}

impl PartialEq for BodyBytes {
    ghost eq = { pointwise nat_eq };

    ghost laws = { partial_equiv_from_equiv nat_list_eq_equiv };

    fn eq(&self, other: &Self) -> bool {
        self.as_slice() == other.as_slice()
    }
}

impl Eq for BodyBytes {
    ghost laws = { nat_list_eq_equiv };
}
