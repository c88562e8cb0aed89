//! The bytes that are owed to the link.
ghost use Rattle.std.specs.Prelude.{◌≡◌, ◌<◌, ◌≤◌, ◌==◌, [], drop, take, length};

use h1_body::Wire;
use h1_head::HeadBuffer;
use std::alloc::Global;
use std::marker::Model;
use std::mem;

/// What was taken up and isn't written yet: the bytes of a head, or those of a part of a body.
/// Contracts see the bytes that are left. The buffer of a head that was sent is kept for
/// the next.
#[derive(Drop)]
pub struct Owed {
    alloc: Global,
    head: HeadBuffer,
    /// How many bytes of the head were sent.
    sent: usize,
    wire: Wire,
}

impl Model for Owed {
    ghost use Rattle.std.specs.Prelude.{ℕ, List, ◌++◌, ◌≤◌, drop, length};

    ghost Value = { List ℕ };

    ghost view = { λ owed. drop owed.sent owed.head ++ owed.wire };

    ghost invariant = { λ owed. owed.sent ≤ length owed.head };
}

impl Owed {
    /// Nothing is owed. It takes no memory.
    pub fn new(alloc: Global) -> Self
        ensures { result ≡ [] }
    {
        Owed {
            alloc,
            head: HeadBuffer::new(alloc),
            sent: 0,
            wire: Wire::empty(),
        }
    }

    /// Hands out the buffer of the last head, with nothing in it, where nothing is owed.
    pub fn take_buffer(&mut self) -> HeadBuffer
        requires { self.old ≡ [] }
        ensures empty { result ≡ [] }
        ensures same { self.new ≡ [] }
    {
        self.sent = 0;
        let mut buffer = mem::replace(&mut self.head, HeadBuffer::new(self.alloc));
        buffer.clear();
        buffer
    }

    /// Changes the buffer of the last head for this one, where nothing is owed.
    #[inline(always)]
    pub(crate) fn swap_buffer(&mut self, buffer: &mut HeadBuffer)
        requires none { self.old ≡ [] }
        requires empty { buffer.old ≡ [] }
        ensures same { self.new ≡ [] }
        ensures empty { buffer.new ≡ [] }
    {
        self.sent = 0;
        self.head.clear();
        mem::swap(&mut self.head, buffer);
    }

    /// Owes a head, where nothing is owed.
    pub fn put_head(&mut self, head: HeadBuffer)
        requires { self.old ≡ [] }
        ensures { self.new ≡ head }
    {
        self.head = head;
        self.sent = 0;
    }

    /// Owes these bytes in place of those that are left.
    #[inline(always)]
    pub fn put(&mut self, wire: Wire)
        ensures { self.new ≡ wire }
    {
        self.sent = self.head.len();
        // The end of most bodies has no bytes, and then nothing needs to be put.
        if !wire.is_empty() || !self.wire.is_empty() {
            self.wire = wire;
        }
    }

    /// Owes nothing any more.
    #[inline(always)]
    pub fn clear(&mut self)
        ensures { self.new ≡ [] }
    {
        if !self.is_empty() {
            self.put(Wire::empty());
        }
    }

    pub fn is_empty(&self) -> bool
        ensures { result ≡ (length self.now == 0) }
    {
        self.sent == self.head.len() && self.wire.is_empty()
    }

    /// The bytes of the first piece that isn't empty.
    pub fn front(&self) -> &[u8]
        ensures front { result.now ≡ take (length result.now) self.now }
        ensures within { length result.now ≤ length self.now }
        ensures some { 0 < length self.now → 0 < length result.now }
    {
        if self.sent < self.head.len() {
            &self.head.as_slice()[self.sent..]
        } else {
            self.wire.front()
        }
    }

    /// Leaves out this many bytes in front.
    pub fn advance(&mut self, count: usize)
        requires { count ≤ length self.old }
        ensures { self.new ≡ drop count self.old }
    {
        let left = self.head.len() - self.sent;
        if count <= left {
            self.sent += count;
        } else {
            self.sent += left;
            self.wire.advance(count - left);
        }
    }
}
