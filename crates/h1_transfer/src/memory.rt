//! Memory that one message leaves for the next.
use bytes::BytesMut;
use h1_head::{HeadBuffer, Room};
use std::alloc::Global;
use std::marker::Model;

/// Blocks of memory that a transfer leaves for the next one. None of the bytes in them is read
/// again, and contracts see nothing of them.
#[derive(Drop)]
pub struct Memory {
    /// The block that bytes are received in.
    pub(crate) received: BytesMut,
    /// The memory for small pieces of bytes.
    pub(crate) room: Room,
    /// The buffer of a head.
    pub(crate) head: HeadBuffer,
}

impl Model for Memory {
    ghost use Rattle.std.specs.Prelude.{◌≡◌, []};

    ghost Value = { Unit {0} };

    ghost view = { λ memory. tt };

    ghost invariant = { λ memory. (memory.received.items ≡ []) × (memory.head ≡ []) };
}

impl Memory {
    /// No block yet. It has no clause: contracts see nothing of memory.
    #[inline(always)]
    pub fn new(alloc: Global) -> Self {
        Memory {
            received: BytesMut::new(alloc),
            room: Room::new(alloc),
            head: HeadBuffer::new(alloc),
        }
    }

    /// Lets go of a block for received bytes that is larger than this. It has no clause: contracts
    /// see nothing of memory.
    pub fn let_go_above(&mut self, most: usize) {
        if self.received.try_reclaim(most.saturating_add(1)) {
            self.received = BytesMut::new(*self.received.allocator());
        }
    }
}
