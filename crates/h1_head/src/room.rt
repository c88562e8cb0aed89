//! Memory that small pieces of bytes share.
ghost use Rattle.std.specs.Prelude.{◌≡◌, ◌≤◌, ◌++◌, [], IfOk, OnOk, OnErr, IsOkUnless};
ghost use Rattle.h1_error.specs.Memory.{no_memory};

use bytes::{Bytes, BytesMut};
use h1_error::Error;
use std::alloc::Global;
use std::marker::Model;

/// Blocks grow up to this many bytes, but for one piece that is longer.
const MOST_BLOCK: usize = 4096;

/// Bytes that are put together and then handed out. What is handed out shares a block of memory with
/// what was handed out before it, so that small pieces take no block each; a block stays as long as
/// one of its pieces. A contract sees the bytes that are put together and not handed out.
#[derive(Debug, Drop)]
pub struct Room {
    alloc: Global,
    /// It is there once bytes were put together, in a block of its own, so that a room is moved as
    /// one pointer.
    store: Option<Box<Store>>,
}

/// Where the bytes are put together.
#[derive(Debug, Drop)]
struct Store {
    bytes: BytesMut,
    /// How many bytes were asked for as the last block was made.
    block: usize,
}

impl Model for Room {
    ghost use Rattle.std.specs.Prelude.{ℕ, List, [], option_map, unwrap_or};

    ghost Value = { List ℕ };

    ghost view = { λ room. unwrap_or (option_map (λ store. store.value.bytes.items) room.store) [] };
}

impl Room {
    /// A room with nothing in it, for which no memory is taken.
    #[inline(always)]
    pub fn new(alloc: Global) -> Self
        ensures { result ≡ [] }
    {
        Room { alloc, store: None }
    }

    /// Adds these bytes at the end.
    #[inline(always)]
    pub fn push(&mut self, bytes: &[u8]) -> Result<(), Error>
        ensures ok { OnOk result (self.new ≡ self.old ++ bytes.now) }
        ensures err { IsOkUnless result no_memory }
        ensures same { OnErr result (self.new ≡ self.old) }
    {
        match &mut self.store {
            Some(store) => store.push(bytes),
            None => self.open(bytes),
        }
    }

    // The same with the first bytes that a room is handed.
    #[cold]
    #[inline(never)]
    fn open(&mut self, bytes: &[u8]) -> Result<(), Error>
        requires { self.old ≡ [] }
        ensures ok { OnOk result (self.new ≡ bytes.now) }
        ensures err { IsOkUnless result no_memory }
        ensures same { OnErr result (self.new ≡ self.old) }
    {
        let mut store = Store {
            bytes: BytesMut::new(self.alloc),
            block: 0,
        };
        store.push(bytes)?;
        self.store = Some(Box::new(self.alloc, store)?);
        Ok(())
    }

    /// Hands out the bytes, of which none is copied.
    #[inline(always)]
    pub fn finish(&mut self) -> Result<Bytes, Error>
        ensures ok { IfOk result (λ bytes. bytes ≡ self.old) }
        ensures err { IsOkUnless result no_memory }
        ensures none { OnOk result (self.new ≡ []) }
        ensures same { OnErr result (self.new ≡ self.old) }
    {
        match &mut self.store {
            Some(store) => {
                let len = store.bytes.len();
                Ok(store.bytes.freeze_to(len)?)
            }
            None => Ok(Bytes::new()),
        }
    }

    /// Drops the bytes. Their memory stays with the room.
    #[inline(always)]
    pub fn clear(&mut self)
        ensures { self.new ≡ [] }
    {
        if let Some(store) = &mut self.store {
            store.bytes.clear();
        }
    }

    /// Hands out a copy of these bytes. Those that were put together are dropped.
    #[inline(always)]
    pub fn copy(&mut self, bytes: &[u8]) -> Result<Bytes, Error>
        ensures ok { IfOk result (λ copy. copy ≡ bytes.now) }
        ensures err { IsOkUnless result no_memory }
        ensures none { OnOk result (self.new ≡ []) }
    {
        self.clear();
        self.push(bytes)?;
        self.finish()
    }
}

impl Store {
    #[inline(always)]
    fn push(&mut self, bytes: &[u8]) -> Result<(), Error>
        ensures ok { OnOk result (self.new.bytes.items ≡ self.old.bytes.items ++ bytes.now) }
        ensures err { IsOkUnless result no_memory }
        ensures same { OnErr result (self.new.bytes.items ≡ self.old.bytes.items) }
    {
        if self.bytes.capacity() - self.bytes.len() < bytes.len() {
            self.widen(bytes.len())?;
        }
        self.bytes.extend_reserved(bytes);
        Ok(())
    }

    /// Takes a block for so many bytes more, or for twice as many as the last.
    #[inline(never)]
    fn widen(&mut self, more: usize) -> Result<(), Error>
        ensures room { OnOk result (more ≤ self.new.bytes.spare) }
        ensures same { self.new.bytes.items ≡ self.old.bytes.items }
        ensures err { IsOkUnless result no_memory }
    {
        let twice = self.block.saturating_mul(2).min(MOST_BLOCK);
        let wanted = more.max(twice);
        self.bytes.reserve(wanted)?;
        self.block = wanted;
        Ok(())
    }
}
