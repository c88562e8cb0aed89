//! The bytes of a head as they are put together.
ghost use Rattle.std.specs.Prelude.{◌≡◌, ◌≤◌, ◌+◌, ◌++◌, [], length, take, OnOk, OnErr, IsOkUnless};
ghost use Rattle.h1_error.specs.Memory.{no_memory};
ghost use Rattle.h1_fields.specs.Lines.{print_line};

use h1_error::Error;
use std::alloc::Global;
use std::marker::Model;

/// The bytes that most heads of replies have at most.
const HEAD_ROOM: usize = 256;

/// Bytes that grow at their end, in a block of memory that stays when they are dropped. A contract
/// sees the list of them.
#[derive(Drop)]
pub struct HeadBuffer {
    /// All of it is there, so that a piece is put in its place without a look at the capacity.
    block: Vec<u8>,
    /// How many bytes were put.
    len: usize,
}

impl Model for HeadBuffer {
    ghost use Rattle.std.specs.Prelude.{ℕ, List, ◌≤◌, length, take};

    ghost Value = { List ℕ };

    ghost view = { λ buffer. take buffer.len buffer.block.items };

    ghost invariant = { λ buffer. buffer.len ≤ length buffer.block.items };
}

impl HeadBuffer {
    /// No bytes. Takes no memory.
    #[inline(always)]
    pub fn new(alloc: Global) -> Self
        ensures { result ≡ [] }
    {
        HeadBuffer {
            block: Vec::new(alloc),
            len: 0,
        }
    }

    #[inline(always)]
    pub fn len(&self) -> usize
        ensures { result ≡ length self.now }
    {
        self.len
    }

    #[inline(always)]
    pub fn as_slice(&self) -> &[u8]
        ensures { result.now ≡ self.now }
    {
        &self.block[..self.len]
    }

    /// Adds these bytes at the end.
    #[inline(always)]
    pub fn push(&mut self, more: &[u8]) -> Result<(), Error>
        ensures ok { OnOk result (self.new ≡ self.old ++ more.now) }
        ensures err { IsOkUnless result no_memory }
        ensures same { OnErr result (self.new ≡ self.old) }
    {
        if self.block.len() - self.len < more.len() {
            widen(&mut self.block, self.len, more.len())?;
        }
        self.len = put(&mut self.block, self.len, more);
        Ok(())
    }

    /// Adds one line at the end: a name, a colon and a space, a value, and CRLF.
    #[inline(always)]
    pub(crate) fn push_line(&mut self, name: &[u8], value: &[u8]) -> Result<(), Error>
        ensures ok { OnOk result (self.new ≡ self.old ++ print_line (name.now, value.now)) }
        ensures err { IsOkUnless result no_memory }
        ensures same { OnErr result (self.new ≡ self.old) }
    {
        let text = name.len().saturating_add(value.len());
        if self.block.len() - self.len < text.saturating_add(4) {
            widen(&mut self.block, self.len, text.saturating_add(4))?;
        }
        let named = put(&mut self.block, self.len, name);
        let middle = put(&mut self.block, named, b": ");
        let end = put(&mut self.block, middle, value);
        self.len = put(&mut self.block, end, b"\r\n");
        Ok(())
    }

    /// Drops the bytes. Their block stays.
    #[inline(always)]
    pub fn clear(&mut self)
        ensures { self.new ≡ [] }
    {
        self.len = 0;
    }

    /// The bytes by themselves.
    pub fn into_bytes(self) -> Vec<u8>
        ensures { result.items ≡ self }
    {
        let HeadBuffer { block, len } = self;
        let mut bytes = block;
        bytes.truncate(len);
        bytes
    }
}

/// Copies the piece to its place, and says where it ends.
#[inline(always)]
fn put(block: &mut [u8], at: usize, piece: &[u8]) -> usize
    requires { at + length piece.now ≤ length block.old }
    ensures end { result ≡ at + length piece.now }
    ensures put { take result block.new ≡ take at block.old ++ piece.now }
    ensures room { length block.new ≡ length block.old }
{
    let end = at + piece.len();
    block[at..end].copy_from_slice(piece);
    end
}

/// Makes room for so many bytes behind the first `len`.
#[cold]
#[inline(never)]
fn widen(block: &mut Vec<u8>, len: usize, more: usize) -> Result<(), Error>
    requires { len ≤ length block.old.items }
    ensures room { OnOk result (len + more ≤ length block.new.items) }
    ensures kept { take len block.new.items ≡ take len block.old.items }
    ensures within { len ≤ length block.new.items }
    ensures err { IsOkUnless result no_memory }
{
    let needed = len.saturating_add(more);
    let twice = len.saturating_mul(2).max(HEAD_ROOM);
    block.resize(needed.max(twice), 0)?;
    Ok(())
}
