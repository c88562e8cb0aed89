//! A text that grows at its end: in place while it is short, else in a block of memory of its own.
ghost use Rattle.std.specs.Prelude.{◌≡◌, ◌++◌, [], length, IfOk, OnOk, OnErr, IsOkUnless};
ghost use Rattle.h1_error.specs.Memory.{no_memory};
ghost use Rattle.h1_fields.specs.Text.{bytes_in};

use arrayvec::ArrayVec;
use h1_error::Error;
use std::alloc::Global;
use std::marker::Model;

/// How many bytes a text has in place.
const SHORT: usize = 64;

/// The bytes of a text, in place or in a block of memory.
#[derive(Drop)]
pub(crate) enum Stored {
    Short(ArrayVec<u8, SHORT>),
    Long(Vec<u8>),
}

/// A text. A contract sees the list of its bytes.
#[derive(Drop)]
pub(crate) struct Text {
    alloc: Global,
    bytes: Stored,
}

impl Model for Text {
    ghost use Rattle.std.specs.Prelude.{ℕ, List};
    ghost use Rattle.h1_fields.specs.Text.{bytes_in};

    ghost Value = { List ℕ };

    ghost view = { λ t. bytes_in t.bytes };
}

impl Text {
    /// No bytes. Takes no memory.
    #[inline(always)]
    pub(crate) fn new(alloc: Global) -> Self
        ensures { result ≡ [] }
    {
        Text {
            alloc,
            bytes: Stored::Short(ArrayVec::new()),
        }
    }

    /// Moves the bytes to a block of memory, with room for so many more.
    pub(crate) fn reserve(&mut self, more: usize) -> Result<(), Error>
        ensures same { self.new ≡ self.old }
        ensures err { IsOkUnless result no_memory }
    {
        self.bytes = Stored::Long(self.moved(more)?);
        Ok(())
    }

    #[inline(always)]
    pub(crate) fn as_slice(&self) -> &[u8]
        ensures { result.now ≡ self.now }
    {
        match &self.bytes {
            Stored::Short(short) => short.as_slice(),
            Stored::Long(long) => long.as_slice(),
        }
    }

    #[inline(always)]
    pub(crate) fn len(&self) -> usize
        ensures { result ≡ length self.now }
    {
        match &self.bytes {
            Stored::Short(short) => short.len(),
            Stored::Long(long) => long.len(),
        }
    }

    /// Adds these bytes at the end.
    #[inline(always)]
    pub(crate) fn append(&mut self, more: &[u8]) -> Result<(), Error>
        ensures ok { OnOk result (self.new ≡ self.old ++ more.now) }
        ensures err { IsOkUnless result no_memory }
        ensures same { OnErr result (self.new ≡ self.old) }
    {
        match &mut self.bytes {
            Stored::Short(short) if more.len() <= short.remaining_capacity() => {
                short.try_extend_from_slice(more).unwrap();
                return Ok(());
            }
            Stored::Long(long) => {
                long.extend_from_slice(more)?;
                return Ok(());
            }
            _ => {}
        }
        self.append_long(more)
    }

    // The same of a text that is too long to stay in place.
    #[cold]
    #[inline(never)]
    fn append_long(&mut self, more: &[u8]) -> Result<(), Error>
        ensures ok { OnOk result (self.new ≡ self.old ++ more.now) }
        ensures err { IsOkUnless result no_memory }
        ensures same { OnErr result (self.new ≡ self.old) }
    {
        let mut long = self.moved(more.len().saturating_add(2 * SHORT))?;
        long.extend_from_slice(more)?;
        self.bytes = Stored::Long(long);
        Ok(())
    }

    // The same bytes in a block of memory, with room for so many more.
    fn moved(&self, more: usize) -> Result<Vec<u8>, Error>
        ensures ok { IfOk result (λ long. long.items ≡ self.now) }
        ensures err { IsOkUnless result no_memory }
    {
        let mut long = Vec::with_capacity(self.alloc, self.len().saturating_add(more))?;
        long.extend_from_slice(self.as_slice())?;
        Ok(long)
    }
}
