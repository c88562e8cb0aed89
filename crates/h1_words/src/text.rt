//! Bytes that grow at their end.
ghost use Rattle.std.specs.Prelude.{◌≡◌, [], ◌++◌, OnOk, OnErr, IfErr, IfOk};
ghost use Rattle.std.specs.Fmt.{decimal};
ghost use Rattle.h1_error.specs.Memory.{no_memory};

use h1_error::Error;
use std::alloc::Global;
use std::marker::Model;

/// Bytes that grow at their end. Contracts see the list of the bytes.
#[derive(Debug, Drop)]
pub struct Text {
    bytes: Vec<u8>,
}

impl Model for Text {
    ghost use Rattle.std.specs.Prelude.{ℕ, List};

    ghost Value = { List ℕ };

    ghost view = { λ t. t.bytes.items };
}

impl Text {
    /// No bytes.
    pub fn new(alloc: Global) -> Self
        ensures { result ≡ [] }
    {
        Text {
            bytes: Vec::new(alloc),
        }
    }

    /// The bytes.
    pub fn as_slice(&self) -> &[u8]
        ensures { result.now ≡ self.now }
    {
        self.bytes.as_slice()
    }

    /// Adds bytes as they are.
    pub fn push(&mut self, bytes: &[u8]) -> Result<(), Error>
        ensures ok { OnOk result (self.new ≡ self.old ++ bytes.now) }
        ensures err { IfErr result (λ error. error ≡ no_memory) }
        ensures kept { OnErr result (self.new ≡ self.old) }
    {
        self.bytes.extend_from_slice(bytes)?;
        Ok(())
    }

    /// Adds a number in decimal.
    pub fn push_number(&mut self, alloc: Global, number: u64) -> Result<(), Error>
        ensures ok { OnOk result (self.new ≡ self.old ++ decimal number) }
        ensures err { IfErr result (λ error. error ≡ no_memory) }
        ensures kept { OnErr result (self.new ≡ self.old) }
    {
        let digits = number.to_string(alloc)?;
        self.push(digits.as_bytes())
    }
}
