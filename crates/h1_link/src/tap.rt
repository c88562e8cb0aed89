//! Bytes that passed, which contracts see and no memory holds.
ghost use Rattle.std.specs.Prelude.{◌≡◌, ◌++◌, ◌∷◌, []};

use http_server::Log;
use std::marker::Model;

/// All bytes that passed, in order. It takes no memory, and its calls do nothing at run time.
#[derive(Drop)]
pub struct Tap {
    bytes: Log<u8, ()>,
}

impl Model for Tap {
    ghost use Rattle.std.specs.Prelude.{ℕ, List, map};

    ghost Value = { List ℕ };

    ghost view = { λ t. map (λ p. p.0) t.bytes.items };
}

impl Tap {
    /// No byte passed yet.
    pub fn new() -> Self
        ensures { result ≡ [] }
    {
        Tap { bytes: Log::new() }
    }

    /// These bytes passed.
    pub fn pass(&mut self, bytes: &[u8])
        ensures { self.new ≡ self.old ++ bytes.now }
    {
        // The call does nothing at run time, so the compiler leaves nothing of the loop.
        for byte in bytes {
            self.pass_one(byte);
        }
    }

    fn pass_one(&mut self, byte: &u8)
        ensures { self.new ≡ self.old ++ byte.now ∷ [] }
    {
        self.bytes = self.bytes.and(byte, &());
    }
}
