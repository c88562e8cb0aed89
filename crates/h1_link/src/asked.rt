//! How often something was asked, which contracts see and no memory holds.
ghost use Rattle.std.specs.Prelude.{◌≡◌, ◌+◌};

use http_server::Log;
use std::marker::Model;

/// A count that takes no memory.
#[derive(Drop)]
pub struct Asked {
    times: Log<(), ()>,
}

impl Model for Asked {
    ghost use Rattle.std.specs.Prelude.{ℕ, length};

    ghost Value = { ℕ };

    ghost view = { λ a. length a.times.items };
}

impl Asked {
    /// Not asked yet.
    pub fn new() -> Self
        ensures { result ≡ 0 }
    {
        Asked { times: Log::new() }
    }

    /// Asked once more.
    pub fn count(&mut self)
        ensures { self.new ≡ 1 + self.old }
    {
        self.times = self.times.and(&(), &());
    }
}
