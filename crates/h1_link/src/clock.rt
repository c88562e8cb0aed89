//! A clock that never goes back.
ghost use Rattle.std.specs.Prelude.{◌≡◌, ℕ, ◌+◌, ◌<◌, ◌≤◌};
ghost use Rattle.h1_error.specs.declared.moment.TheConstants.{YEAR_10000};

/// A clock. Contracts see the moment that it last told, in milliseconds since the epoch, and how
/// often it was asked.
pub trait Clock {
    ghost moment: { Self → ℕ };

    ghost asked: { Self → ℕ };

    /// The moment now, in milliseconds since the epoch.
    fn now(&mut self) -> u64
        ensures moment { result ≡ moment self.new }
        ensures later { moment self.old ≤ result }
        ensures below { result < YEAR_10000 }
        ensures asked { asked self.new ≡ 1 + asked self.old };
}
