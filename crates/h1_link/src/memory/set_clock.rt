//! A clock that stands where it was set.
ghost use Rattle.std.specs.Prelude.{◌≡◌, ◌+◌, ◌<◌, ◌≤◌};
ghost use Rattle.h1_link.specs.ClockState.{clock_at};

use crate::asked::Asked;
use crate::clock::Clock;
use h1_error::YEAR_10000;
use std::marker::Model;

/// A clock that stands where it was set, in milliseconds since the epoch. Contracts see the moment,
/// and how often it was asked. By a clock that is never set on no limit of time is reached.
#[derive(Drop)]
pub struct SetClock {
    moment: u64,
    asked: Asked,
}

impl Model for SetClock {
    ghost use Rattle.std.specs.Prelude.{◌<◌};
    ghost use Rattle.h1_error.specs.declared.moment.TheConstants.{YEAR_10000};
    ghost use Rattle.h1_link.specs.ClockState.{ClockState};

    ghost Value = { ClockState };

    ghost view = { λ c. record { moment = c.moment; asked = c.asked } };

    ghost invariant = { λ c. c.moment < YEAR_10000 };
}

impl SetClock {
    /// A clock that stands at this moment.
    pub fn new(now: u64) -> Self
        requires { now < YEAR_10000 }
        ensures { result ≡ clock_at now }
    {
        SetClock {
            moment: now,
            asked: Asked::new(),
        }
    }

    /// Sets the clock to a moment that isn't before the one that it stands at.
    pub fn set(&mut self, now: u64)
        requires below { now < YEAR_10000 }
        requires later { self.old.moment ≤ now }
        ensures { self.new ≡ record self.old { moment = now } }
    {
        self.moment = now;
    }
}

impl Clock for SetClock {
    ghost moment = { λ clock. clock.moment };

    ghost asked = { λ clock. clock.asked };

    fn now(&mut self) -> u64
        ensures moment { result ≡ self.new.moment }
        ensures later { self.old.moment ≤ result }
        ensures below { result < YEAR_10000 }
        ensures asked { self.new.asked ≡ 1 + self.old.asked }
        ensures stands { self.new.moment ≡ self.old.moment }
    {
        self.asked.count();
        self.moment
    }
}
