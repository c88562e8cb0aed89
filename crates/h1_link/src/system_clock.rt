//! The runtime's clock.
ghost use Rattle.std.specs.Prelude.{◌≡◌, ◌<◌, ◌≤◌};
ghost use Rattle.h1_link.specs.ClockState.{clock_at};

use crate::asked::Asked;
use crate::clock::Clock;
use h1_error::YEAR_10000;
use std::marker::Model;
use std::time;

/// The runtime's clock, kept from going back: where the runtime's time does, or can't be read, the
/// moment stands still. Contracts see the moment that was last told, and how often it was asked.
#[derive(Drop)]
pub struct SystemClock<R: time::Clock + Drop> {
    rt: R,
    last: u64,
    asked: Asked,
}

impl<R: time::Clock + Drop> Model for SystemClock<R> {
    ghost use Rattle.std.specs.Prelude.{◌<◌};
    ghost use Rattle.h1_error.specs.declared.moment.TheConstants.{YEAR_10000};
    ghost use Rattle.h1_link.specs.ClockState.{ClockState};

    ghost Value = { ClockState };

    ghost view = { λ c. record { moment = c.last; asked = c.asked } };

    ghost invariant = { λ c. c.last < YEAR_10000 };
}

impl<R: time::Clock + Drop> SystemClock<R> {
    /// The clock of this runtime.
    pub fn new(rt: R) -> Self
        ensures { result ≡ clock_at 0 }
    {
        SystemClock {
            rt,
            last: 0,
            asked: Asked::new(),
        }
    }
}

impl<R: time::Clock + Drop> Clock for SystemClock<R> {
    ghost moment = { λ clock. clock.moment };

    ghost asked = { λ clock. clock.asked };

    fn now(&mut self) -> u64 {
        self.asked.count();
        if let Ok(since_1970) = self.rt.since_1970() {
            self.last = later_of(self.last, since_1970.as_millis());
        }
        self.last
    }
}

/// The later of two moments, where it is before the year 10000.
fn later_of(last: u64, read: u128) -> u64
    requires { last < YEAR_10000 }
    ensures later { last ≤ result }
    ensures below { result < YEAR_10000 }
{
    match u64::try_from(read) {
        Ok(read) if last < read && read < YEAR_10000 => read,
        _ => last,
    }
}
