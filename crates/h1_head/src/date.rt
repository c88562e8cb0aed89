//! The value of a Date field (RFC 9110, section 6.6.1).
ghost use Rattle.std.specs.Prelude.{◌≡◌, ◌<◌, ◌/◌};
ghost use Rattle.h1_error.specs.declared.moment.TheConstants.{YEAR_10000};
ghost use Rattle.h1_head.specs.Date.{IsDateAt};

use httpdate::HttpDate;
use std::marker::Model;

/// The IMF-fixdate of a moment, in milliseconds since 1970, up to the year 9999.
pub fn get_cached_date(now: u64) -> [u8; 29]
    requires { now < YEAR_10000 }
    ensures { IsDateAt (now / 1000) result }
{
    match HttpDate::from_unix_secs(now / 1000) {
        Ok(date) => date.to_bytes(),
        Err(_) => unreachable!(),
    }
}

/// The date of the second that was asked for last, which is printed once for all its requests. A
/// contract sees that second.
#[derive(Debug, Drop)]
pub struct CacheableDate {
    second: u64,
    text: [u8; 29],
}

impl Model for CacheableDate {
    ghost use Rattle.std.specs.Prelude.{ℕ};
    ghost use Rattle.h1_head.specs.Date.{IsDateAt};

    ghost Value = { ℕ };

    ghost view = { λ cache. cache.second };

    ghost invariant = { λ cache. IsDateAt cache.second cache.text };
}

impl CacheableDate {
    /// The date of a moment, in milliseconds since 1970, up to the year 9999.
    // Kept apart, since most calls of `update` print nothing.
    #[inline(never)]
    pub fn new(now: u64) -> Self
        requires { now < YEAR_10000 }
        ensures { result ≡ now / 1000 }
    {
        CacheableDate {
            second: now / 1000,
            text: get_cached_date(now),
        }
    }

    /// Keeps the date of this moment, which is printed only where another second is kept.
    #[inline(always)]
    pub fn update(&mut self, now: u64)
        requires { now < YEAR_10000 }
        ensures { self.new ≡ now / 1000 }
    {
        if self.second != now / 1000 {
            *self = CacheableDate::new(now);
        }
    }

    /// The IMF-fixdate of a moment, as `get_cached_date` gives it. It is kept.
    #[inline(always)]
    pub fn get_date(&mut self, now: u64) -> [u8; 29]
        requires { now < YEAR_10000 }
        ensures date { IsDateAt (now / 1000) result }
        ensures second { self.new ≡ now / 1000 }
    {
        self.update(now);
        self.text
    }
}
