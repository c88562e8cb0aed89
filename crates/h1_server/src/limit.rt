//! A limit of time that is set, in milliseconds.
ghost use Rattle.std.specs.Prelude.{◌≡◌};
ghost use Rattle.h1_server.specs.Limit.{limited, shown};

/// How many milliseconds something may take, or that it has no limit.
#[derive(Clone, Copy, Debug, PartialEq, Eq)]
pub struct Limit {
    /// The last number of 64 bits is without a limit.
    millis: u64,
}

impl Limit {
    /// So many milliseconds, or no limit. The last number of 64 bits, some 584 million years, is
    /// without a limit too.
    #[inline(always)]
    pub fn new(millis: Option<u64>) -> Self
        ensures { result ≡ limited millis }
    {
        Limit {
            millis: millis.unwrap_or(u64::MAX),
        }
    }

    /// How many milliseconds; None is without a limit.
    #[inline(always)]
    pub fn get(self) -> Option<u64>
        ensures { result ≡ shown self }
    {
        if self.millis == u64::MAX {
            None
        } else {
            Some(self.millis)
        }
    }
}
