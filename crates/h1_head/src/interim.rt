//! Interim responses (RFC 9110, section 15.2).
ghost use Rattle.std.specs.Prelude.{◌≡◌};
ghost use Rattle.h1_head.specs.Interim.{is_interim};

/// Whether another response to the same request follows one of this status.
#[inline(always)]
pub fn is_interim(status: u16) -> bool
    ensures { result ≡ is_interim status }
{
    100 <= status && status < 200 && status != 101
}
