//! The end of the years that a date of HTTP can tell (RFC 9110, section 5.6.7).

/// The first moment that no date of HTTP can tell, since its year has four digits: the start of the
/// year 10000, in milliseconds since the epoch.
pub const YEAR_10000: u64 = 253_402_300_800_000;
