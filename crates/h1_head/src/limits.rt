//! How much a head may hold.

/// The greatest number of field lines in a head.
pub const MAX_HEADERS: usize = 256;

/// The greatest number of bytes of a head as it is received.
pub const MAX_HEADER_SIZE: usize = 1_048_575;
