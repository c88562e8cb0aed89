//! The side of a link in memory that is written to.
use crate::memory::Gate;

/// What a link in memory took, and how much more it takes.
#[derive(Drop)]
pub struct Outlet {
    /// The bytes that were taken.
    pub written: Vec<u8>,
    /// How many of them a flush sent on.
    pub flushed: usize,
    /// How many were when the link was last shut down.
    pub shut_at: usize,
    /// How much is taken from here on.
    pub gate: Gate,
    /// The next write fails.
    pub fault: bool,
    /// The count of write waits when the gate was last set.
    pub noted: u64,
    /// How often a flush wasn't ready.
    pub unready: u64,
}
