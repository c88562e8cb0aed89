//! The side of a link in memory that is read from.

/// What is put ahead of a link in memory, and how far it is read.
#[derive(Drop)]
pub struct Inlet {
    /// All bytes that were put ahead.
    pub put: Vec<u8>,
    /// How many of them were given.
    pub next: usize,
    /// How many had been put ahead when the end was said.
    pub end_at: Option<usize>,
    /// A read met the end.
    pub ended: bool,
    /// The next read fails.
    pub fault: bool,
    /// The count of read waits when bytes were last put ahead or the end was said.
    pub noted: u64,
}
