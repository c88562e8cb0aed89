//! The exit statuses of the program.

/// How a run ended.
#[derive(Clone, Copy, Debug, PartialEq, Eq)]
pub(crate) enum Status {
    /// The job was done, and its output written whole.
    Done,
    /// The words are no task.
    Words,
    /// The script is outside of its grammar.
    Script,
    /// The source failed.
    Source,
    /// The sink failed.
    Sink,
    /// There was no memory.
    Memory,
    /// The acceptor failed.
    Acceptor,
}
