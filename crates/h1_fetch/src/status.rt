//! The exit statuses of the program.
use h1_error::Error;

/// How a run ended.
#[derive(Clone, Copy, Debug, PartialEq, Eq)]
pub(crate) enum Status {
    /// The job was done, and its output written whole.
    Done,
    /// The words are no task.
    Words,
    /// The script is outside of its grammar.
    Script,
    /// The source failed.
    Source,
    /// The sink failed.
    Sink,
    /// There was no memory.
    Memory,
    /// No response came.
    Response,
    /// The server can't be reached.
    Server,
}

/// Why a request has no response, and how many have one.
#[derive(Clone, Copy, Debug, PartialEq, Eq)]
pub(crate) struct NoResponse {
    pub number: u32,
    pub error: Error,
}
