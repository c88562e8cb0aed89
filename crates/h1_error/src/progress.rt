//! What a poll of a connection answers.
use crate::Error;

/// Why a connection ended.
#[derive(Clone, Copy, Debug, PartialEq, Eq, Hash)]
pub enum End {
    /// All requests were answered, and the peer sends no further one.
    Finished,
    /// The last reply closes the connection (RFC 9112, section 9.6).
    NotKept,
    /// Bytes came after the last request, and pipelining is off.
    Overread,
    /// The connection failed.
    Failed(Error),
}

/// What a connection waits for.
#[derive(Clone, Copy, Debug, PartialEq, Eq, Hash)]
pub enum Waiting {
    /// The link has no byte ready to be read.
    Read,
    /// The link takes no byte or can't be flushed now.
    Write,
    /// The application isn't ready.
    App,
    /// As many link calls moved bytes as may in one poll.
    Budget,
}

/// What a poll of a connection answers.
#[derive(Clone, Copy, Debug, PartialEq, Eq, Hash)]
pub enum Progress {
    /// Poll again once what is named may be ready.
    Pending(Waiting),
    /// The connection has ended.
    Ready(End),
}
