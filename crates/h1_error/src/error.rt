//! Errors, their kinds and the kinds' numbers.
ghost use Rattle.std.specs.Prelude.{◌≡◌, Some, IfOk, IfErr, false, string_bytes};
ghost use Rattle.h1_error.specs.Memory.{no_memory};
ghost use Rattle.h1_error.specs.Code.{code_of};
ghost use Rattle.h1_error.specs.Text.{text_of, task_name, connect_name};

use crate::HeadFault;
use std::alloc::{AllocError, AllocFailed, Global};

/// An error of a connection, a session or a call on a head.
#[derive(Clone, Copy, Debug, PartialEq, Eq, Hash, thiserror::Error)]
#[error("{kind}")]
pub struct Error {
    /// What went wrong.
    pub kind: ErrorType,
    /// Whether a client may send the request again: true only where a reused connection was closed
    /// or failed before any byte of a response head came.
    pub retry: bool,
}

/// The kinds of error. Each has a number, which [`ErrorType::code`] gives, and a name for reports,
/// which [`ErrorType::text`] gives. Its message is for people.
#[derive(Clone, Copy, Debug, PartialEq, Eq, Hash, thiserror::Error)]
pub enum ErrorType {
    /// The head is refused.
    #[error("the head is refused: {0}")]
    InvalidHTTPHeader(HeadFault),
    /// The peer closed inside a message (RFC 9112, section 8).
    #[error("the peer closed the connection inside a message")]
    ConnectionClosed,
    /// A body that its framing doesn't allow (RFC 9112, section 7.1).
    #[error("the body isn't what its framing allows")]
    InvalidBody,
    /// The link failed in a read.
    #[error("a read from the link failed")]
    ReadError,
    /// The link failed in a write or a flush.
    #[error("a write to the link failed")]
    WriteError,
    /// A read waited past its deadline.
    #[error("a read went past its deadline")]
    ReadTimedout,
    /// A write waited past its deadline.
    #[error("a write went past its deadline")]
    WriteTimedout,
    /// A body ended before its Content-Length was reached.
    #[error("the body ended before its Content-Length was reached")]
    PrematureBodyEnd,
    /// A link couldn't be made or taken again.
    #[error("no link to the server: {0}")]
    ConnectError(ConnectFault),
    /// A task of a kind that doesn't fit where it came.
    #[error("a task of kind {name} doesn't fit here", name = .0.name())]
    UnexpectedTask(TaskKind),
    /// A module refused with this number.
    #[error("a module refused with the number {0}")]
    ModuleFailed(u32),
    /// A failed task with this number.
    #[error("a task failed with the number {0}")]
    TaskFailed(u32),
    /// A module of this key is there already.
    #[error("a module of this key is there already")]
    Duplicate,
    /// The allocator had no memory.
    #[error("out of memory")]
    NoMemory,
    /// A body is longer than its receiver gathers (RFC 9110, section 15.5.14).
    #[error("the body is longer than what is gathered of one")]
    ContentTooLarge,
}

/// Why a link couldn't be made or taken again.
#[derive(Clone, Copy, Debug, PartialEq, Eq, Hash, thiserror::Error)]
pub enum ConnectFault {
    /// The dialer failed.
    #[error("the dialer failed")]
    DialFailed,
    /// Bytes came after a message's body where none may.
    #[error("bytes came after a message's body where none may")]
    DataAfterBody,
}

/// The kinds of task that write a message.
#[derive(Clone, Copy, Debug, PartialEq, Eq, Hash)]
pub enum TaskKind {
    Header,
    Body,
    UpgradedBody,
    Trailer,
    Done,
    Failed,
}

impl ErrorType {
    /// The kind's number. Different kinds have different numbers.
    pub fn code(&self) -> u32
        ensures { result ≡ code_of self.now }
    {
        match self {
            ErrorType::InvalidHTTPHeader(_) => 1,
            ErrorType::ConnectionClosed => 2,
            ErrorType::InvalidBody => 3,
            ErrorType::ReadError => 4,
            ErrorType::WriteError => 5,
            ErrorType::ReadTimedout => 6,
            ErrorType::WriteTimedout => 7,
            ErrorType::PrematureBodyEnd => 8,
            ErrorType::ConnectError(_) => 9,
            ErrorType::UnexpectedTask(_) => 10,
            ErrorType::ModuleFailed(_) => 11,
            ErrorType::TaskFailed(_) => 12,
            ErrorType::Duplicate => 13,
            ErrorType::NoMemory => 14,
            ErrorType::ContentTooLarge => 15,
        }
    }

    /// The kind's name in a report: the variant's name, and after one space the inner variant's
    /// name or the number in decimal, where there is one.
    pub fn text(&self, alloc: Global) -> Result<String, Error>
        ensures text { IfOk result (λ text. string_bytes text ≡ text_of self.now) }
        ensures memory { IfErr result (λ error. error ≡ no_memory) }
    {
        let text = match self {
            ErrorType::InvalidHTTPHeader(fault) => {
                format!(in alloc; "InvalidHTTPHeader {}", fault.name())?
            }
            ErrorType::ConnectionClosed => format!(in alloc; "ConnectionClosed")?,
            ErrorType::InvalidBody => format!(in alloc; "InvalidBody")?,
            ErrorType::ReadError => format!(in alloc; "ReadError")?,
            ErrorType::WriteError => format!(in alloc; "WriteError")?,
            ErrorType::ReadTimedout => format!(in alloc; "ReadTimedout")?,
            ErrorType::WriteTimedout => format!(in alloc; "WriteTimedout")?,
            ErrorType::PrematureBodyEnd => format!(in alloc; "PrematureBodyEnd")?,
            ErrorType::ConnectError(fault) => format!(in alloc; "ConnectError {}", fault.name())?,
            ErrorType::UnexpectedTask(task) => format!(in alloc; "UnexpectedTask {}", task.name())?,
            ErrorType::ModuleFailed(number) => format!(in alloc; "ModuleFailed {number}")?,
            ErrorType::TaskFailed(number) => format!(in alloc; "TaskFailed {number}")?,
            ErrorType::Duplicate => format!(in alloc; "Duplicate")?,
            ErrorType::NoMemory => format!(in alloc; "NoMemory")?,
            ErrorType::ContentTooLarge => format!(in alloc; "ContentTooLarge")?,
        };
        Ok(text)
    }
}

impl ConnectFault {
    /// The variant's name.
    pub fn name(&self) -> &'static str
        ensures { result.now ≡ connect_name self.now }
    {
        match self {
            ConnectFault::DialFailed => "DialFailed",
            ConnectFault::DataAfterBody => "DataAfterBody",
        }
    }
}

impl TaskKind {
    /// The variant's name.
    pub fn name(&self) -> &'static str
        ensures { result.now ≡ task_name self.now }
    {
        match self {
            TaskKind::Header => "Header",
            TaskKind::Body => "Body",
            TaskKind::UpgradedBody => "UpgradedBody",
            TaskKind::Trailer => "Trailer",
            TaskKind::Done => "Done",
            TaskKind::Failed => "Failed",
        }
    }
}

impl From<ErrorType> for Error {
    ghost use Rattle.std.specs.Prelude.{◌≡◌, false};
    ghost use Rattle.h1_error.specs.declared.error.Error.{Error};

    ghost from_gives = { λ kind error. error ≡ record { kind = kind; retry = false } };

    fn from(kind: ErrorType) -> Error {
        Error { kind, retry: false }
    }
}

impl From<AllocError> for Error {
    ghost use Rattle.std.specs.Prelude.{◌≡◌};
    ghost use Rattle.h1_error.specs.Memory.{no_memory};

    ghost from_gives = { λ _ error. error ≡ no_memory };

    fn from(_refused: AllocError) -> Error {
        Error::from(ErrorType::NoMemory)
    }
}

impl<T: Drop> From<AllocFailed<T>> for Error {
    ghost use Rattle.std.specs.Prelude.{◌≡◌};
    ghost use Rattle.h1_error.specs.Memory.{no_memory};

    ghost from_gives = { λ _ error. error ≡ no_memory };

    fn from(_refused: AllocFailed<T>) -> Error {
        Error::from(ErrorType::NoMemory)
    }
}
