//! Replies as tasks: their parts, each handed on by itself.
ghost use Rattle.std.specs.Prelude.{◌≡◌, IfOk, IsOkUnless};
ghost use Rattle.h1_error.specs.Memory.{no_memory};
ghost use Rattle.h1_head.specs.Task.{is_end, type_name};

use crate::{Fields, ResponseHeader};
use bytes::Bytes;
use h1_error::Error;

/// A part of a reply.
#[derive(Debug, Drop)]
pub enum HttpTask {
    /// A header, and whether nothing follows it.
    Header(ResponseHeader, bool),
    /// A piece of the body, if there is one, and whether nothing follows it.
    Body(Option<Bytes>, bool),
    /// The same behind a change of protocol (RFC 9110, section 7.8).
    UpgradedBody(Option<Bytes>, bool),
    /// The trailer fields, if there are any (RFC 9112, section 7.1.2).
    Trailer(Option<Fields>),
    /// The end of the reply.
    Done,
    /// No further part comes, for this reason.
    Failed(Error),
}

impl HttpTask {
    /// Whether nothing follows.
    pub fn is_end(&self) -> bool
        ensures { result ≡ is_end self.now }
    {
        match self {
            HttpTask::Header(_, end) => *end,
            HttpTask::Body(_, end) => *end,
            HttpTask::UpgradedBody(_, end) => *end,
            HttpTask::Trailer(_) | HttpTask::Done | HttpTask::Failed(_) => true,
        }
    }

    /// The name of its kind, for reports.
    pub fn type_str(&self) -> &'static str
        ensures { result.now ≡ type_name self.now }
    {
        match self {
            HttpTask::Header(..) => "Header",
            HttpTask::Body(..) => "Body",
            HttpTask::UpgradedBody(..) => "UpgradedBody",
            HttpTask::Trailer(_) => "Trailer",
            HttpTask::Done => "Done",
            HttpTask::Failed(_) => "Failed",
        }
    }

    /// The same task once more. Being out of memory is the one error.
    pub fn copy(&self) -> Result<Self, Error>
        ensures ok { IfOk result (λ task. task ≡ self.now) }
        ensures err { IsOkUnless result no_memory }
    {
        Ok(match self {
            HttpTask::Header(header, end) => HttpTask::Header(header.copy()?, *end),
            HttpTask::Body(piece, end) => HttpTask::Body(piece.clone()?, *end),
            HttpTask::UpgradedBody(piece, end) => HttpTask::UpgradedBody(piece.clone()?, *end),
            HttpTask::Trailer(fields) => HttpTask::Trailer(copy_of(fields)?),
            HttpTask::Done => HttpTask::Done,
            HttpTask::Failed(error) => HttpTask::Failed(*error),
        })
    }
}

fn copy_of(fields: &Option<Fields>) -> Result<Option<Fields>, Error>
    ensures ok { IfOk result (λ copy. copy ≡ fields.now) }
    ensures err { IsOkUnless result no_memory }
{
    match fields {
        Some(fields) => Ok(Some(fields.copy()?)),
        None => Ok(None),
    }
}
