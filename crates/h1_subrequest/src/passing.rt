//! What passes of the tasks that a subrequest puts.
ghost use Rattle.std.specs.Prelude.{◌≡◌};
ghost use Rattle.h1_subrequest.specs.Writing.{passing};

use crate::BodyMode;
use h1_head::{HttpTask, RequestHeader};

/// What becomes of a task, and how far the body is then.
#[derive(Drop)]
pub enum Passing {
    /// It isn't put.
    Drops(BodyMode),
    /// This is put, which is the task with its payload cut to the length.
    Passes(HttpTask, BodyMode),
}

/// What becomes of a task of the response to this request. `answered` says that a header was put
/// behind which no other comes.
pub fn what_passes(
    request: &RequestHeader,
    answered: bool,
    mode: BodyMode,
    task: HttpTask,
) -> Passing
    ensures { result ≡ passing request.now answered mode task }
{
    match task {
        HttpTask::Header(_, _) if answered => Passing::Drops(mode),
        HttpTask::Header(header, end) => {
            let mode = mode.behind(request, &header);
            Passing::Passes(HttpTask::Header(header, end), mode)
        }
        HttpTask::Body(piece, end) => match piece {
            Some(piece) => match mode.cut(piece) {
                Some((part, mode)) => Passing::Passes(HttpTask::Body(Some(part), end), mode),
                None => Passing::Drops(mode),
            },
            None => Passing::Passes(HttpTask::Body(None, end), mode),
        },
        HttpTask::UpgradedBody(piece, end) => match piece {
            Some(piece) => match mode.cut(piece) {
                Some((part, mode)) => {
                    Passing::Passes(HttpTask::UpgradedBody(Some(part), end), mode)
                }
                None => Passing::Drops(mode),
            },
            None => Passing::Passes(HttpTask::UpgradedBody(None, end), mode),
        },
        HttpTask::Done => mode.done(),
        other => Passing::Passes(other, mode),
    }
}
