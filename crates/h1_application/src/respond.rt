//! Applications that answer at once, by the head of a request alone.
ghost use Rattle.std.specs.Prelude.{◌≡◌, [], IfOk, IfErr, false};
ghost use Rattle.h1_error.specs.Memory.{no_memory};
ghost use Rattle.h1_transcript.specs.Lawful.{IsLawful};
ghost use Rattle.h1_head.specs.Views.{RequestView};
ghost use Rattle.h1_transcript.specs.declared.reply.Reply.{Reply};
ghost use Rattle.h1_application.specs.AtOnce.{AnyLawful, AnswersAtOnce, at_once_is_lawful};

use crate::ServeHttp;
use futures::task::Poll;
use h1_error::Error;
use h1_head::RequestHeader;
use h1_link::Link;
use h1_server::HttpSession;
use h1_transcript::Reply;
use std::alloc::Global;

/// How long the body of a reply of [`Responds`] may wait for a peer that takes none of it, in
/// milliseconds.
pub const REPLY_TIME: u64 = 60_000;

/// An application that answers at once, by the head of a request alone: with its method, `path`,
/// `query` and fields. The body of a reply to HEAD is not sent, and its fields are.
pub trait Respond {
    /// Which replies it gives to a request with this head: any that can be read, where it doesn't
    /// say more.
    ghost says: { Self → RequestView → Reply → Type 0 } = { λ _. AnyLawful };

    /// The reply to a request with this head. The only error is being out of memory, and it ends the
    /// connection without a reply; a fault of the application's own is a reply, say of 500.
    fn respond(&self, alloc: Global, head: &RequestHeader) -> Result<Reply, Error>
        ensures ok { IfOk result (λ reply. says self.now head.now reply) }
        ensures lawful { IfOk result (λ reply. IsLawful reply.header) }
        ensures err { IfErr result (λ error. error ≡ no_memory) };
}

/// Serves with what it is given. It lets the next request follow at once, and reads no body: what
/// is left of one is drained after the reply. A connection whose peer takes nothing of a body for
/// [`REPLY_TIME`] ends.
#[derive(Clone, Copy, Debug, PartialEq, Eq)]
pub struct Responds<A>(pub A);

impl<L: Link + Drop, C: Drop, A: Respond + Drop> ServeHttp<L, C> for Responds<A> {
    type Job = Global;

    ghost gives = { λ app. AnswersAtOnce (A.says app.0) };

    ghost begins = { λ job. Unit {0} };

    ghost lawful = { λ app. at_once_is_lawful (A.says app.0) };

    ghost pends = { λ _. 0 };

    ghost runs = { λ _ job head began now payload limit. (now ≡ began) × (payload ≡ []) };

    ghost takes_whole = { λ _. false };

    fn gathers(&self) -> bool {
        false
    }

    fn start(&self, alloc: Global) -> Result<Global, Error> {
        Ok(alloc)
    }

    fn poll_response(
        &self,
        job: &mut Global,
        http: &mut HttpSession<L, C>,
        now: u64,
    ) -> Poll<Result<Reply, Error>> {
        http.set_write_timeout(Some(REPLY_TIME));
        http.set_close_on_response_before_downstream_finish(false);
        http.set_pipelining_enabled(true);
        Poll::Ready(self.0.respond(*job, http.req_header()))
    }
}
