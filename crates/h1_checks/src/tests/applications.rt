//! An application that refuses.
ghost use Rattle.std.specs.Prelude.{◌≡◌, IfOk, IfErr, false};
ghost use Rattle.h1_error.specs.Memory.{no_memory};
ghost use Rattle.h1_transcript.specs.Lawful.{IsLawful};
ghost use Rattle.h1_echo.specs.Echo.{refused_reply};

use futures::task::Poll;
use h1_app::{BodyBytes, Error, HttpSession, Reply, ServeHttp};
use h1_head::ResponseHeader;
use h1_link::Link;
use std::alloc::Global;

/// Waits so often by itself, then refuses the request, and leaves its body to be drained.
#[derive(Clone, Copy)]
pub struct Refuses {
    pub waits: u64,
}

/// How often a job waited by itself.
#[derive(Drop)]
pub struct Refusing {
    alloc: Global,
    waited: u64,
}

impl<L: Link + Drop, C: Drop> ServeHttp<L, C> for Refuses {
    type Job = Refusing;

    ghost gives = { λ _ given reply. IsLawful reply.header };

    ghost begins = { λ job. job.waited ≡ 0 };

    ghost lawful = { λ _ given reply is. is };

    ghost pends = { λ job. job.waited };

    ghost runs = { λ _ job head began now payload limit. Unit {0} };

    ghost takes_whole = { λ _. false };

    fn gathers(&self) -> bool {
        false
    }

    fn start(&self, alloc: Global) -> Result<Refusing, Error> {
        Ok(Refusing { alloc, waited: 0 })
    }

    fn poll_response(
        &self,
        job: &mut Refusing,
        http: &mut HttpSession<L, C>,
        now: u64,
    ) -> Poll<Result<Reply, Error>> {
        if job.waited < self.waits {
            job.waited += 1;
            return Poll::Pending;
        }
        http.set_close_on_response_before_downstream_finish(false);
        http.set_pipelining_enabled(true);
        Poll::Ready(refusal(job.alloc))
    }
}

/// A reply without a body.
pub fn refusal(alloc: Global) -> Result<Reply, Error>
    ensures ok { IfOk result (λ reply. reply ≡ refused_reply) }
    ensures err { IfErr result (λ error. error ≡ no_memory) }
{
    let mut header = ResponseHeader::build(alloc, 400, Some(1))?;
    match header.append_header(b"content-length", b"0") {
        Ok(()) => Ok(Reply {
            header,
            body: BodyBytes::new(alloc),
        }),
        Err(error) => Err(error),
    }
}
