//! Reading the responses as tasks: their heads, and the body of the final one (RFC 9112, sections 4
//! and 6).
ghost use Rattle.std.specs.Prelude.{◌≡◌, IsSome, None};
ghost use Rattle.h1_client.specs.Tasks.{body_task, head_task};

use super::HttpSession;
use bytes::Bytes;
use futures::task::Poll;
use h1_error::Error;
use h1_head::{HttpTask, ResponseHeader};
use h1_link::Link;

impl<L: Link + Drop> HttpSession<L> {
    ghost use Rattle.h1_client.specs.ClientView.{request_of, response_of};
    ghost use Rattle.h1_client.specs.Tasks.{BodyTaskCall, HeadTaskCall, TaskCall, ends_with_head};

    /// Reads the next part of the responses: the head of an interim one, that of the final one, or
    /// behind it a piece of its body, with whether nothing follows. `Done` is the end of the body.
    /// Where memory ran out for a copy of a head the head was read all the same, and stands in
    /// `resp_header`. Every refusal but want of memory is answered again, with no link call.
    pub fn poll_read_response_task(&mut self, now: u64) -> Poll<Result<HttpTask, Error>>
        requires begun { IsSome (request_of self.old) }
        ensures { TaskCall L.state L.same_plan now self.old self.new result
            (response_of self.old) }
    {
        if self.has_final_head() {
            return self.poll_read_body_task(now);
        }
        self.poll_read_head_task(now)
    }

    /// Reads the next head as a task.
    fn poll_read_head_task(&mut self, now: u64) -> Poll<Result<HttpTask, Error>>
        requires begun { IsSome (request_of self.old) }
        requires wants { response_of self.old ≡ None }
        ensures { HeadTaskCall L.state L.same_plan now self.old self.new result }
    {
        let told = self.poll_read_resp_header_parts(now);
        head_task(self.ends_with_head(), told)
    }

    /// Whether the head that was read last is the final one, and nothing follows it.
    fn ends_with_head(&self) -> bool
        ensures { result ≡ ends_with_head self.now }
    {
        self.has_final_head() && self.is_body_done()
    }

    /// Reads a part of the body as a task.
    fn poll_read_body_task(&mut self, now: u64) -> Poll<Result<HttpTask, Error>>
        requires begun { IsSome (request_of self.old) }
        requires read { IsSome (response_of self.old) }
        ensures { BodyTaskCall L.state L.same_plan now self.old self.new result }
    {
        let told = self.poll_read_body_bytes(now);
        let (upgraded, done) = (self.was_upgraded(), self.is_body_done());
        body_task(upgraded, done, told)
    }
}

/// The answer of a read of a head as a task.
fn head_task(done: bool, told: Poll<Result<ResponseHeader, Error>>) -> Poll<Result<HttpTask, Error>>
    ensures { result ≡ head_task done told }
{
    match told {
        Poll::Ready(Ok(head)) => Poll::Ready(Ok(HttpTask::Header(head, done))),
        Poll::Ready(Err(error)) => Poll::Ready(Err(error)),
        Poll::Pending => Poll::Pending,
    }
}

/// The answer of a read of the body as a task.
fn body_task(
    upgraded: bool,
    done: bool,
    told: Poll<Result<Option<Bytes>, Error>>,
) -> Poll<Result<HttpTask, Error>>
    ensures { result ≡ body_task upgraded done told }
{
    match told {
        Poll::Ready(Ok(Some(piece))) if upgraded => {
            Poll::Ready(Ok(HttpTask::UpgradedBody(Some(piece), done)))
        }
        Poll::Ready(Ok(Some(piece))) => Poll::Ready(Ok(HttpTask::Body(Some(piece), done))),
        Poll::Ready(Ok(None)) => Poll::Ready(Ok(HttpTask::Done)),
        Poll::Ready(Err(error)) => Poll::Ready(Err(error)),
        Poll::Pending => Poll::Pending,
    }
}
