//! Handing the link on to the next request: the rest of the body is read, and what was received
//! after it is kept.
ghost use Rattle.std.specs.Prelude.{◌≡◌, IsSome, IfSome, IfNone, option_map, Err, true};
ghost use Rattle.h1_server.specs.Reuse.{prefix_of};
ghost use Rattle.futures.specs.declared.task.Poll.TheVariants.{Ready};
ghost use Rattle.h1_transfer.specs.declared.outgoing.Step.TheVariants.{Free};

use super::HttpSession;
use crate::ReusableHttpStream;
use crate::persistence::may_follow;
use crate::times::drain_limits;
use bytes::BytesMut;
use futures::task::Poll;
use h1_error::Error;
use h1_link::Link;

impl<L: Link + Drop, C: Drop> HttpSession<L, C> {
    ghost use Rattle.h1_server.specs.Payload.{DrainsBody};
    ghost use Rattle.h1_server.specs.Persistence.{may_go_on};
    ghost use Rattle.h1_server.specs.Reuse.{ReusesBy, AwaitsNext, prefix_of};
    ghost use Rattle.h1_server.specs.Calls.{is_reused};
    ghost use Rattle.h1_transfer.specs.Calls.{Called, succeeds, read_fault_of};

    /// Reads the rest of the request's body (RFC 9112, section 9.3). A read that waits is refused
    /// where no byte came as long as the read timeout, or where the total drain timeout is over.
    pub fn poll_drain_request_body(&mut self, now: u64) -> Poll<Result<(), Error>>
        requires { IsSome self.old.request }
        ensures again { IfSome self.old.body.refused (λ error. (result ≡ Ready (Err error))
            × (self.new ≡ self.old)) }
        ensures drains { IfNone self.old.body.refused
            (DrainsBody L.state now self.old self.new result) }
        ensures calls { Called (L.state self.old.link) (L.state self.new.link) (succeeds result)
            (read_fault_of result) }
        ensures plan { L.same_plan self.old.link self.new.link }
    {
        self.transfer
            .poll_drain(drain_limits(self.settings.times, now))
    }

    /// Whether the link may serve the next request: the rest of this one's body is read first. A
    /// link that isn't kept is shut, and so is one whose reply isn't whole.
    #[inline(always)]
    pub fn poll_reuse(&mut self, now: u64) -> Poll<Result<bool, Error>>
        requires request { IsSome self.old.request }
        requires free { self.old.reply.step ≡ Free }
        ensures reuse { ReusesBy L.state now self.old self.new result (may_go_on self.old) }
        ensures calls { may_go_on self.old ≡ true
            → Called (L.state self.old.link) (L.state self.new.link) (is_reused result)
            (read_fault_of result) }
        ensures plan { L.same_plan self.old.link self.new.link }
    {
        self.reusable = false;
        if !self.may_go_on() {
            self.transfer.shutdown();
            return Poll::Ready(Ok(false));
        }
        let limits = drain_limits(self.settings.times, now);
        match self.transfer.poll_drain(limits) {
            Poll::Pending => Poll::Pending,
            Poll::Ready(Err(error)) => Poll::Ready(Err(error)),
            Poll::Ready(Ok(())) => {
                self.reusable = may_follow(self.settings.pipelining, self.transfer.received());
                Poll::Ready(Ok(self.reusable))
            }
        }
    }

    /// Whether the link may serve the next request, as `poll_reuse` answered last.
    pub fn is_reusable(&self) -> bool
        ensures { result ≡ self.now.reusable }
    {
        self.reusable
    }

    /// Begins the next request on the same link: what was received and not used is parsed before
    /// any read. Keep-alive, pipelining, the budget and the context stay, the limits of time are set
    /// as at first, and one request fewer may follow.
    #[inline(always)]
    pub fn next_request(&mut self)
        requires { self.old.reusable ≡ true }
        ensures { AwaitsNext self.old self.new }
    {
        self.transfer.start_over();
        self.asked.start_over();
        self.keep = false;
        self.settings.start_over();
        self.reusable = false;
        self.read_limit = None;
    }

    /// The link for the next request, with what was received and not used.
    pub fn into_reusable(self) -> ReusableHttpStream<L>
        requires { self.reusable ≡ true }
        ensures { (result.stream ≡ self.link)
            × (option_map (λ bytes. bytes.items) result.prefix ≡ prefix_of self.received) }
    {
        let (link, received) = self.transfer.into_parts();
        ReusableHttpStream {
            stream: link,
            prefix: prefix_of(received),
        }
    }
}

/// The bytes, where there are any.
fn prefix_of(received: BytesMut) -> Option<BytesMut>
    ensures { option_map (λ bytes. bytes.items) result ≡ prefix_of received.items }
{
    if received.is_empty() {
        None
    } else {
        Some(received)
    }
}
