//! A request on its way to a client's session: its head, its whole body and the end of it
//! (RFC 9112, sections 3 to 7).
ghost use Rattle.std.specs.Prelude.{◌≡◌, IsTrue};
ghost use Rattle.h1_forward.specs.Standing.{is_head_step, is_piece_step};

use bytes::Bytes;
use futures::task::Poll;
use h1_client::v1::HttpSession;
use h1_error::Error;
use h1_head::RequestHeader;
use h1_link::Link;
use h1_transfer::Step;
use std::marker::Model;

/// What of a request is written next.
#[derive(Clone, Copy, Debug, PartialEq, Eq)]
pub enum Stage {
    Head,
    Body,
    /// The end of the body.
    End,
    /// The request is written whole, and flushed.
    Done,
}

/// A request with its whole body, which a client's session writes step by step.
#[derive(Drop)]
pub struct Forward {
    stage: Stage,
    /// The head, until the session took it.
    head: Option<RequestHeader>,
    /// The body, until the session took it.
    body: Option<Bytes>,
}

impl Model for Forward {
    ghost use Rattle.h1_forward.specs.Forwarding.{ForwardView};

    ghost Value = { ForwardView };

    ghost view = { λ f. record { stage = f.stage; head = f.head; body = f.body } };
}

impl Forward {
    ghost use Rattle.h1_forward.specs.Forwarding.{ForwardsBody, ForwardsEnd, ForwardsHead};
    ghost use Rattle.h1_forward.specs.Forwarding.{Forwards, GoesOn, IsAt, new_forward};
    ghost use Rattle.h1_forward.specs.Forwarding.{answer_of, stage_behind};
    ghost use Rattle.h1_forward.specs.Standing.{is_at};
    ghost use Rattle.h1_forward.specs.declared.forward.Stage.TheVariants.{Head, Body, End};

    /// A request of which nothing is written, with the payload of its body, which is empty where it
    /// has none.
    pub fn new(head: RequestHeader, body: Bytes) -> Self
        ensures { result ≡ new_forward head body }
    {
        Forward {
            stage: Stage::Head,
            head: Some(head),
            body: Some(body),
        }
    }

    /// What is written next.
    pub fn stage(&self) -> Stage
        ensures { result ≡ self.now.stage }
    {
        self.stage
    }

    /// Whether a client's session stands where the next step goes on: it asked nothing before the
    /// first, and its writing stands where the last one left it.
    pub fn is_at<L: Link + Drop>(&self, client: &HttpSession<L>) -> bool
        ensures at { IsTrue result → IsAt self.now client.now }
        ensures is { result ≡ is_at self.now client.now }
    {
        let begun = client.has_request_begun();
        let step = client.outgoing().step;
        match self.stage {
            Stage::Head => is_head_step(self.head.is_some(), begun, step) && self.body.is_some(),
            Stage::Body => begun && is_piece_step(self.body.is_some(), step),
            Stage::End => begun && (step == Step::Free || step == Step::Finish),
            Stage::Done => true,
        }
    }

    /// Writes what is next at a moment in milliseconds, and tells what comes then. A step that
    /// waits goes on with the next call; behind an error none may be made.
    pub fn poll_step<L: Link + Drop>(
        &mut self,
        client: &mut HttpSession<L>,
        now: u64,
    ) -> Poll<Result<Stage, Error>>
        requires { IsAt self.old client.old }
        ensures steps { Forwards L.state L.same_plan now self.old self.new client.old client.new result }
        ensures goes_on { GoesOn self.new client.new result }
        ensures plan { L.same_plan client.old.transfer.link client.new.transfer.link }
    {
        match self.stage {
            Stage::Head => self.poll_head(client, now),
            Stage::Body => self.poll_body(client, now),
            Stage::End => self.poll_end(client, now),
            Stage::Done => Poll::Ready(Ok(Stage::Done)),
        }
    }

    /// Hands in the head, or goes on with it.
    fn poll_head<L: Link + Drop>(
        &mut self,
        client: &mut HttpSession<L>,
        now: u64,
    ) -> Poll<Result<Stage, Error>>
        requires stage { self.old.stage ≡ Head }
        requires at { IsAt self.old client.old }
        ensures steps { ForwardsHead L.state L.same_plan now self.old self.new client.old
            client.new result }
        ensures goes_on { GoesOn self.new client.new result }
        ensures plan { L.same_plan client.old.transfer.link client.new.transfer.link }
    {
        let told = client.poll_write_request_header(&mut self.head, now);
        self.judge(told, Stage::Body)
    }

    /// Hands in the body, or goes on with it.
    fn poll_body<L: Link + Drop>(
        &mut self,
        client: &mut HttpSession<L>,
        now: u64,
    ) -> Poll<Result<Stage, Error>>
        requires stage { self.old.stage ≡ Body }
        requires at { IsAt self.old client.old }
        ensures steps { ForwardsBody L.state L.same_plan now self.old self.new client.old
            client.new result }
        ensures goes_on { GoesOn self.new client.new result }
        ensures plan { L.same_plan client.old.transfer.link client.new.transfer.link }
    {
        let told = client.poll_write_body(&mut self.body, now);
        self.judge(told, Stage::End)
    }

    /// Begins the end of the body, or goes on with it.
    fn poll_end<L: Link + Drop>(
        &mut self,
        client: &mut HttpSession<L>,
        now: u64,
    ) -> Poll<Result<Stage, Error>>
        requires stage { self.old.stage ≡ End }
        requires at { IsAt self.old client.old }
        ensures steps { ForwardsEnd L.state L.same_plan self.old self.new client.old
            client.new result }
        ensures goes_on { GoesOn self.new client.new result }
        ensures plan { L.same_plan client.old.transfer.link client.new.transfer.link }
    {
        let told = client.poll_finish_body(now);
        self.judge(told, Stage::Done)
    }

    /// Takes the answer of a client's call, behind which this stage comes.
    fn judge<T: Drop>(
        &mut self,
        told: Poll<Result<T, Error>>,
        next: Stage,
    ) -> Poll<Result<Stage, Error>>
        ensures answer { result ≡ answer_of next told }
        ensures next { self.new
            ≡ record self.old { stage = stage_behind self.old.stage next told } }
    {
        match told {
            Poll::Ready(Ok(_)) => {
                self.stage = next;
                Poll::Ready(Ok(next))
            }
            Poll::Ready(Err(error)) => Poll::Ready(Err(error)),
            Poll::Pending => Poll::Pending,
        }
    }
}

/// Whether a head is handed in before a request is begun, or goes on.
fn is_head_step(is_new: bool, begun: bool, step: Step) -> bool
    ensures { result ≡ is_head_step is_new begun step }
{
    if is_new {
        !begun && step == Step::Free
    } else {
        begun && step == Step::Head
    }
}

/// Whether a piece is handed in where no write is in progress, or goes on.
fn is_piece_step(is_new: bool, step: Step) -> bool
    ensures { result ≡ is_piece_step is_new step }
{
    match step {
        Step::Free => is_new,
        Step::Piece(_) => !is_new,
        Step::Head | Step::Finish => false,
    }
}
