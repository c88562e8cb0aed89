//! The calls of a session, each where it has its turn: elsewhere it is pending, and does nothing.
ghost use Rattle.std.specs.Prelude.{◌≡◌, ℕ, List, Option, Some, IsSome, IsTrue};
ghost use Rattle.h1_transfer.specs.BodyWrites.{IsEndStep, IsPieceStep};
ghost use Rattle.h1_client.specs.Asking.{IsAskStep};
ghost use Rattle.h1_client.specs.ClientView.{request_of, response_of};
ghost use Rattle.h1_client.specs.Words.{RequestView, ResponseView};
ghost use Rattle.h1_asking.specs.Reading.{ReadsHeads, ReadsOn, ReadsSoFar, Unread};
ghost use Rattle.h1_asking.specs.Turns.{AskTurn, EndTurn, HeadTurn, IsAnsweredEmpty, IsHandedOver, PartTurn, PieceTurn};
ghost use Rattle.h1_asking.specs.Turns.{is_ask_step, is_end_step, is_piece_step, may_ask, may_finish, may_read_body, may_write};

use bytes::Bytes;
use futures::task::Poll;
use h1_client::v1::HttpSession;
use h1_error::Error;
use h1_head::RequestHeader;
use h1_link::Link;
use h1_transfer::Step;

/// Hands in the head of a request, or goes on with it.
pub fn ask<L: Link + Drop>(
    session: &mut HttpSession<L>,
    head: &mut Option<RequestHeader>,
    now: u64,
) -> Poll<Result<usize, Error>>
    ensures call { AskTurn L.state L.same_plan now session.old session.new head.old head.new result }
    ensures handed { (request : RequestView)
        → IsHandedOver request head.old (request_of session.old)
        → IsHandedOver request head.new (request_of session.new) }
    ensures done { IsAnsweredEmpty result head.new }
    ensures settings { session.new.settings ≡ session.old.settings }
    ensures unread { (before : Option (List ℕ)) → Unread L.state before session.old
        → Unread L.state before session.new }
{
    if !may_ask(session, head) {
        return Poll::Pending;
    }
    session.poll_write_request_header(head, now)
}

/// Hands in a piece of the request's body, or goes on with it.
pub fn write_piece<L: Link + Drop>(
    session: &mut HttpSession<L>,
    piece: &mut Option<Bytes>,
    now: u64,
) -> Poll<Result<Option<usize>, Error>>
    ensures call { PieceTurn L.state L.same_plan now session.old session.new piece.old piece.new
        result }
    ensures request { request_of session.new ≡ request_of session.old }
    ensures settings { session.new.settings ≡ session.old.settings }
    ensures unread { (before : Option (List ℕ)) → Unread L.state before session.old
        → Unread L.state before session.new }
{
    if !may_write(session, piece) {
        return Poll::Pending;
    }
    session.poll_write_body(piece, now)
}

/// Ends the body of the request, or goes on with that.
pub fn finish<L: Link + Drop>(
    session: &mut HttpSession<L>,
    now: u64,
) -> Poll<Result<Option<usize>, Error>>
    ensures call { EndTurn L.state L.same_plan session.old session.new result }
    ensures request { request_of session.new ≡ request_of session.old }
    ensures settings { session.new.settings ≡ session.old.settings }
    ensures unread { (before : Option (List ℕ)) → Unread L.state before session.old
        → Unread L.state before session.new }
{
    if !may_finish(session) {
        return Poll::Pending;
    }
    session.poll_finish_body(now)
}

/// Reads the head of the next response.
pub fn read_response<L: Link + Drop>(
    session: &mut HttpSession<L>,
    now: u64,
) -> Poll<Result<usize, Error>>
    ensures call { HeadTurn L.state L.same_plan now session.old session.new result }
    ensures request { request_of session.new ≡ request_of session.old }
    ensures settings { session.new.settings ≡ session.old.settings }
    ensures reads { (before : Option (List ℕ)) (request : RequestView)
        → request_of session.old ≡ Some request
        → ReadsHeads L.state before request session.old.transfer (response_of session.old)
        → ReadsHeads L.state before request session.new.transfer (response_of session.new) }
    ensures wrote { (L.state session.new.transfer.link).written
        ≡ (L.state session.old.transfer.link).written }
{
    if !session.wants_head() {
        return Poll::Pending;
    }
    session.poll_read_response(now)
}

/// Reads a piece of the final response's body.
pub fn read_piece<L: Link + Drop>(
    session: &mut HttpSession<L>,
    now: u64,
) -> Poll<Result<Option<Bytes>, Error>>
    ensures call { PartTurn L.state L.same_plan now session.old session.new result }
    ensures request { request_of session.new ≡ request_of session.old }
    ensures settings { session.new.settings ≡ session.old.settings }
    ensures response { response_of session.new ≡ response_of session.old }
    ensures reads { (before : Option (List ℕ)) (request : RequestView) (said : ResponseView)
        (payload : List ℕ)
        → request_of session.old ≡ Some request → response_of session.old ≡ Some said
        → ReadsSoFar L.state before request said payload session.old.transfer
        → ReadsOn L.state before request said payload session.new.transfer result }
    ensures wrote { (L.state session.new.transfer.link).written
        ≡ (L.state session.old.transfer.link).written }
{
    if !may_read_body(session) {
        return Poll::Pending;
    }
    session.poll_read_body_bytes(now)
}

/// Whether the head has its turn.
fn may_ask<L: Link + Drop>(session: &HttpSession<L>, head: &Option<RequestHeader>) -> bool
    ensures is { result ≡ may_ask head.now session.now }
    ensures turn { IsTrue result
        → IsAskStep head.now (request_of session.now) session.now.transfer.outgoing.step }
{
    let begun = session.has_request_begun();
    is_ask_step(head.is_some(), begun, session.outgoing().step)
}

fn is_ask_step(is_new: bool, begun: bool, step: Step) -> bool
    ensures { result ≡ is_ask_step is_new begun step }
{
    if is_new {
        !begun && step == Step::Free
    } else {
        step == Step::Head
    }
}

/// Whether the piece has its turn.
fn may_write<L: Link + Drop>(session: &HttpSession<L>, piece: &Option<Bytes>) -> bool
    ensures is { result ≡ may_write piece.now session.now }
    ensures begun { IsTrue result → IsSome (request_of session.now) }
    ensures turn { IsTrue result
        → IsPieceStep piece.now session.now.transfer.outgoing.step }
{
    let step = session.outgoing().step;
    session.has_request_begun() && is_piece_step(piece.is_some(), step)
}

fn is_piece_step(is_new: bool, step: Step) -> bool
    ensures { result ≡ is_piece_step is_new step }
{
    match step {
        Step::Free => is_new,
        Step::Piece(_) => !is_new,
        Step::Head | Step::Finish => false,
    }
}

/// Whether the end of the body has its turn.
fn may_finish<L: Link + Drop>(session: &HttpSession<L>) -> bool
    ensures is { result ≡ may_finish session.now }
    ensures begun { IsTrue result → IsSome (request_of session.now) }
    ensures turn { IsTrue result → IsEndStep session.now.transfer.outgoing.step }
{
    session.has_request_begun() && is_end_step(session.outgoing().step)
}

fn is_end_step(step: Step) -> bool
    ensures { result ≡ is_end_step step }
{
    match step {
        Step::Free | Step::Finish => true,
        Step::Head | Step::Piece(_) => false,
    }
}

/// Whether a part of the final response's body has its turn.
fn may_read_body<L: Link + Drop>(session: &HttpSession<L>) -> bool
    ensures is { result ≡ may_read_body session.now }
    ensures begun { IsTrue result → IsSome (request_of session.now) }
    ensures read { IsTrue result → IsSome (response_of session.now) }
{
    session.has_request_begun() && session.has_final_head()
}
