//! The next call of a script's session.
ghost use Rattle.std.specs.Prelude.{◌≡◌, false};
ghost use Rattle.h1_asking.specs.Turns.{is_head};
ghost use Rattle.h1_fetch.specs.ScriptState.{state_of};
ghost use Rattle.h1_fetch.specs.Steps.{StepsBody, StepsBy, StepsEnd, StepsHead, StepsPiece, StepsResponse, call_of, handed_in, has_pieces, is_piece, left_over};

use crate::scripted::Scripted;
use crate::told::{
    Told, asked_told, body_told, finished_told, is_finished, response_told, sent_told,
};
use bytes::Bytes;
use h1_asking::{ask, finish, read_piece, read_response, write_piece};
use h1_transfer::Step;
use std::collections::VecDeque;

/// A call of a session: one that writes the head, a piece or the end of the request, or one that
/// reads the head of a response or a part of its body.
#[derive(Clone, Copy, Debug, PartialEq, Eq)]
pub(crate) enum Call {
    Head,
    Piece,
    End,
    Response,
    Body,
}

/// Makes the next call of the session.
pub(crate) fn step(scripted: &mut Scripted, moment: u64) -> Told
    ensures { StepsBy (call_of (state_of scripted.old)) moment (state_of scripted.old)
        (state_of scripted.new) result }
{
    match call_of(scripted) {
        Call::Head => step_head(scripted, moment),
        Call::Piece => step_piece(scripted, moment),
        Call::End => step_end(scripted, moment),
        Call::Response => step_response(scripted, moment),
        Call::Body => step_body(scripted, moment),
    }
}

/// What was said of the request and isn't written yet comes first, and then the response.
fn call_of(scripted: &Scripted) -> Call
    ensures { result ≡ call_of (state_of scripted.now) }
{
    let at = scripted.session.outgoing().step;
    if scripted.head.is_some() || is_head(at) {
        return Call::Head;
    }
    if has_pieces(&scripted.pieces) || is_piece(at) {
        return Call::Piece;
    }
    if scripted.ends && !scripted.ended {
        return Call::End;
    }
    if scripted.session.has_final_head() {
        Call::Body
    } else {
        Call::Response
    }
}

fn has_pieces(pieces: &VecDeque<Bytes>) -> bool
    ensures { result ≡ has_pieces pieces.now.items }
{
    !pieces.is_empty()
}

fn is_head(step: Step) -> bool
    ensures { result ≡ is_head step }
{
    match step {
        Step::Head => true,
        Step::Free | Step::Piece(_) | Step::Finish => false,
    }
}

fn is_piece(step: Step) -> bool
    ensures { result ≡ is_piece step }
{
    match step {
        Step::Piece(_) => true,
        Step::Free | Step::Head | Step::Finish => false,
    }
}

fn step_head(scripted: &mut Scripted, moment: u64) -> Told
    ensures { StepsHead moment (state_of scripted.old) (state_of scripted.new) result }
{
    let outcome = ask(&mut scripted.session, &mut scripted.head, moment);
    asked_told(scripted.session.budget_spent(), outcome)
}

fn step_piece(scripted: &mut Scripted, moment: u64) -> Told
    ensures { StepsPiece moment (state_of scripted.old) (state_of scripted.new) result }
{
    let busy = is_piece(scripted.session.outgoing().step);
    let mut piece = next_piece(busy, &mut scripted.pieces);
    let outcome = write_piece(&mut scripted.session, &mut piece, moment);
    sent_told(scripted.session.budget_spent(), outcome)
}

/// The piece that is handed in, where none is being written.
fn next_piece(busy: bool, pieces: &mut VecDeque<Bytes>) -> Option<Bytes>
    ensures next { result ≡ handed_in busy pieces.old.items }
    ensures left { pieces.new.items ≡ left_over busy pieces.old.items }
{
    if busy { None } else { first_piece(pieces) }
}

fn first_piece(pieces: &mut VecDeque<Bytes>) -> Option<Bytes>
    ensures next { result ≡ handed_in false pieces.old.items }
    ensures left { pieces.new.items ≡ left_over false pieces.old.items }
{
    pieces.pop_front()
}

fn step_end(scripted: &mut Scripted, moment: u64) -> Told
    ensures { StepsEnd moment (state_of scripted.old) (state_of scripted.new) result }
{
    let outcome = finish(&mut scripted.session, moment);
    let told = finished_told(scripted.session.budget_spent(), outcome);
    scripted.ended = is_finished(&told);
    told
}

fn step_response(scripted: &mut Scripted, moment: u64) -> Told
    ensures { StepsResponse moment (state_of scripted.old) (state_of scripted.new) result }
{
    let outcome = read_response(&mut scripted.session, moment);
    response_told(scripted.session.budget_spent(), outcome)
}

fn step_body(scripted: &mut Scripted, moment: u64) -> Told
    ensures { StepsBody moment (state_of scripted.old) (state_of scripted.new) result }
{
    let outcome = read_piece(&mut scripted.session, moment);
    body_told(scripted.session.budget_spent(), outcome)
}
