//! What a poll of a script answered, and the lines that tell it.
ghost use Rattle.std.specs.Prelude.{◌≡◌, ◌++◌, ◌∷◌, [], codes, OnOk, IfOk};
ghost use Rattle.std.specs.Option.{option_copied};
ghost use Rattle.h1_words.specs.Report.{answer_text, counted_text};
ghost use Rattle.h1_fetch.specs.Told.{HasMemory, asked_told, body_told, count_text, failed, field_line, field_lines, finished_told, is_finished, poll_text, response_text, response_told, sent_told, told_text, waits};

use bytes::Bytes;
use futures::task::Poll;
use h1_error::{End, Error, ErrorType, Progress, Waiting};
use h1_fields::Fields;
use h1_head::ResponseHeader;
use h1_words::Text;
use std::alloc::Global;

/// What one poll of a script answered.
#[derive(Drop)]
pub(crate) enum Told {
    /// The head of the request was written, of so many bytes.
    Asked(usize),
    /// So much of a piece was taken, or none is admitted any more.
    Sent(Option<usize>),
    /// The body ended, of which so much was taken, or it was ended before.
    Finished(Option<usize>),
    /// The head of a response was read.
    Response,
    /// A part of the final response's body was read.
    Body(Bytes),
    /// The body is at its end.
    End,
    /// The session waits, or failed.
    Other(Progress),
}

pub(crate) fn asked_told(spent: bool, outcome: Poll<Result<usize, Error>>) -> Told
    ensures { result ≡ asked_told spent outcome }
{
    match outcome {
        Poll::Ready(Ok(length)) => Told::Asked(length),
        Poll::Ready(Err(error)) => failed(error),
        Poll::Pending => waits(spent, Waiting::Write),
    }
}

pub(crate) fn sent_told(spent: bool, outcome: Poll<Result<Option<usize>, Error>>) -> Told
    ensures { result ≡ sent_told spent outcome }
{
    match outcome {
        Poll::Ready(Ok(count)) => Told::Sent(count),
        Poll::Ready(Err(error)) => failed(error),
        Poll::Pending => waits(spent, Waiting::Write),
    }
}

pub(crate) fn finished_told(spent: bool, outcome: Poll<Result<Option<usize>, Error>>) -> Told
    ensures { result ≡ finished_told spent outcome }
{
    match outcome {
        Poll::Ready(Ok(count)) => Told::Finished(count),
        Poll::Ready(Err(error)) => failed(error),
        Poll::Pending => waits(spent, Waiting::Write),
    }
}

pub(crate) fn response_told(spent: bool, outcome: Poll<Result<usize, Error>>) -> Told
    ensures { result ≡ response_told spent outcome }
{
    match outcome {
        Poll::Ready(Ok(_)) => Told::Response,
        Poll::Ready(Err(error)) => failed(error),
        Poll::Pending => waits(spent, Waiting::Read),
    }
}

pub(crate) fn body_told(spent: bool, outcome: Poll<Result<Option<Bytes>, Error>>) -> Told
    ensures { result ≡ body_told spent outcome }
{
    match outcome {
        Poll::Ready(Ok(Some(piece))) => Told::Body(piece),
        Poll::Ready(Ok(None)) => Told::End,
        Poll::Ready(Err(error)) => failed(error),
        Poll::Pending => waits(spent, Waiting::Read),
    }
}

fn failed(error: Error) -> Told
    ensures { result ≡ failed error }
{
    Told::Other(Progress::Ready(End::Failed(error)))
}

/// What a session waits for whose call was for this.
fn waits(spent: bool, waiting: Waiting) -> Told
    ensures { result ≡ waits spent waiting }
{
    if spent {
        Told::Other(Progress::Pending(Waiting::Budget))
    } else {
        Told::Other(Progress::Pending(waiting))
    }
}

/// Whether the end of the body was written.
pub(crate) fn is_finished(told: &Told) -> bool
    ensures { result ≡ is_finished told.now }
{
    match told {
        Told::Finished(_) => true,
        Told::Asked(_) | Told::Sent(_) | Told::Response => false,
        Told::Body(_) | Told::End | Told::Other(_) => false,
    }
}

/// Out of memory is no answer.
pub(crate) fn check_memory(told: &Told) -> Result<(), Error>
    ensures { OnOk result (HasMemory told.now) }
{
    match told {
        Told::Other(Progress::Ready(End::Failed(error))) if error.kind == ErrorType::NoMemory => {
            Err(*error)
        }
        _ => Ok(()),
    }
}

/// The lines of a poll.
pub(crate) fn poll_text(
    alloc: Global,
    moment: u64,
    last: Option<&ResponseHeader>,
    told: &Told,
) -> Result<Text, Error>
    ensures { IfOk result (λ text. text ≡ poll_text moment (option_copied last.entry) told.now) }
{
    let mut text = Text::new(alloc);
    text.push(b"poll ")?;
    text.push_number(alloc, moment)?;
    text.push(b": ")?;
    let words = told_text(alloc, last, told)?;
    text.push(words.as_slice())?;
    Ok(text)
}

fn told_text(alloc: Global, last: Option<&ResponseHeader>, told: &Told) -> Result<Text, Error>
    ensures { IfOk result (λ text. text ≡ told_text (option_copied last.entry) told.now) }
{
    match told {
        Told::Asked(length) => count_line(alloc, b"asked ", Some(*length)),
        Told::Sent(count) => count_line(alloc, b"sent ", *count),
        Told::Finished(count) => count_line(alloc, b"finished ", *count),
        Told::Response => response_text(alloc, last),
        Told::Body(piece) => body_line(alloc, piece.as_slice()),
        Told::End => end_line(alloc),
        Told::Other(progress) => answer_line(alloc, *progress),
    }
}

fn count_line(alloc: Global, word: &[u8], count: Option<usize>) -> Result<Text, Error>
    ensures { IfOk result (λ text. text ≡ word.now ++ count_text count ++ (10 ∷ [])) }
{
    let mut text = Text::new(alloc);
    text.push(word)?;
    match count {
        Some(count) => text.push_number(alloc, count as u64)?,
        None => text.push(b"nothing")?,
    }
    text.push(b"\n")?;
    Ok(text)
}

fn body_line(alloc: Global, piece: &[u8]) -> Result<Text, Error>
    ensures { IfOk result (λ text. text ≡ codes "body " ++ counted_text piece.now ++ (10 ∷ [])) }
{
    let mut text = Text::new(alloc);
    text.push(b"body ")?;
    text.push_counted(alloc, piece)?;
    text.push(b"\n")?;
    Ok(text)
}

fn end_line(alloc: Global) -> Result<Text, Error>
    ensures { IfOk result (λ text. text ≡ codes "end" ++ (10 ∷ [])) }
{
    let mut text = Text::new(alloc);
    text.push(b"end\n")?;
    Ok(text)
}

fn answer_line(alloc: Global, answer: Progress) -> Result<Text, Error>
    ensures { IfOk result (λ text. text ≡ answer_text answer ++ (10 ∷ [])) }
{
    let mut text = Text::new(alloc);
    text.push_answer(alloc, answer)?;
    text.push(b"\n")?;
    Ok(text)
}

/// The status of a response, and its field lines.
fn response_text(alloc: Global, last: Option<&ResponseHeader>) -> Result<Text, Error>
    ensures { IfOk result (λ text. text ≡ response_text (option_copied last.entry)) }
{
    let mut text = Text::new(alloc);
    let Some(head) = last else {
        text.push(b"response\n")?;
        return Ok(text);
    };
    text.push(b"response ")?;
    text.push_number(alloc, u64::from(head.status()))?;
    text.push(b"\n")?;
    let lines = field_lines(alloc, head.fields())?;
    text.push(lines.as_slice())?;
    Ok(text)
}

fn field_lines(alloc: Global, fields: &Fields) -> Result<Text, Error>
    ensures { IfOk result (λ text. text ≡ field_lines fields.now) }
{
    let mut text = Text::new(alloc);
    for (name, value) in fields.iter() {
        let line = field_line(alloc, name, value)?;
        text.push(line.as_slice())?;
    }
    Ok(text)
}

fn field_line(alloc: Global, name: &[u8], value: &[u8]) -> Result<Text, Error>
    ensures { IfOk result (λ text. text ≡ field_line (name.now, value.now)) }
{
    let mut text = Text::new(alloc);
    text.push(b"field ")?;
    text.push(name)?;
    text.push(b": ")?;
    text.push(value)?;
    text.push(b"\n")?;
    Ok(text)
}
