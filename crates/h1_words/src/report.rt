//! What a report says of a poll.
ghost use Rattle.std.specs.Prelude.{◌≡◌, ◌++◌, OnOk, OnErr, IfErr, IfOk, string_bytes};
ghost use Rattle.h1_words.specs.Report.{waiting_text, end_text, answer_text};
ghost use Rattle.h1_error.specs.Text.{text_of};
ghost use Rattle.h1_error.specs.Memory.{no_memory};

use crate::Text;
use h1_error::{End, Error, ErrorType, Progress, Waiting};
use std::alloc::Global;

impl Text {
    /// Adds what a poll answered, as `pending read` or `failed 2 ConnectionClosed`.
    pub fn push_answer(&mut self, alloc: Global, answer: Progress) -> Result<(), Error>
        ensures ok { OnOk result (self.new ≡ self.old ++ answer_text answer) }
        ensures err { IfErr result (λ error. error ≡ no_memory) }
        ensures kept { OnErr result (self.new ≡ self.old) }
    {
        match answer {
            Progress::Pending(waiting) => self.push(waiting_text(waiting).as_bytes()),
            Progress::Ready(end) => {
                let text = end_text(alloc, end)?;
                self.push(text.as_slice())
            }
        }
    }
}

fn waiting_text(waiting: Waiting) -> &'static str
    ensures { result.now ≡ waiting_text waiting }
{
    match waiting {
        Waiting::Read => "pending read",
        Waiting::Write => "pending write",
        Waiting::App => "pending application",
        Waiting::Budget => "pending budget",
    }
}

fn end_text(alloc: Global, end: End) -> Result<Text, Error>
    ensures ok { IfOk result (λ text. text ≡ end_text end) }
    ensures err { IfErr result (λ error. error ≡ no_memory) }
{
    let mut text = Text::new(alloc);
    match end {
        End::Finished => text.push(b"finished")?,
        End::NotKept => text.push(b"not kept")?,
        End::Overread => text.push(b"overread")?,
        End::Failed(error) => push_failure(&mut text, alloc, error)?,
    }
    Ok(text)
}

fn kind_text(alloc: Global, kind: ErrorType) -> Result<String, Error>
    ensures ok { IfOk result (λ text. string_bytes text ≡ text_of kind) }
    ensures err { IfErr result (λ error. error ≡ no_memory) }
{
    match kind.text(alloc) {
        Ok(text) => Ok(text),
        Err(_) => Err(Error::from(ErrorType::NoMemory)),
    }
}

fn push_failure(text: &mut Text, alloc: Global, error: Error) -> Result<(), Error>
    ensures ok { OnOk result (text.new ≡ text.old ++ end_text (End.Failed error)) }
    ensures err { IfErr result (λ error. error ≡ no_memory) }
{
    let words = kind_text(alloc, error.kind)?;
    text.push(b"failed ")?;
    text.push_number(alloc, u64::from(error.kind.code()))?;
    text.push(b" ")?;
    text.push(words.as_bytes())
}
