//! A client's script: its lines in order.
ghost use Rattle.std.specs.Prelude.{◌<◌, length};

use crate::lines::{Line, line_of};
use h1_error::Error;
use h1_words::{Command, MAX_SCRIPT, ScriptFault};
use std::alloc::Global;

/// What stands before a line of a script, as far as it decides what the line may be.
#[derive(Clone, Copy, Debug)]
struct Place {
    /// `end` stands before.
    ended: bool,
    /// `ask` stands before.
    asked: bool,
    /// A poll stands before.
    polled: bool,
    /// `finish` stands before.
    finished: bool,
    /// The moment of the poll before, or 0.
    last_poll: u64,
}

impl Place {
    fn may_come_before(self, line: &Line) -> bool {
        match line {
            Line::Link(script) => match script.commands() {
                [Command::Give(_)] | [Command::End] => !self.ended,
                _ => true,
            },
            Line::Poll(moment) => self.asked && self.last_poll <= *moment,
            Line::Ask { .. } => !self.asked,
            Line::Field { .. } => self.asked && !self.polled,
            Line::Send(_) | Line::Finish => self.asked && !self.finished,
        }
    }

    fn after(self, line: &Line) -> Place {
        let mut place = self;
        match line {
            Line::Link(script) => match script.commands() {
                [Command::End] => place.ended = true,
                _ => {}
            },
            Line::Poll(moment) => {
                place.polled = true;
                place.last_poll = *moment;
            }
            Line::Ask { .. } => place.asked = true,
            Line::Finish => place.finished = true,
            Line::Field { .. } | Line::Send(_) => {}
        }
        place
    }
}

/// The lines of a script, or the number of the first one that is outside of the grammar, from 1 and
/// with empty lines counted. A script that is too long is outside of it at the line that holds the
/// first byte beyond the limit.
pub(crate) fn parse_lines(alloc: Global, bytes: &[u8]) -> Result<Vec<Line>, ScriptFault> {
    let read = read_lines(alloc, bytes);
    if bytes.len() <= MAX_SCRIPT {
        return read;
    }
    let beyond = line_at(MAX_SCRIPT, bytes);
    match read {
        Ok(_) => Err(ScriptFault::Line(beyond)),
        Err(ScriptFault::Line(first)) => Err(ScriptFault::Line(first.min(beyond))),
        Err(ScriptFault::NoMemory) => Err(ScriptFault::NoMemory),
    }
}

/// The number of the line that holds the byte after the first `place` bytes.
fn line_at(place: usize, bytes: &[u8]) -> u64
    requires { place < length bytes.now }
{
    let before = &bytes[..place];
    before.iter().filter(|byte| **byte == b'\n').count() as u64 + 1
}

fn read_lines(alloc: Global, bytes: &[u8]) -> Result<Vec<Line>, ScriptFault> {
    let mut place = Place {
        ended: false,
        asked: false,
        polled: false,
        finished: false,
        last_poll: 0,
    };
    let mut lines = Vec::new(alloc);
    let mut number = 0u64;
    for text in bytes.split(|byte| *byte == b'\n') {
        number = number.saturating_add(1);
        if !text.is_empty() {
            place = read_line(alloc, place, text, number, &mut lines)?;
        }
    }
    Ok(lines)
}

/// Adds one nonempty line.
fn read_line(
    alloc: Global,
    place: Place,
    text: &[u8],
    number: u64,
    lines: &mut Vec<Line>,
) -> Result<Place, ScriptFault> {
    let Some(line) = line_of(alloc, text)? else {
        return Err(ScriptFault::Line(number));
    };
    if !place.may_come_before(&line) {
        return Err(ScriptFault::Line(number));
    }
    let behind = place.after(&line);
    push_line(lines, line)?;
    Ok(behind)
}

fn push_line(lines: &mut Vec<Line>, line: Line) -> Result<(), Error> {
    lines.push(line)?;
    Ok(())
}
