//! Scripts.
ghost use Rattle.std.specs.Prelude.{◌≡◌, ◌+◌, ◌<◌, ◌^◌, ◌∷◌, length, IfErr, IfSome, OnOk, ◌++◌, [], position};
ghost use Rattle.std.specs.Option.{option_copied};
ghost use Rattle.h1_words.specs.Script.{is_line_feed, lines_of, lines_left, line_at, first_line, with_line, outcome_of_lines, script_of, Tells, TellsFault};
ghost use Rattle.h1_words.specs.Reader.{reading_of};

use crate::Command;
use crate::command::command_of;
use crate::place::{Place, is_repeated};
use h1_error::Error;
use std::alloc::Global;
use std::marker::Model;

/// A script has at most so many bytes.
pub const MAX_SCRIPT: usize = 8_388_608;

/// The commands of a script, in order.
#[derive(Debug, Drop)]
pub struct Script {
    commands: Vec<Command>,
}

impl Model for Script {
    ghost use Rattle.std.specs.Prelude.{List};
    ghost use Rattle.h1_words.specs.declared.command.Command.{Command};

    ghost Value = { List Command };

    ghost view = { λ s. s.commands.items };
}

impl Script {
    /// The commands, in order.
    pub fn commands(&self) -> &[Command]
        ensures { result.now ≡ self.now }
    {
        self.commands.as_slice()
    }
}

/// Why a script isn't read.
#[derive(Clone, Copy, Debug, PartialEq, Eq)]
pub enum ScriptFault {
    /// The number of the first line outside of the grammar, from 1 and with empty lines counted.
    /// In a script that is too long, the line that holds the first byte beyond counts as such.
    Line(u64),
    /// The allocator had no memory.
    NoMemory,
}

impl From<Error> for ScriptFault {
    ghost use Rattle.std.specs.Prelude.{◌≡◌};
    ghost use Rattle.h1_words.specs.declared.script.ScriptFault.TheVariants.{NoMemory};

    ghost from_gives = { λ _ fault. fault ≡ NoMemory };

    fn from(_refused: Error) -> ScriptFault {
        ScriptFault::NoMemory
    }
}

/// The commands of a script, or the line at which it is faulty.
pub fn parse_script(alloc: Global, bytes: &[u8]) -> Result<Script, ScriptFault>
    ensures { Tells (script_of bytes.now) result }
{
    let read = read_lines(alloc, bytes);
    if bytes.len() <= MAX_SCRIPT {
        return read;
    }
    let beyond = line_at(MAX_SCRIPT, bytes);
    match read {
        Ok(_) => Err(ScriptFault::Line(beyond)),
        Err(ScriptFault::Line(first)) => Err(ScriptFault::Line(first.min(beyond))),
        Err(ScriptFault::NoMemory) => Err(ScriptFault::NoMemory),
    }
}

/// The number of the line that holds the byte after the first `place` bytes.
fn line_at(place: usize, bytes: &[u8]) -> u64
    requires { place < length bytes.now }
    ensures { result ≡ line_at place bytes.now }
{
    let before = &bytes[..place];
    before.iter().filter(|byte| **byte == b'\n').count() as u64 + 1
}

#[tactic(auto, using(crate::proofs::LineLemmas::stays_stopped))]
fn read_lines(alloc: Global, bytes: &[u8]) -> Result<Script, ScriptFault>
    ensures { Tells (outcome_of_lines bytes.now) result }
{
    let mut reader = Reader::new(alloc);
    let mut left = Some(bytes);
    while let Some(rest) = left {
        let (line, behind) = first_line(rest);
        reader.read(alloc, line)?;
        left = behind;
    }
    Ok(Script {
        commands: reader.commands,
    })
}

fn line_feed_at(bytes: &[u8]) -> Option<usize>
    ensures { result ≡ position is_line_feed bytes.now }
{
    bytes.iter().position(|byte| *byte == b'\n')
}

#[tactic(auto, using(crate::proofs::LineLemmas::lines_without_feed))]
fn first_line(bytes: &[u8]) -> (&[u8], Option<&[u8]>)
    ensures cut { lines_of bytes.now ≡ result.0.now ∷ lines_left (option_copied result.1) }
    ensures shorter { IfSome result.1 (λ behind. length behind.now < length bytes.now) }
{
    match line_feed_at(bytes) {
        Some(at) => (&bytes[..at], Some(&bytes[at + 1..])),
        None => (bytes, None),
    }
}

#[derive(Drop)]
struct Reader {
    place: Place,
    commands: Vec<Command>,
    number: u64,
}

impl Reader {
    fn new(alloc: Global) -> Self
        ensures { reading_of result ≡ first_line }
    {
        Reader {
            place: Place {
                ended: false,
                limited: false,
                polled: false,
                last_poll: 0,
            },
            commands: Vec::new(alloc),
            number: 1,
        }
    }

    fn read(&mut self, alloc: Global, line: &[u8]) -> Result<(), ScriptFault>
        requires { self.old.number + 1 < 2 ^ 64 }
        ensures ok { OnOk result (reading_of self.new ≡ with_line (reading_of self.old) line.now) }
        ensures number { OnOk result (self.new.number ≡ self.old.number + 1) }
        ensures err { IfErr result (TellsFault (with_line (reading_of self.old) line.now)) }
    {
        if !line.is_empty() {
            let Some(command) = command_of(alloc, line)? else {
                return Err(ScriptFault::Line(self.number));
            };
            let before = self.commands.as_slice();
            if !self.place.may_come_before(&command) || is_repeated(&command, before) {
                return Err(ScriptFault::Line(self.number));
            }
            self.place = self.place.after(&command);
            push_command(&mut self.commands, command)?;
        }
        self.number += 1;
        Ok(())
    }
}

fn push_command(commands: &mut Vec<Command>, command: Command) -> Result<(), Error>
    ensures ok { OnOk result (commands.new.items ≡ commands.old.items ++ command ∷ []) }
{
    commands.push(command)?;
    Ok(())
}
