//! The lines of a script, each by itself.
ghost use Rattle.std.specs.Prelude.{◌≡◌, IfOk};
ghost use Rattle.std.specs.Option.{option_copied};
ghost use Rattle.h1_words.specs.Command.{behind_words, give_command, poll_command, short_number, limit_command, mark_command, refuse_command, room_command, refuse_line, mark_line, module_command, room_line, limit_line, poll_line, give_line, fixed_command, text_command, command_of};

use crate::unescape::bytes_of_text;
use crate::{Text, number_up_to};
use h1_error::Error;
use std::alloc::Global;

/// The last millisecond of the year 9999, counted from the first of 1970.
pub const LAST_MOMENT: u64 = 253_402_300_799_999;

/// The greatest limit that a script can set, and the greatest number of a module.
pub const MAX_SHORT_NUMBER: u32 = u32::MAX;

/// The greatest room that a script can set.
pub const MAX_ROOM: u64 = u64::MAX;

/// What a line of a script asks for.
#[derive(Debug, Drop)]
pub enum Command {
    /// These bytes are ahead on the link.
    Give(Text),
    /// The link ends after what is ahead.
    End,
    /// The link takes that many bytes more, and its flushes are ready.
    Room(u64),
    /// The link takes nothing, and no flush is ready.
    Block,
    /// The link's next read fails.
    FaultRead,
    /// The link's next write fails.
    FaultWrite,
    /// The server shuts down: later polls are told so.
    Shutdown,
    /// Connections have this `keepalive_request_limit`.
    Limit(u32),
    /// The server gets a module that adds the line `x-mark: N` to each reply.
    Mark(u32),
    /// The server gets a module that refuses requests for `/refuse` with this number.
    Refuse(u32),
    /// One poll at this moment, in milliseconds.
    Poll(u64),
}

/// The command of a nonempty line, or nothing where the line is outside of the grammar.
pub(crate) fn command_of(alloc: Global, line: &[u8]) -> Result<Option<Command>, Error>
    ensures { IfOk result (λ command. command ≡ command_of line.now) }
{
    match fixed_command(line) {
        Some(command) => Ok(Some(command)),
        None => text_command(alloc, line),
    }
}

/// The command of a line that is the same words in every script.
fn fixed_command(line: &[u8]) -> Option<Command>
    ensures { result ≡ fixed_command line.now }
{
    if line == b"end".as_slice() {
        return Some(Command::End);
    }
    if line == b"shutdown".as_slice() {
        return Some(Command::Shutdown);
    }
    if line == b"block".as_slice() {
        return Some(Command::Block);
    }
    if line == b"fault read".as_slice() {
        return Some(Command::FaultRead);
    }
    if line == b"fault write".as_slice() {
        return Some(Command::FaultWrite);
    }
    None
}

/// The command of a line that has a text or a number behind its first word.
fn text_command(alloc: Global, line: &[u8]) -> Result<Option<Command>, Error>
    ensures { IfOk result (λ command. command ≡ text_command line.now) }
{
    if let Some(text) = behind_words(b"give ", line) {
        return give_command(alloc, text);
    }
    if let Some(digits) = behind_words(b"poll ", line) {
        return Ok(poll_command(digits));
    }
    if let Some(digits) = behind_words(b"limit ", line) {
        return Ok(limit_command(digits));
    }
    if let Some(digits) = behind_words(b"room ", line) {
        return Ok(room_command(digits));
    }
    Ok(module_command(line))
}

/// The command of a line that adds a module.
fn module_command(line: &[u8]) -> Option<Command>
    ensures { result ≡ module_command line.now }
{
    if let Some(digits) = behind_words(b"module mark ", line) {
        return mark_command(digits);
    }
    if let Some(digits) = behind_words(b"module refuse ", line) {
        return refuse_command(digits);
    }
    None
}

fn behind_words<'a>(words: &[u8], line: &'a [u8]) -> Option<&'a [u8]>
    ensures { option_copied result ≡ behind_words words.now line.now }
{
    line.strip_prefix(words)
}

fn give_command(alloc: Global, text: &[u8]) -> Result<Option<Command>, Error>
    ensures { IfOk result (λ command. command ≡ give_command text.now) }
{
    match bytes_of_text(alloc, text)? {
        Some(bytes) => Ok(Some(Command::Give(bytes))),
        None => Ok(None),
    }
}

fn poll_command(digits: &[u8]) -> Option<Command>
    ensures { result ≡ poll_command digits.now }
{
    match number_up_to(LAST_MOMENT, digits) {
        Some(moment) => Some(Command::Poll(moment)),
        None => None,
    }
}

fn limit_command(digits: &[u8]) -> Option<Command>
    ensures { result ≡ limit_command digits.now }
{
    match short_number(digits) {
        Some(limit) => Some(Command::Limit(limit)),
        None => None,
    }
}

fn mark_command(digits: &[u8]) -> Option<Command>
    ensures { result ≡ mark_command digits.now }
{
    match short_number(digits) {
        Some(number) => Some(Command::Mark(number)),
        None => None,
    }
}

fn refuse_command(digits: &[u8]) -> Option<Command>
    ensures { result ≡ refuse_command digits.now }
{
    match short_number(digits) {
        Some(number) => Some(Command::Refuse(number)),
        None => None,
    }
}

/// The number of a limit or of a module, which is below 2^32.
fn short_number(digits: &[u8]) -> Option<u32>
    ensures { result ≡ short_number digits.now }
{
    match number_up_to(u64::from(MAX_SHORT_NUMBER), digits) {
        Some(number) => Some(number as u32),
        None => None,
    }
}

fn room_command(digits: &[u8]) -> Option<Command>
    ensures { result ≡ room_command digits.now }
{
    match number_up_to(MAX_ROOM, digits) {
        Some(count) => Some(Command::Room(count)),
        None => None,
    }
}
