//! A script as it runs over a session in memory.
ghost use Rattle.std.specs.Prelude.{◌≡◌, ◌++◌, ◌∷◌, [], ℕ, List, Some, OnOk, IfOk};
ghost use Rattle.h1_head.specs.Request.{new_request};
ghost use Rattle.h1_client.specs.Reusing.{is_reusable, respected};
ghost use Rattle.h1_fetch.specs.Playing.{IsTextOf, ObeysOnce, Polls, kept_line, wrote_line};
ghost use Rattle.h1_fetch.specs.ScriptState.{IsFirst, link_behind, link_behind_all, over_link, state_of, with_field};

use crate::lines::Line;
use crate::stepping::step;
use crate::told::{check_memory, poll_text};
use bytes::Bytes;
use h1_client::v1::HttpSession;
use h1_error::Error;
use h1_head::RequestHeader;
use h1_link::MemLink;
use h1_words::{Command, Script, Text};
use std::alloc::Global;
use std::collections::VecDeque;

/// How many milliseconds a read or a write of a script may wait without bytes.
pub const SCRIPT_TIMEOUT: u64 = 60_000;

/// A script as it runs: its session, and what was said of the request and isn't handed in yet.
#[derive(Drop)]
pub(crate) struct Scripted {
    pub session: HttpSession<MemLink>,
    pub head: Option<RequestHeader>,
    pub pieces: VecDeque<Bytes>,
    /// The end of the body was said.
    pub ends: bool,
    /// The end of the body was written.
    pub ended: bool,
}

/// Runs the lines of a script over a session of its own, and reports.
pub(crate) fn report_of(alloc: Global, lines: &[Line]) -> Result<Text, Error>
    ensures { IfOk result (IsTextOf lines.now) }
{
    let mut scripted = begin(alloc);
    let mut text = Text::new(alloc);
    for line in lines {
        obey(alloc, &mut scripted, line, &mut text)?;
    }
    let rest = ending(alloc, &mut scripted.session)?;
    text.push(rest.as_slice())?;
    Ok(text)
}

fn begin(alloc: Global) -> Scripted
    ensures { IsFirst (state_of result) }
{
    let mut session = HttpSession::new(alloc, MemLink::new(alloc));
    session.set_read_timeout(Some(SCRIPT_TIMEOUT));
    session.set_write_timeout(Some(SCRIPT_TIMEOUT));
    Scripted {
        session,
        head: None,
        pieces: VecDeque::new(alloc),
        ends: false,
        ended: false,
    }
}

/// The lines behind the polls.
fn ending(alloc: Global, session: &mut HttpSession<MemLink>) -> Result<Text, Error>
    ensures { IfOk result (λ text. (written : List ℕ)
        × (session.old.transfer.link.state.written ≡ Some written)
        × (text ≡ wrote_line written ++ kept_line (is_reusable (respected session.old)))) }
{
    let mut text = wrote_line(alloc, session.link().written())?;
    session.respect_keepalive();
    text.push(kept_line(session.is_reusable()).as_bytes())?;
    Ok(text)
}

fn wrote_line(alloc: Global, written: &[u8]) -> Result<Text, Error>
    ensures { IfOk result (λ text. text ≡ wrote_line written.now) }
{
    let mut text = Text::new(alloc);
    text.push(b"wrote ")?;
    text.push_counted(alloc, written)?;
    text.push(b"\n")?;
    Ok(text)
}

fn kept_line(is_kept: bool) -> &'static str
    ensures { result.now ≡ kept_line is_kept }
{
    if is_kept { "kept\n" } else { "not kept\n" }
}

/// Does what one line of the script asks for, and adds what it writes.
fn obey(alloc: Global, scripted: &mut Scripted, line: &Line, text: &mut Text) -> Result<(), Error>
    ensures { OnOk result (ObeysOnce (state_of scripted.old) line.now text.old
        (state_of scripted.new) text.new) }
{
    match line {
        Line::Poll(moment) => poll(alloc, scripted, *moment, text),
        Line::Link(script) => set_link_all(&mut scripted.session, script),
        Line::Ask { method, target } => ask_for(alloc, &mut scripted.head, method, target),
        Line::Field { name, value } => add_field(&mut scripted.head, name, value),
        Line::Send(piece) => push_piece(alloc, &mut scripted.pieces, piece),
        Line::Finish => {
            scripted.ends = true;
            Ok(())
        }
    }
}

/// Polls once.
fn poll(alloc: Global, scripted: &mut Scripted, moment: u64, text: &mut Text) -> Result<(), Error>
    ensures { OnOk result ((told : List ℕ) × (text.new ≡ text.old ++ told)
        × Polls moment (state_of scripted.old) told (state_of scripted.new)) }
{
    let told = step(scripted, moment);
    check_memory(&told)?;
    let lines = poll_text(alloc, moment, scripted.session.resp_header(), &told)?;
    text.push(lines.as_slice())?;
    Ok(())
}

/// Sets the link as these commands say.
fn set_link_all(session: &mut HttpSession<MemLink>, script: &Script) -> Result<(), Error>
    ensures { OnOk result (session.new ≡ over_link session.old
        (link_behind_all script.now session.old.transfer.link)) }
{
    set_link_by(session, script.commands())
}

fn set_link_by(session: &mut HttpSession<MemLink>, commands: &[Command]) -> Result<(), Error>
    ensures { OnOk result (session.new ≡ over_link session.old
        (link_behind_all commands.now session.old.transfer.link)) }
{
    for command in commands {
        set_link(session, command)?;
    }
    Ok(())
}

fn set_link(session: &mut HttpSession<MemLink>, command: &Command) -> Result<(), Error>
    ensures { OnOk result (session.new ≡ over_link session.old
        (link_behind command.now session.old.transfer.link)) }
{
    match command {
        Command::Give(bytes) => session.with_link(|link| link.give(bytes.as_slice()))?,
        Command::End => session.with_link(|link| link.end()),
        Command::Room(count) => session.with_link(|link| link.room(*count)),
        Command::Block => session.with_link(|link| link.block()),
        Command::FaultRead => session.with_link(|link| link.fail_next_read()),
        Command::FaultWrite => session.with_link(|link| link.fail_next_write()),
        Command::Shutdown | Command::Limit(_) | Command::Mark(_) => {}
        Command::Refuse(_) | Command::Poll(_) => {}
    }
    Ok(())
}

/// Begins the head of a request of this method for this target.
fn ask_for(
    alloc: Global,
    head: &mut Option<RequestHeader>,
    method: &Text,
    target: &Text,
) -> Result<(), Error>
    ensures { OnOk result (head.new ≡ Some (new_request method.now target.now)) }
{
    *head = begun(alloc, method.as_slice(), target.as_slice())?;
    Ok(())
}

fn begun(alloc: Global, method: &[u8], target: &[u8]) -> Result<Option<RequestHeader>, Error>
    ensures { IfOk result (λ head. head ≡ Some (new_request method.now target.now)) }
{
    Ok(Some(RequestHeader::build(alloc, method, target, None)?))
}

fn add_field(head: &mut Option<RequestHeader>, name: &Text, value: &Text) -> Result<(), Error>
    ensures { OnOk result (head.new ≡ with_field name.now value.now head.old) }
{
    match head {
        Some(head) => head.append_header(name.as_slice(), value.as_slice()),
        None => Ok(()),
    }
}

fn push_piece(alloc: Global, pieces: &mut VecDeque<Bytes>, piece: &Text) -> Result<(), Error>
    ensures { OnOk result (pieces.new.items ≡ pieces.old.items ++ piece.now ∷ []) }
{
    let bytes = Bytes::copy_from_slice(alloc, piece.as_slice())?;
    pieces.push_back(bytes)?;
    Ok(())
}
