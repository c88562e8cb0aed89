//! The lines of a client's script, each by itself.
use h1_error::{Error, ErrorType};
use h1_head::RequestHeader;
use h1_words::{Command, Script, ScriptFault, Text, parse_script};
use std::alloc::Global;

/// What a line of a script asks for.
#[derive(Debug, Drop)]
pub(crate) enum Line {
    /// The session is polled at this moment.
    Poll(u64),
    /// Something is set on the link.
    Link(Script),
    /// A request of this method for this target is begun.
    Ask { method: Text, target: Text },
    /// The request has this field line.
    Field { name: Text, value: Text },
    /// A piece of the request's body.
    Send(Text),
    /// The end of the request's body.
    Finish,
}

/// What a nonempty line asks for, or nothing where it is outside of the grammar.
pub(crate) fn line_of(alloc: Global, line: &[u8]) -> Result<Option<Line>, Error> {
    if line == b"finish".as_slice() {
        return Ok(Some(Line::Finish));
    }
    if let Some(rest) = line.strip_prefix(b"ask ".as_slice()) {
        return ask_line(alloc, rest);
    }
    if let Some(rest) = line.strip_prefix(b"field ".as_slice()) {
        return field_line(alloc, rest);
    }
    if let Some(text) = line.strip_prefix(b"send ".as_slice()) {
        return send_line(alloc, text);
    }
    link_line(alloc, line)
}

/// ask METHOD TARGET
fn ask_line(alloc: Global, rest: &[u8]) -> Result<Option<Line>, Error> {
    let Some(at) = rest.iter().position(|byte| *byte == b' ') else {
        return Ok(None);
    };
    let (method, target) = (&rest[..at], &rest[at + 1..]);
    if is_refused(RequestHeader::build(alloc, method, target, None))? {
        return Ok(None);
    }
    Ok(Some(Line::Ask {
        method: text_of(alloc, method)?,
        target: text_of(alloc, target)?,
    }))
}

/// field NAME: VALUE
fn field_line(alloc: Global, rest: &[u8]) -> Result<Option<Line>, Error> {
    let Some(at) = rest.iter().position(|byte| *byte == b':') else {
        return Ok(None);
    };
    let Some(value) = rest[at + 1..].strip_prefix(b" ".as_slice()) else {
        return Ok(None);
    };
    let name = &rest[..at];
    let mut head = RequestHeader::new(alloc);
    if is_refused(head.append_header(name, value))? {
        return Ok(None);
    }
    Ok(Some(Line::Field {
        name: text_of(alloc, name)?,
        value: text_of(alloc, value)?,
    }))
}

/// send TEXT, where TEXT is as behind `give`
fn send_line(alloc: Global, text: &[u8]) -> Result<Option<Line>, Error> {
    let mut line = Text::new(alloc);
    line.push(b"give ")?;
    line.push(text)?;
    let Some(script) = script_of(alloc, line.as_slice())? else {
        return Ok(None);
    };
    let [Command::Give(bytes)] = script.commands() else {
        return Ok(None);
    };
    Ok(Some(Line::Send(text_of(alloc, bytes.as_slice())?)))
}

/// A line that `h1_serve` knows as well: give, end, room, block, fault or poll.
fn link_line(alloc: Global, line: &[u8]) -> Result<Option<Line>, Error> {
    let Some(script) = script_of(alloc, line)? else {
        return Ok(None);
    };
    let [command] = script.commands() else {
        return Ok(None);
    };
    if let Command::Poll(moment) = command {
        return Ok(Some(Line::Poll(*moment)));
    }
    if is_of_link(command) {
        Ok(Some(Line::Link(script)))
    } else {
        Ok(None)
    }
}

/// Whether a command sets something on a link.
fn is_of_link(command: &Command) -> bool {
    match command {
        Command::Give(_) | Command::End | Command::Room(_) | Command::Block => true,
        Command::FaultRead | Command::FaultWrite => true,
        Command::Shutdown | Command::Limit(_) | Command::Mark(_) => false,
        Command::Refuse(_) | Command::Poll(_) => false,
    }
}

fn script_of(alloc: Global, line: &[u8]) -> Result<Option<Script>, Error> {
    match parse_script(alloc, line) {
        Ok(script) => Ok(Some(script)),
        Err(ScriptFault::Line(_)) => Ok(None),
        Err(ScriptFault::NoMemory) => Err(Error::from(ErrorType::NoMemory)),
    }
}

/// Whether a call on a head refused what it was called with; want of memory is no refusal.
fn is_refused<T: Drop>(answer: Result<T, Error>) -> Result<bool, Error> {
    match answer {
        Ok(_) => Ok(false),
        Err(error) if error.kind == ErrorType::NoMemory => Err(error),
        Err(_) => Ok(true),
    }
}

fn text_of(alloc: Global, bytes: &[u8]) -> Result<Text, Error> {
    let mut text = Text::new(alloc);
    text.push(bytes)?;
    Ok(text)
}
