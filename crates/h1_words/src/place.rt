//! What stands before a line of a script.
ghost use Rattle.std.specs.Prelude.{◌≡◌};
ghost use Rattle.std.specs.List.{list_any};
ghost use Rattle.h1_words.specs.Script.{may_follow, place_after, is_mark, is_refuse, is_repeated};

use crate::Command;

/// What stands before a line of a script, as far as it decides what the line may be, modules aside.
#[derive(Clone, Copy, Debug)]
pub struct Place {
    /// Whether `end` stands before.
    pub ended: bool,
    /// Whether `limit` stands before.
    pub limited: bool,
    /// Whether a poll stands before.
    pub polled: bool,
    /// The moment of the poll before, or 0.
    pub last_poll: u64,
}

impl Place {
    pub(crate) fn may_come_before(self, command: &Command) -> bool
        ensures { result ≡ may_follow self command.now }
    {
        match command {
            Command::Give(_) | Command::End => !self.ended,
            Command::Room(_) | Command::Block => true,
            Command::FaultRead | Command::FaultWrite | Command::Shutdown => true,
            Command::Limit(_) => !self.polled && !self.limited,
            Command::Mark(_) | Command::Refuse(_) => !self.polled,
            Command::Poll(moment) => self.last_poll <= *moment,
        }
    }

    pub(crate) fn after(self, command: &Command) -> Place
        ensures { result ≡ place_after self command.now }
    {
        match command {
            Command::Give(_) | Command::Room(_) | Command::Block => self,
            Command::FaultRead | Command::FaultWrite | Command::Shutdown => self,
            Command::Mark(_) | Command::Refuse(_) => self,
            Command::End => Place {
                ended: true,
                ..self
            },
            Command::Limit(_) => Place {
                limited: true,
                ..self
            },
            Command::Poll(moment) => Place {
                polled: true,
                last_poll: *moment,
                ..self
            },
        }
    }
}

/// Whether the same module stands before.
pub(crate) fn is_repeated(command: &Command, before: &[Command]) -> bool
    ensures { result ≡ is_repeated command.now before.now }
{
    match command {
        Command::Mark(number) => has_mark(*number, before),
        Command::Refuse(number) => has_refuse(*number, before),
        _ => false,
    }
}

fn has_mark(number: u32, before: &[Command]) -> bool
    ensures { result ≡ list_any (is_mark number) before.now }
{
    before.iter().any(|command| is_mark(number, command))
}

fn is_mark(number: u32, command: &Command) -> bool
    ensures { result ≡ is_mark number command.now }
{
    match command {
        Command::Mark(other) => *other == number,
        _ => false,
    }
}

fn has_refuse(number: u32, before: &[Command]) -> bool
    ensures { result ≡ list_any (is_refuse number) before.now }
{
    before.iter().any(|command| is_refuse(number, command))
}

fn is_refuse(number: u32, command: &Command) -> bool
    ensures { result ≡ is_refuse number command.now }
{
    match command {
        Command::Refuse(other) => *other == number,
        _ => false,
    }
}
