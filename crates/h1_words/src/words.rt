//! The words of the command line.
ghost use Rattle.std.specs.Prelude.{◌≡◌, IfSome, map, string_bytes};
ghost use Rattle.h1_words.specs.Words.{gen_task, listen_task, task_of, IsWithin};

use crate::number_up_to;

/// `gen N` makes at most so many requests.
pub const MOST_GENERATED: u32 = 20_000;

/// `listen PORT COUNT` serves at most so many connections.
pub const MOST_CONNECTIONS: u32 = 1_000;

/// The last port.
pub const LAST_PORT: u64 = 65_535;

/// What the words after the program's name ask for.
#[derive(Clone, Copy, Debug, PartialEq, Eq)]
pub enum Task {
    /// `script`: run the script on standard input and report.
    Script,
    /// `gen N`: make N requests, serve them, and tell what was read and written in numbers.
    Gen(u32),
    /// `listen PORT COUNT`: serve so many peers at this port, one after another, and tell what each
    /// connection came to.
    Listen { port: u16, count: u32 },
}

/// The task of the words after the program's name, or nothing where they are none.
pub fn parse_words(words: &[String]) -> Option<Task>
    ensures task { result ≡ task_of (map string_bytes words.now) }
    ensures within { IfSome result IsWithin }
{
    match words {
        [word] if word.as_str() == "script" => Some(Task::Script),
        [word, number] if word.as_str() == "gen" => gen_task(number.as_bytes()),
        [word, port, count] if word.as_str() == "listen" => {
            listen_task(port.as_bytes(), count.as_bytes())
        }
        _ => None,
    }
}

fn gen_task(digits: &[u8]) -> Option<Task>
    ensures task { result ≡ gen_task digits.now }
    ensures within { IfSome result IsWithin }
{
    match number_up_to(u64::from(MOST_GENERATED), digits) {
        Some(count) => Some(Task::Gen(count as u32)),
        None => None,
    }
}

fn listen_task(port: &[u8], count: &[u8]) -> Option<Task>
    ensures task { result ≡ listen_task port.now count.now }
    ensures within { IfSome result IsWithin }
{
    let port = number_up_to(LAST_PORT, port)?;
    let count = number_up_to(u64::from(MOST_CONNECTIONS), count)?;
    Some(Task::Listen {
        port: port as u16,
        count: count as u32,
    })
}
