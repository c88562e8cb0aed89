//! The words of the command line.
ghost use Rattle.std.specs.Prelude.{◌≡◌, map, string_bytes};
ghost use Rattle.std.specs.Option.{option_map, option_copied};
ghost use Rattle.h1_fetch.specs.Words.{get_job, job_in, job_of, named_get_job, script_job};

use h1_words::{LAST_PORT, number_up_to};

/// `get` asks at most so many times.
pub const MOST_REQUESTS: u32 = 1_000_000;

/// What is asked for: a port of this machine, a path, how often, and the body that is sent with it.
#[derive(Clone, Copy, Debug)]
pub(crate) struct Asked<'a> {
    pub port: u16,
    pub path: &'a [u8],
    pub count: u32,
    pub body: Option<&'a [u8]>,
}

/// What the words after the program's name ask for.
#[derive(Clone, Copy, Debug)]
pub(crate) enum Task<'a> {
    /// `script`: run the script on standard input and report.
    Script,
    /// `get PORT PATH COUNT [BODY]`: ask so many times, and tell what came.
    Get(Asked<'a>),
}

/// The task of the words after the program's name, or nothing where they are none.
pub(crate) fn parse_words(words: &[String]) -> Option<Task<'_>>
    ensures { option_map job_of result ≡ job_in (map string_bytes words.now) }
{
    match words {
        [] => None,
        [word] => script_task(word.as_bytes()),
        [_, _] => None,
        [_, _, _] => None,
        [word, port, path, count] => asked_for(
            word.as_bytes(),
            port.as_bytes(),
            path.as_bytes(),
            count.as_bytes(),
            None,
        ),
        [word, port, path, count, body] => asked_for(
            word.as_bytes(),
            port.as_bytes(),
            path.as_bytes(),
            count.as_bytes(),
            Some(body.as_bytes()),
        ),
        _ => None,
    }
}

fn script_task<'a>(word: &[u8]) -> Option<Task<'a>>
    ensures { option_map job_of result ≡ script_job word.now }
{
    if word == b"script".as_slice() {
        Some(Task::Script)
    } else {
        None
    }
}

fn asked_for<'a>(
    word: &[u8],
    port: &[u8],
    path: &'a [u8],
    count: &[u8],
    body: Option<&'a [u8]>,
) -> Option<Task<'a>>
    ensures { option_map job_of result
        ≡ named_get_job word.now port.now path.now count.now (option_copied body.entry) }
{
    if word == b"get".as_slice() {
        get_task(port, path, count, body)
    } else {
        None
    }
}

fn get_task<'a>(
    port: &[u8],
    path: &'a [u8],
    count: &[u8],
    body: Option<&'a [u8]>,
) -> Option<Task<'a>>
    ensures { option_map job_of result
        ≡ get_job port.now path.now count.now (option_copied body.entry) }
{
    let port = number_up_to(LAST_PORT, port)?;
    let count = number_up_to(u64::from(MOST_REQUESTS), count)?;
    Some(Task::Get(Asked {
        port: port as u16,
        path,
        count: count as u32,
        body,
    }))
}
