//! Connections that are played: a test is a list of steps.
use crate::tests::applications::Refuses;
use crate::tests::links::TestLink;
use crate::tests::served::{
    App, Served, Server, body_error, close, connect, counts, end, exchanges, fail_next_read,
    fail_next_write, flushed, give, is_shut, make_room, polled, written,
};
use h1_app::{End, Error, ErrorType, Progress, ServeHttp, Waiting};
use h1_echo::EchoApp;
use std::process::Abort;

/// What the peer of a connection does, or what is then expected of the connection.
#[derive(Clone, Copy)]
pub enum Step<'a> {
    /// The peer sends these bytes.
    Give(&'a [u8]),
    /// The peer sends these bytes one by one, and a poll after each waits for more.
    GiveEach(&'a [u8]),
    /// The peer sends this byte so often, and a poll after each waits for more.
    GiveOften(u8, u32),
    /// The peer takes these bytes one by one, and a poll before each waits for it.
    TakeEach(&'a [u8]),
    /// The peer sends no more.
    NoMore,
    /// The peer takes so many bytes more.
    Room(u64),
    /// The next read of the link is to fail.
    ReadFails,
    /// The next write of the link is to fail.
    WriteFails,
    /// A poll at moment 0 has to wait.
    Waits(Waiting),
    /// A poll at moment 0 answers that the connection has ended.
    Ends(End),
    /// A poll at moment 0 answers that the connection has ended with this fault.
    Fails(ErrorType),
    /// A poll at moment 1 answers that the connection has ended.
    EndsLater(End),
    /// A poll in a shutdown answers that the connection has ended.
    EndsInShutdown(End),
    /// Whether the link was shut.
    IsShut(bool),
    /// How many requests were read.
    Exchanges(usize),
    /// How many bytes of the reply of this exchange were written, and how many of its body read.
    Counts(usize, u64, u64),
    /// Why the body of the request of this exchange couldn't be read on.
    BodyError(usize, Option<Error>),
    /// The bytes that the peer was sent.
    Wrote(&'a [u8]),
    /// The peer was sent the first so many of these bytes.
    WroteFirst(&'a [u8], usize),
    /// What the peer was sent ends with these bytes.
    WroteLast(&'a [u8]),
    /// How many bytes the peer was sent.
    WroteLen(usize),
    /// How many of them were flushed.
    Flushed(u64),
}

/// A connection that is played.
#[derive(Clone, Copy)]
pub struct Row<'a> {
    /// What it shows.
    pub shows: &'a str,
    pub server: Server<'a>,
    pub steps: &'a [Step<'a>],
}

/// Plays each row.
pub fn play_all(rt: &(impl Abort + AllocGlobal), rows: &[Row]) {
    for row in rows {
        play(rt, row);
    }
}

/// Plays the steps of a row, one after the other.
pub fn play(rt: &(impl Abort + AllocGlobal), row: &Row) {
    match row.server.app {
        App::Echo => play_with(rt, EchoApp, row),
        App::Refuses(waits) => play_with(rt, Refuses { waits }, row),
    }
}

fn play_with<SV: ServeHttp<TestLink, ()> + Drop>(
    rt: &(impl Abort + AllocGlobal),
    app: SV,
    row: &Row,
) {
    let mut served = connect(rt, app, row.server);
    for i in 0..row.steps.len() {
        take(rt, &mut served, row.steps[i], row.shows, i);
    }
    close(served);
}

/// Takes a step of the row that shows this, which has this number.
fn take<SV: ServeHttp<TestLink, ()> + Drop>(
    rt: &impl Abort,
    served: &mut Served<SV>,
    step: Step,
    shows: &str,
    i: usize,
) {
    act(rt, served, step);
    let answers = match poll_of(step) {
        Some((now, shutdown, answer)) => is_answered(served, now, shutdown, answer),
        None => true,
    };
    assert!(rt; answers && is_seen(served, step), "{shows}: step {i}");
}

/// What the peer does in a step.
fn act<SV: ServeHttp<TestLink, ()> + Drop>(rt: &impl Abort, served: &mut Served<SV>, step: Step) {
    match step {
        Step::Give(bytes) => give(rt, served, bytes),
        Step::GiveEach(bytes) => give_each(rt, served, bytes),
        Step::GiveOften(byte, count) => give_often(rt, served, byte, count),
        Step::TakeEach(bytes) => take_each(rt, served, bytes),
        Step::NoMore => end(served),
        Step::Room(count) => make_room(served, count),
        Step::ReadFails => fail_next_read(served),
        Step::WriteFails => fail_next_write(served),
        _ => {}
    }
}

/// The peer sends these bytes one by one. A poll after each waits for more.
fn give_each<SV: ServeHttp<TestLink, ()> + Drop>(
    rt: &impl Abort,
    served: &mut Served<SV>,
    bytes: &[u8],
) {
    for byte in bytes {
        give_one(rt, served, *byte);
    }
}

/// The peer sends this byte so often. A poll after each waits for more.
fn give_often<SV: ServeHttp<TestLink, ()> + Drop>(
    rt: &impl Abort,
    served: &mut Served<SV>,
    byte: u8,
    count: u32,
) {
    for _ in 0..count {
        give_one(rt, served, byte);
    }
}

fn give_one<SV: ServeHttp<TestLink, ()> + Drop>(
    rt: &impl Abort,
    served: &mut Served<SV>,
    byte: u8,
) {
    give(rt, served, &[byte]);
    assert!(rt; is_answered(served, 0, false, Progress::Pending(Waiting::Read)));
}

/// The peer takes these bytes one by one. A poll before each waits for it.
fn take_each<SV: ServeHttp<TestLink, ()> + Drop>(
    rt: &impl Abort,
    served: &mut Served<SV>,
    bytes: &[u8],
) {
    for taken in 0..bytes.len() {
        take_one(rt, served, &bytes[..taken]);
    }
}

/// The peer took these bytes, and takes one more.
fn take_one<SV: ServeHttp<TestLink, ()> + Drop>(
    rt: &impl Abort,
    served: &mut Served<SV>,
    taken: &[u8],
) {
    assert!(rt; is_answered(served, 0, false, Progress::Pending(Waiting::Write)));
    assert!(rt; written(served) == taken);
    make_room(served, 1);
}

/// Whether a poll answers so, and tells the end that it came to.
fn is_answered<SV: ServeHttp<TestLink, ()> + Drop>(
    served: &mut Served<SV>,
    now: u8,
    shutdown: bool,
    answer: Progress,
) -> bool {
    let end = match answer {
        Progress::Pending(_) => None,
        Progress::Ready(end) => Some(end),
    };
    polled(served, now, shutdown) == (answer, end)
}

/// The poll of a step: its moment, whether it is in a shutdown, and what it has to answer.
fn poll_of(step: Step) -> Option<(u8, bool, Progress)> {
    match step {
        Step::Waits(what) => Some((0, false, Progress::Pending(what))),
        Step::Ends(end) => Some((0, false, Progress::Ready(end))),
        Step::Fails(kind) => {
            let failed = End::Failed(Error::from(kind));
            Some((0, false, Progress::Ready(failed)))
        }
        Step::EndsLater(end) => Some((1, false, Progress::Ready(end))),
        Step::EndsInShutdown(end) => Some((0, true, Progress::Ready(end))),
        _ => None,
    }
}

/// Whether the connection is as a step expects.
fn is_seen<SV: ServeHttp<TestLink, ()> + Drop>(served: &Served<SV>, step: Step) -> bool {
    match step {
        Step::IsShut(shut) => is_shut(served) == shut,
        Step::Exchanges(count) => exchanges(served) == count,
        Step::Counts(at, sent, read) => counts(served, at) == (sent, read),
        Step::BodyError(at, error) => body_error(served, at) == error,
        _ => is_sent(written(served), flushed(served), step),
    }
}

/// Whether the peer was sent what a step expects.
fn is_sent(written: &[u8], flushed: u64, step: Step) -> bool {
    match step {
        Step::Wrote(bytes) => written == bytes,
        Step::WroteFirst(bytes, len) => written.len() == len && bytes.starts_with(written),
        Step::WroteLast(bytes) => written.ends_with(bytes),
        Step::WroteLen(len) => written.len() == len,
        Step::Flushed(count) => flushed == count,
        _ => true,
    }
}
