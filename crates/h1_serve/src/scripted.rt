//! A script as it runs over a connection in memory.
ghost use Rattle.std.specs.Prelude.{◌≡◌, ◌≤◌, ◌<◌, ◌^◌, length, ◌++◌, ◌∷◌, [], ℕ, List, OnOk, IfOk, Some, true};
ghost use Rattle.h1_words.specs.declared.command.Command.TheVariants as command;
ghost use Rattle.h1_words.specs.declared.place.Place.{Place};
ghost use Rattle.h1_words.specs.Script.{place_after};
ghost use Rattle.h1_transcript.specs.declared.history.History.TheVariants.{Kept};
ghost use Rattle.h1_app.specs.View.{holding_of, limit_of, terms_of, unlimited};
ghost use Rattle.h1_serve.specs.State.{state_of, start_with};
ghost use Rattle.h1_serve.specs.PollLine.{IsAnswered, poll_line};
ghost use Rattle.h1_serve.specs.Report.{IsTextOf, limit_in, marking_of, modules_in};
ghost use Rattle.h1_serve.specs.Running.{MayStand, IsInTime, AreInOrder, first_place, IsRunning};
ghost use Rattle.h1_serve.specs.Done.{ObeysOnce};

use crate::exchange::{all_exchanges, push_exchanges, push_written};
use crate::link_lines::{give, plan_read_fault, plan_write_fault, say_end, set_block, set_room};
use h1_app::{Connection, HeadModule, History, HttpServer, HttpServerOptions};
use h1_echo::EchoApp;
use h1_error::{End, Error, ErrorType, Progress};
use h1_link::MemLink;
use h1_marking::{Marking, MarkingModule};
use h1_words::{Command, LAST_MOMENT, Text};
use std::alloc::Global;
use std::sync::Arc;

/// A connection of the echo application in memory, with the modules of a script.
pub(crate) type Marked = Connection<MemLink, EchoApp, MarkingModule, ()>;

/// A script as it runs: its connection, and whether the server shuts down.
#[derive(Drop)]
struct Scripted {
    connection: Marked,
    shutdown: bool,
}

/// Runs the commands of a script over a connection of its own, and reports.
pub(crate) fn report_of(alloc: Global, commands: &[Command]) -> Result<Text, Error>
    requires order { AreInOrder first_place commands.now }
    requires few { length commands.now < 2 ^ 32 }
    ensures { IfOk result (IsTextOf commands.now) }
{
    let mut scripted = connect(alloc, server_for(alloc, commands)?)?;
    play(alloc, &mut scripted, commands)
}

fn play(alloc: Global, scripted: &mut Scripted, commands: &[Command]) -> Result<Text, Error>
    requires state { state_of scripted.old ≡ start_with (limit_in commands.now)
        (modules_in commands.now) }
    requires running { IsRunning first_place scripted.old.connection }
    requires order { AreInOrder first_place commands.now }
    ensures { IfOk result (IsTextOf commands.now) }
{
    let mut text = Text::new(alloc);
    for command in commands {
        obey(alloc, scripted, command, &mut text)?;
    }
    let exchanges = all_exchanges(scripted.connection.transcript());
    push_exchanges(alloc, exchanges, &mut text)?;
    push_written(alloc, scripted.connection.link().written(), &mut text)?;
    Ok(text)
}

/// The limit that a script sets for its connection.
fn limit_in(commands: &[Command]) -> Option<u32>
    ensures { result ≡ limit_in commands.now }
{
    for command in commands {
        if let Command::Limit(limit) = command {
            return Some(*limit);
        }
    }
    None
}

fn connect(alloc: Global, server: HttpServer<EchoApp, MarkingModule>) -> Result<Scripted, Error>
    requires { holding_of server.server_options true ≡ unlimited Kept true }
    ensures state { IfOk result (λ made. state_of made
        ≡ start_with (limit_of server.server_options) server.modules) }
    ensures running { IfOk result (λ made. IsRunning first_place made.connection) }
{
    let server = Arc::new(alloc, server)?;
    let connection = Connection::new(alloc, server, MemLink::new(alloc))?;
    Ok(Scripted {
        connection,
        shutdown: false,
    })
}

/// A server of the echo application, with the limit and the modules that a script sets.
fn server_for(
    alloc: Global,
    commands: &[Command],
) -> Result<HttpServer<EchoApp, MarkingModule>, Error>
    requires { length commands.now < 2 ^ 32 }
    ensures limit { IfOk result (λ server. limit_of server.server_options ≡ limit_in commands.now) }
    ensures holding { IfOk result
        (λ server. holding_of server.server_options true ≡ unlimited Kept true) }
    ensures modules { IfOk result (λ server. server.modules ≡ modules_in commands.now) }
{
    let mut server = HttpServer::new_app(alloc, EchoApp);
    server.server_options = options_of(limit_in(commands), History::Kept);
    let mut key = 0;
    for command in commands {
        if let Some(marking) = marking_of(command) {
            server.add_module(HeadModule::new(marking, key))?;
            key += 1;
        }
    }
    Ok(server)
}

/// The module that a line adds.
fn marking_of(command: &Command) -> Option<Marking>
    ensures { result ≡ marking_of command.now }
{
    match command {
        Command::Mark(number) => Some(Marking::Mark(*number)),
        Command::Refuse(number) => Some(Marking::Refuse(*number)),
        _ => None,
    }
}

/// What is set on a server with this request limit, if there is one.
pub(crate) fn options_of(limit: Option<u32>, history: History) -> Option<HttpServerOptions>
    ensures { terms_of result true
        ≡ record { limit = limit; holding = unlimited history true } }
{
    Some(HttpServerOptions {
        keepalive_request_limit: limit,
        history,
        ..HttpServerOptions::default()
    })
}

/// Does what one line of the script asks for, and adds what it writes.
fn obey(
    alloc: Global,
    scripted: &mut Scripted,
    command: &Command,
    text: &mut Text,
) -> Result<(), Error>
    requires { IsInTime command.now }
    ensures { OnOk result ((place : Place) → MayStand place command.now
        → IsRunning place scripted.old.connection
        → ObeysOnce place scripted.old command.now text.old scripted.new text.new) }
{
    match command {
        Command::Give(bytes) => give(&mut scripted.connection, bytes.as_slice()),
        Command::End => {
            say_end(&mut scripted.connection);
            Ok(())
        }
        Command::Room(count) => {
            set_room(&mut scripted.connection, *count);
            Ok(())
        }
        Command::Block => {
            set_block(&mut scripted.connection);
            Ok(())
        }
        Command::FaultRead => {
            plan_read_fault(&mut scripted.connection);
            Ok(())
        }
        Command::FaultWrite => {
            plan_write_fault(&mut scripted.connection);
            Ok(())
        }
        Command::Shutdown => {
            scripted.shutdown = true;
            Ok(())
        }
        // The connection was made with the limit and the modules.
        Command::Limit(_) | Command::Mark(_) | Command::Refuse(_) => Ok(()),
        Command::Poll(moment) => poll(alloc, scripted, *moment, text),
    }
}

/// Polls once. Out of memory is no answer.
fn poll(alloc: Global, scripted: &mut Scripted, moment: u64, text: &mut Text) -> Result<(), Error>
    requires { moment ≤ LAST_MOMENT }
    ensures { OnOk result ((place : Place) → IsRunning place scripted.old.connection
        → ObeysOnce place scripted.old (command.Poll moment) text.old scripted.new text.new) }
{
    scripted.connection.link().rule();
    let answer = scripted.connection.poll(moment, scripted.shutdown);
    scripted.connection.link().rule();
    check_memory(answer)?;
    let line = poll_line(alloc, moment, answer)?;
    text.push(line.as_slice())
}

fn check_memory(answer: Progress) -> Result<(), Error>
    ensures { OnOk result (IsAnswered answer) }
{
    match answer {
        Progress::Ready(End::Failed(error)) if error.kind == ErrorType::NoMemory => Err(error),
        _ => Ok(()),
    }
}

fn poll_line(alloc: Global, moment: u64, answer: Progress) -> Result<Text, Error>
    ensures { IfOk result (λ text. text ≡ poll_line moment answer) }
{
    let mut text = Text::new(alloc);
    text.push(b"poll ")?;
    text.push_number(alloc, moment)?;
    text.push(b": ")?;
    text.push_answer(alloc, answer)?;
    text.push(b"\n")?;
    Ok(text)
}
