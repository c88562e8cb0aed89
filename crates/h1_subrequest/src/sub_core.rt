//! A subrequest and its handle as plain data.
ghost use Rattle.std.specs.Prelude.{◌≡◌, ◌||◌, [], IfOk, OnOk, OnErr, IsOkUnless, Ok, false, true};
ghost use Rattle.h1_error.specs.Memory.{no_memory};
ghost use Rattle.h1_subrequest.specs.declared.events.Direction.{Direction};
ghost use Rattle.h1_subrequest.specs.declared.events.SubEvent.TheVariants.{Put, Take, Close, Gone};
ghost use Rattle.h1_subrequest.specs.Events.{passed, put_passed, reader_behind, sub_start, sub_step, tasks_of};

use crate::direction_tasks::DirectionTasks;
use crate::passing::{Passing, what_passes};
use crate::upgrade::{completes, is_answer, is_upgrade};
use crate::{BodyMode, Direction, ParseState, SubEvent};
use h1_body::framing_of;
use h1_error::Error;
use h1_head::{HttpTask, RequestHeader};
use std::alloc::Global;
use std::marker::Model;

/// What a subrequest and its handle have done: the tasks of both directions, how far the request's
/// body is read, and how far the response's is written.
#[derive(Debug, Drop)]
pub struct SubCore {
    request: RequestHeader,
    to_subrequest: DirectionTasks,
    to_handle: DirectionTasks,
    reader: ParseState,
    writer: BodyMode,
    /// Whether a header was put behind which no other comes, and whether one changed the protocol.
    answered: bool,
    upgraded: bool,
}

impl Model for SubCore {
    ghost use Rattle.std.specs.Prelude.{◌≡◌};
    ghost use Rattle.h1_subrequest.specs.Events.{CoreView};
    ghost use Rattle.h1_subrequest.specs.Upgrade.{is_answered, is_upgraded};

    ghost Value = { CoreView };

    ghost view = { λ c. record {
      request = c.request;
      state = record {
        to_subrequest = c.to_subrequest;
        to_handle = c.to_handle;
        reader = c.reader;
        writer = c.writer;
      };
    } };

    ghost invariant = { λ c. (c.answered ≡ is_answered c.to_handle.put)
        × (c.upgraded ≡ is_upgraded c.request c.to_handle.put) };
}

impl SubCore {
    /// The core of this request before any event. Being out of memory is the one error.
    pub fn new(alloc: Global, request: &RequestHeader) -> Result<SubCore, Error>
        ensures ok { IfOk result (λ core.
            core ≡ record { request = request.now; state = sub_start request.now }) }
        ensures err { IsOkUnless result no_memory }
    {
        Ok(SubCore {
            request: request.copy()?,
            to_subrequest: DirectionTasks::new(alloc),
            to_handle: DirectionTasks::new(alloc),
            reader: ParseState::of(framing_of(request)),
            writer: BodyMode::ToSelect,
            answered: false,
            upgraded: false,
        })
    }

    /// Does what the event says. Being out of memory is the one error, and nothing was done then.
    pub fn step(&mut self, event: SubEvent) -> Result<(), Error>
        ensures ok { OnOk result (self.new
            ≡ record self.old { state = sub_step self.old.request self.old.state event }) }
        ensures err { IsOkUnless result no_memory }
        ensures same { OnErr result (self.new ≡ self.old) }
    {
        match event {
            SubEvent::Put(Direction::ToSubrequest, task) => self.to_subrequest.put_on(task)?,
            SubEvent::Put(Direction::ToHandle, task) => {
                let next = what_passes(&self.request, self.answered, self.writer, task);
                self.pass(next)?;
            }
            SubEvent::Take(direction) => self.take(direction),
            SubEvent::Close(Direction::ToSubrequest) => self.to_subrequest.close(),
            SubEvent::Close(Direction::ToHandle) => self.to_handle.close(),
            SubEvent::Gone(Direction::ToSubrequest) => self.to_subrequest.leave(),
            SubEvent::Gone(Direction::ToHandle) => self.to_handle.leave(),
        }
        Ok(())
    }

    /// All tasks that were put in this direction, in order.
    pub fn put(&self, direction: Direction) -> &[HttpTask]
        ensures { result.now ≡ (tasks_of self.now.state direction).put }
    {
        match direction {
            Direction::ToSubrequest => self.to_subrequest.put(),
            Direction::ToHandle => self.to_handle.put(),
        }
    }

    /// All tasks that were taken in this direction, in order.
    pub fn taken(&self, direction: Direction) -> &[HttpTask]
        ensures { result.now ≡ (tasks_of self.now.state direction).taken }
    {
        match direction {
            Direction::ToSubrequest => self.to_subrequest.taken(),
            Direction::ToHandle => self.to_handle.taken(),
        }
    }

    /// How far the body of the request is read.
    pub fn body_state(&self) -> ParseState
        ensures { result ≡ self.now.state.reader }
    {
        self.reader
    }

    /// How far the body of the response is written.
    pub fn body_mode(&self) -> BodyMode
        ensures { result ≡ self.now.state.writer }
    {
        self.writer
    }

    /// The receiver of this direction takes the task in front.
    fn take(&mut self, direction: Direction)
        ensures { self.new
            ≡ record self.old {
              state = sub_step self.old.request self.old.state (Take direction);
            } }
    {
        match direction {
            Direction::ToSubrequest => {
                self.reader = self.to_subrequest.read(self.reader);
                self.to_subrequest.take();
            }
            Direction::ToHandle => self.to_handle.take(),
        }
    }

    /// The subrequest puts what passes of a task.
    fn pass(&mut self, next: Passing) -> Result<(), Error>
        ensures ok { OnOk result (self.new
            ≡ record self.old { state = passed self.old.request self.old.state next }) }
        ensures err { IsOkUnless result no_memory }
        ensures same { OnErr result (self.new ≡ self.old) }
    {
        match next {
            Passing::Drops(writer) => {
                self.writer = writer;
                Ok(())
            }
            Passing::Passes(_, _) if self.to_handle.is_full() => Ok(()),
            Passing::Passes(task, writer) => self.enqueue(task, writer),
        }
    }

    /// The subrequest puts a task that passes, for which there is room.
    fn enqueue(&mut self, task: HttpTask, writer: BodyMode) -> Result<(), Error>
        ensures ok { let passed = put_passed self.old.request self.old.state task writer in
            OnOk result (self.new ≡ record self.old { state = passed }) }
        ensures err { IsOkUnless result no_memory }
        ensures same { OnErr result (self.new ≡ self.old) }
    {
        let answers = is_answer(&task);
        let upgrades = is_upgrade(&self.request, &task);
        let reader = reader_behind(&self.request, self.upgraded, &task, self.reader);
        self.to_handle.push(task)?;
        self.answered = or(self.answered, answers);
        self.upgraded = or(self.upgraded, upgrades);
        self.reader = reader;
        self.writer = writer;
        Ok(())
    }
}

/// A reader behind a task of the response that was put.
fn reader_behind(
    request: &RequestHeader,
    upgraded: bool,
    task: &HttpTask,
    reader: ParseState,
) -> ParseState
    ensures { result ≡ reader_behind request.now upgraded task.now reader }
{
    match task {
        HttpTask::Header(header, _) if completes(request, header) => reader.converted(),
        HttpTask::Done if upgraded => reader.finished(),
        _ => reader,
    }
}

fn or(first: bool, second: bool) -> bool
    ensures { result ≡ (first || second) }
{
    first || second
}
