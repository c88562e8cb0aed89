//! The tasks of one direction.
ghost use Rattle.std.specs.Prelude.{◌≡◌, ◌<◌, ◌≤◌, ◌+◌, ◌-◌, [], length, take, drop, false, true, OnOk, OnErr, IsOkUnless, Ok};
ghost use Rattle.h1_error.specs.Memory.{no_memory};
ghost use Rattle.h1_rings.specs.PlainEnds.{is_four};
ghost use Rattle.h1_subrequest.specs.Events.{enqueued, no_tasks, put_on, read_from, taken_from};

use crate::ParseState;
use h1_error::Error;
use h1_head::HttpTask;
use h1_rings::{Four, Room};
use std::alloc::Global;
use std::marker::Model;

/// The tasks of one direction, and the close words of its sender and of its receiver.
#[derive(Debug, Drop)]
pub struct DirectionTasks {
    /// All that was put. So many of these were taken, and the others wait in the queue.
    put: Vec<HttpTask>,
    taken: usize,
    closed: bool,
    gone: bool,
}

impl Model for DirectionTasks {
    ghost use Rattle.std.specs.Prelude.{◌≤◌, length, take, drop};
    ghost use Rattle.h1_subrequest.specs.Events.{DirectionView};

    ghost Value = { DirectionView };

    ghost view = { λ t. record {
      put = t.put.items;
      taken = take t.taken t.put.items;
      queue = drop t.taken t.put.items;
      closed = t.closed;
      gone = t.gone;
    } };

    ghost invariant = { λ t. t.taken ≤ length t.put.items };
}

impl DirectionTasks {
    /// No task, and both sides open. Takes no memory.
    pub fn new(alloc: Global) -> DirectionTasks
        ensures { result ≡ no_tasks }
    {
        DirectionTasks {
            put: Vec::new(alloc),
            taken: 0,
            closed: false,
            gone: false,
        }
    }

    /// All tasks that were put, in order.
    pub fn put(&self) -> &[HttpTask]
        ensures { result.now ≡ self.now.put }
    {
        self.put.as_slice()
    }

    /// All tasks that were taken, in order.
    pub fn taken(&self) -> &[HttpTask]
        ensures { result.now ≡ self.now.taken }
    {
        &self.put[..self.taken]
    }

    /// Whether there is no room for a task.
    pub fn is_full(&self) -> bool
        ensures { result ≡ is_four self.now.queue }
    {
        self.put.len() - self.taken > Four::most() - 1
    }

    /// Puts a task behind the others, whatever room there is.
    pub fn push(&mut self, task: HttpTask) -> Result<(), Error>
        ensures ok { OnOk result (self.new ≡ enqueued self.old task) }
        ensures err { IsOkUnless result no_memory }
        ensures same { OnErr result (self.new ≡ self.old) }
    {
        self.put.push(task)?;
        Ok(())
    }

    /// Puts a task behind the others, where there is room for it.
    pub fn put_on(&mut self, task: HttpTask) -> Result<(), Error>
        ensures ok { OnOk result (self.new ≡ put_on self.old task) }
        ensures err { IsOkUnless result no_memory }
        ensures same { OnErr result (self.new ≡ self.old) }
    {
        if self.is_full() {
            return Ok(());
        }
        self.push(task)
    }

    /// Takes the task in front, if there is one.
    pub fn take(&mut self)
        ensures { self.new ≡ taken_from self.old self.old.queue }
    {
        if self.taken < self.put.len() {
            self.taken += 1;
        }
    }

    /// A reader behind a take.
    pub fn read(&self, reader: ParseState) -> ParseState
        ensures { result ≡ read_from reader self.now.closed self.now.queue }
    {
        if self.taken < self.put.len() {
            reader.behind(&self.put[self.taken])
        } else if self.closed {
            reader.ended()
        } else {
            reader
        }
    }

    /// The sender puts no more.
    pub fn close(&mut self)
        ensures { self.new ≡ record self.old { closed = true } }
    {
        self.closed = true;
    }

    /// The receiver takes no more.
    pub fn leave(&mut self)
        ensures { self.new ≡ record self.old { gone = true } }
    {
        self.gone = true;
    }
}
