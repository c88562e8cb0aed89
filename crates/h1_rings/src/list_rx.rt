//! A receiving end in memory, for whoever plays the sender by calls.
ghost use Rattle.std.specs.Prelude.{◌≡◌, [], false, true};
ghost use Rattle.h1_rings.specs.PlainEnds.{Gives};

use crate::four_items::FourItems;
use crate::task_ends::{PutStep, TakeStep, TaskRx};
use h1_head::HttpTask;

/// A receiving end over a list of its own of at most four tasks. It takes no memory.
#[derive(Drop)]
pub struct ListRx {
    tasks: FourItems<HttpTask>,
    ended: bool,
    closed: bool,
}

impl ListRx {
    /// An end with no task.
    pub fn new() -> Self
        ensures { (result.tasks ≡ []) × (result.ended ≡ false) × (result.closed ≡ false) }
    {
        ListRx {
            tasks: FourItems::new(),
            ended: false,
            closed: false,
        }
    }

    /// Puts a task behind the others, as the sender would. Gone exactly where the end was closed, else
    /// Full exactly where four tasks are there.
    pub fn give(&mut self, task: HttpTask) -> PutStep
        ensures step { Gives self.old.tasks self.old.closed task result self.new.tasks }
        ensures same { self.new ≡ record self.old { tasks = self.new.tasks } }
    {
        if self.closed {
            return PutStep::Gone(task);
        }
        if self.tasks.is_full() {
            return PutStep::Full(task);
        }
        self.tasks.push(task);
        PutStep::Put
    }

    /// Nothing more comes, as behind the close of a sender.
    pub fn end(&mut self)
        ensures { self.new ≡ record self.old { ended = true } }
    {
        self.ended = true;
    }
}

impl TaskRx for ListRx {
    ghost use Rattle.std.specs.Prelude.{◌≡◌, [], true, false};
    ghost use Rattle.h1_rings.specs.PlainEnds.{ListTakes};
    ghost use Rattle.h1_rings.specs.EndLaws.{list_takes_none, list_takes_on};

    ghost takes = { λ a tasks b. ListTakes a.tasks a.ended tasks b.tasks b.ended };

    ghost is_closed = { λ e. e.closed };

    ghost was_empty = { λ old new. (old.tasks ≡ []) × (old.ended ≡ false) };

    ghost was_ended = { λ old new. (old.tasks ≡ []) × (old.ended ≡ true) };

    ghost takes_none = { λ end. list_takes_none end.tasks end.ended };

    ghost takes_on = { λ a b c. list_takes_on a.tasks b.tasks c.tasks a.ended b.ended c.ended };

    fn take(&mut self) -> TakeStep {
        match self.tasks.pop() {
            Some(task) => TakeStep::Task(task),
            None if self.ended => TakeStep::Ended,
            None => TakeStep::Empty,
        }
    }

    fn close(&mut self) {
        self.closed = true;
    }
}
