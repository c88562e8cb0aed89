//! A sending end in memory, for whoever plays the receiver by calls.
ghost use Rattle.std.specs.Prelude.{◌≡◌, [], false, true};
ghost use Rattle.h1_rings.specs.PlainEnds.{front};

use crate::four_items::FourItems;
use crate::task_ends::{PutStep, TaskTx};
use h1_head::HttpTask;

/// A sending end over a list of its own of at most four tasks. It takes no memory.
#[derive(Drop)]
pub struct ListTx {
    tasks: FourItems<HttpTask>,
    gone: bool,
    closed: bool,
}

impl ListTx {
    /// An end with no task.
    pub fn new() -> Self
        ensures { (result.tasks ≡ []) × (result.gone ≡ false) × (result.closed ≡ false) }
    {
        ListTx {
            tasks: FourItems::new(),
            gone: false,
            closed: false,
        }
    }

    /// Takes the task in front, as the receiver would.
    pub fn pop(&mut self) -> Option<HttpTask>
        ensures task { result ≡ (front self.old.tasks).0 }
        ensures rest { self.new ≡ record self.old { tasks = (front self.old.tasks).1 } }
    {
        self.tasks.pop()
    }

    /// From now on each put answers Gone.
    pub fn set_gone(&mut self)
        ensures { self.new ≡ record self.old { gone = true } }
    {
        self.gone = true;
    }
}

impl TaskTx for ListTx {
    ghost use Rattle.std.specs.Prelude.{◌≡◌, true, false};
    ghost use Rattle.h1_rings.specs.PlainEnds.{is_four, ListPuts};
    ghost use Rattle.h1_rings.specs.EndLaws.{list_puts_none, list_puts_on};

    ghost puts = { λ a tasks b. ListPuts a.tasks a.gone tasks b.tasks b.gone };

    ghost is_closed = { λ e. e.closed };

    ghost was_full = { λ old new. (is_four old.tasks ≡ true) × (old.gone ≡ false) };

    ghost was_gone = { λ old new. old.gone ≡ true };

    ghost puts_none = { λ end. list_puts_none end.tasks end.gone };

    ghost puts_on = { λ a b c. list_puts_on a.tasks b.tasks c.tasks a.gone b.gone c.gone };

    fn put(&mut self, task: HttpTask) -> PutStep {
        if self.gone {
            return PutStep::Gone(task);
        }
        if self.tasks.is_full() {
            return PutStep::Full(task);
        }
        self.tasks.push(task);
        PutStep::Put
    }

    fn close(&mut self) {
        self.closed = true;
    }
}
