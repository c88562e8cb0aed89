//! What every sending end and every receiving end of tasks does, in a ring or in memory.
ghost use Rattle.std.specs.Prelude.{◌≡◌, ◌++◌, [], true, false, Bool, List};
ghost use Rattle.h1_head.specs.declared.task.HttpTask.{HttpTask};
ghost use Rattle.h1_rings.specs.TaskSteps.{PutsAs, TakesAs, PutCause, TakeCause};

use h1_head::HttpTask;

/// What a put answers. A task that wasn't put comes back.
#[derive(Drop)]
pub enum PutStep {
    /// It was put.
    Put,
    /// Four tasks were there.
    Full(HttpTask),
    /// The receiver is closed.
    Gone(HttpTask),
}

/// What a take answers.
#[derive(Drop)]
pub enum TakeStep {
    /// The task that stood in front.
    Task(HttpTask),
    /// No task was there.
    Empty,
    /// The sender is closed, and no task is left.
    Ended,
}

/// A sending end. Whoever is done with one closes it: an end that is dropped tells the receiver
/// nothing.
pub trait TaskTx {
    // From one state of the end to the other these tasks were put, in order.
    ghost puts: { Self → List HttpTask → Self → Type 0 };
    // Whether the end was closed.
    ghost is_closed: { Self → Bool };
    // Between these states of the end four tasks were there at a step.
    ghost was_full: { Self → Self → Type 0 };
    // Between these states of the end the receiver was found closed.
    ghost was_gone: { Self → Self → Type 0 };

    /// Puts a task behind the others.
    fn put(&mut self, task: HttpTask) -> PutStep
        requires { is_closed self.old ≡ false }
        ensures put { PutsAs (λ tasks. puts self.old tasks self.new) task result }
        ensures cause { PutCause (was_full self.old self.new) (was_gone self.old self.new) result }
        ensures same { is_closed self.new ≡ false };

    /// Tells the receiver that no more comes. No put may follow.
    fn close(&mut self)
        ensures put { puts self.old [] self.new }
        ensures closed { is_closed self.new ≡ true };

    ghost puts_none: { (end : Self) → puts end [] end };

    ghost puts_on: { (a b c : Self) (some more : List HttpTask)
        → puts a some b → puts b more c → puts a (some ++ more) c };
}

/// A receiving end. Whoever is done with one closes it: an end that is dropped tells the sender
/// nothing.
pub trait TaskRx {
    // From one state of the end to the other these tasks were taken, in order.
    ghost takes: { Self → List HttpTask → Self → Type 0 };
    // Whether the end was closed.
    ghost is_closed: { Self → Bool };
    // Between these states of the end no task was there at a step.
    ghost was_empty: { Self → Self → Type 0 };
    // Between these states of the end the sender was found closed, with no task left.
    ghost was_ended: { Self → Self → Type 0 };

    /// Takes the task in front. A closed end may take what is left.
    fn take(&mut self) -> TakeStep
        ensures taken { TakesAs (λ tasks. takes self.old tasks self.new) result }
        ensures cause { TakeCause (was_empty self.old self.new) (was_ended self.old self.new) result }
        ensures same { is_closed self.new ≡ is_closed self.old };

    /// Tells the sender that nothing more is wanted.
    fn close(&mut self)
        ensures taken { takes self.old [] self.new }
        ensures closed { is_closed self.new ≡ true };

    ghost takes_none: { (end : Self) → takes end [] end };

    ghost takes_on: { (a b c : Self) (some more : List HttpTask)
        → takes a some b → takes b more c → takes a (some ++ more) c };
}
