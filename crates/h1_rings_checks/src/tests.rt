//! Rings by rows of calls and answers. None of the functions here promises anything: an expectation
//! that isn't met ends the test.
mod closing;
mod kinds;
mod lists;
mod rows;
mod threads;
mod values;

use h1_error::{Error, ErrorType};
use h1_head::HttpTask;
use h1_rings::{PutStep, TakeStep};

/// The number that the answers below tell of no task.
const NO_TASK: u32 = 1_000_000;

/// A task that has a number.
fn numbered(number: u32) -> HttpTask {
    HttpTask::Failed(Error::from(ErrorType::TaskFailed(number)))
}

/// The number of such a task.
fn number(task: &HttpTask) -> u32 {
    match task {
        HttpTask::Failed(error) => match error.kind {
            ErrorType::TaskFailed(number) => number,
            _ => NO_TASK,
        },
        _ => NO_TASK,
    }
}

/// The number of such a task, if there is one.
fn number_in(task: &Option<HttpTask>) -> Option<u32> {
    match task {
        Some(task) => Some(number(task)),
        None => None,
    }
}

/// What a put or a take answered, with the number of the task that it hands back.
#[derive(Clone, Copy, Debug, PartialEq, Eq)]
enum Answer {
    Put,
    Full(u32),
    Gone(u32),
    Task(u32),
    Empty,
    Ended,
}

fn put_answer(step: PutStep) -> Answer {
    match step {
        PutStep::Put => Answer::Put,
        PutStep::Full(task) => Answer::Full(number(&task)),
        PutStep::Gone(task) => Answer::Gone(number(&task)),
    }
}

fn take_answer(step: TakeStep) -> Answer {
    match step {
        TakeStep::Task(task) => Answer::Task(number(&task)),
        TakeStep::Empty => Answer::Empty,
        TakeStep::Ended => Answer::Ended,
    }
}
