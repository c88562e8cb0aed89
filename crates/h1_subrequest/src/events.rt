//! What the two sides of a subrequest do.
use h1_head::HttpTask;

/// Which way a task goes.
#[derive(Clone, Copy, Debug, PartialEq, Eq, Hash)]
pub enum Direction {
    /// From the handle: parts of the request.
    ToSubrequest,
    /// From the subrequest: parts of its response.
    ToHandle,
}

/// What one side does.
#[derive(Debug, Drop)]
pub enum SubEvent {
    /// The sender puts a task.
    Put(Direction, HttpTask),
    /// The receiver takes the task in front.
    Take(Direction),
    /// The sender puts no more.
    Close(Direction),
    /// The receiver takes no more.
    Gone(Direction),
}
