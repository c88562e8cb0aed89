//! What can go wrong on an HTTP/1 connection, why a connection ended, and what a poll waits for.
//!
//! Every other crate answers with these types. An error has a kind, and no two kinds have the same
//! number, so a report may print the number and a caller may match on the kind. Each error has a
//! message for people, beside the name that a report prints.
#![tactic(auto)]

mod error;
mod head_fault;
mod laws;
mod moment;
mod progress;
#[cfg(test)]
mod tests;

pub use error::{ConnectFault, Error, ErrorType, TaskKind};
pub use head_fault::HeadFault;
pub use laws::kinds_have_their_own_numbers;
pub use moment::YEAR_10000;
pub use progress::{End, Progress, Waiting};
