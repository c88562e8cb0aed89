//! The program: it asks a server for a path, so many times over links that are kept, and tells what
//! came; or it plays a client's session over a link in memory, as a script says, and reports what
//! each call answered.
//!
//! [`run`] gets the words of the command line, a source, a sink, a sink of messages, a dialer and a
//! clock. Each exit status has its cause. What `get` prints is what came; a report relates each poll's
//! answer to the session's states before and after it. Which lines a script has, and which scripts are
//! refused, no clause says.
#![tactic(auto)]

mod command;
mod getting;
mod input;
mod lines;
mod output;
mod request;
mod script;
mod scripted;
mod status;
mod stepping;
mod told;
mod words;

pub use command::run;
pub use words::MOST_REQUESTS;
