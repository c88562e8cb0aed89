//! The program: it runs a script over a connection in memory, and reports what was answered, read
//! and written; or it makes requests, serves them, and tells that in numbers; or it serves peers at
//! a port, and tells what each connection came to.
//!
//! [`run`] gets the words of the command line, a source, a sink, an acceptor and a clock. The script
//! is read whole and judged before it runs. Each exit status has its cause, and a report relates each
//! poll's answer to the connection's states before and after it.
#![tactic(auto)]

mod command;
mod exchange;
mod generated;
mod input;
mod laws;
mod link_lines;
mod listening;
mod output;
mod scripted;
mod status;

pub use command::run;
pub use laws::{
    faults_are_planned, few_statuses_are_left, finished_reports_are_alike,
    polls_for_the_budget_are_few, statuses_have_causes,
};
