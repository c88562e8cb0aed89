//! Connections that are served by one call: to their end, or so many polls.
#![tactic(auto)]

mod generated;
mod peer;
mod serving;

pub use generated::serve_gen;
pub use peer::{close_link, serve_peer};
pub use serving::{Echoed, MOST_POLLS, serve_link};
