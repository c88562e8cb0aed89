//! A client of a few lines: whether a server says of itself that it is healthy.
#![tactic(auto)]

mod health;

pub use health::is_healthy;
