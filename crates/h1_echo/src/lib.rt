//! An application that replies with what it was asked.
#![tactic(auto)]

mod echo;

pub use echo::{EchoApp, EchoJob};
