//! A server of a few lines: an application that answers at once, and a module before it that
//! refuses requests and marks replies.
#![tactic(auto)]

mod allowing;
mod gate;
mod hello;
mod server;

pub use allowing::ReadOnly;
pub use gate::Gate;
pub use hello::Hello;
pub use server::{Greeted, HelloServer, REQUEST_LIMIT, hello_server, say_hello};
