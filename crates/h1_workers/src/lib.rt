//! Connections that several threads serve, one after another each, behind one acceptor.
#![tactic(auto)]

mod door;
mod peer;
mod served;
mod workers;

pub use peer::{Peers, ServePeer};
pub use served::Served;
pub use workers::serve_workers;
