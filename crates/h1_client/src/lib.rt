//! The client's side of HTTP/1 over a link, one exchange at a time (RFC 9112).
#![tactic(auto)]

mod answered;
mod asked;
mod connector;
mod framing;
mod idle;
mod idle_time;
mod judging;
mod keeping;
mod pool;
mod response_place;
mod session;
mod settings;
mod spare;
mod stacks;
pub mod v1;

pub use connector::Connector;
pub use idle::{IdleLink, Probe};
pub use keeping::Keepalive;
pub use pool::{Pick, Pool};
pub use session::HttpSession;
pub use settings::{Peer, Settings};
