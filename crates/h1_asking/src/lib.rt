//! A client's request in one call, and the calls of its session for who needs more.
//!
//! [`fetch`] asks over a link that a connector keeps or dials, and reads the response to its end. Its
//! clause says what its link took and gave. [`ask`], [`write_piece`], [`finish`], [`read_response`] and
//! [`read_piece`] are the calls of a session, each where it has its turn.
#![tactic(auto)]

mod fetching;
mod turns;

pub use fetching::{Fault, Fetched, MOST_POLLS, TIMEOUT, fetch};
pub use turns::{ask, finish, read_piece, read_response, write_piece};
