//! Subrequests: requests that another part of the same program serves. Their parts, and those of
//! their responses, go as tasks over two rings.
//!
//! `SubCore` is what becomes of both directions by the events of the two sides, as plain data, and
//! `sub_run` does any list of events. `BodyReader` and `BodyWriter` move by the same rules over the
//! ends of rings.
#![tactic(auto)]

mod body_mode;
mod direction_tasks;
mod events;
mod laws;
mod parse_state;
mod passing;
mod reader;
mod running;
mod session;
mod sub_core;
mod upgrade;
mod writer;

pub use body_mode::BodyMode;
pub use events::{Direction, SubEvent};
pub use laws::{bodies_are_events, every_interleaving};
pub use parse_state::ParseState;
pub use reader::BodyReader;
pub use running::sub_run;
pub use session::HttpSession;
pub use sub_core::SubCore;
pub use writer::{BodyWriter, PREMATURE_BODY_END};
