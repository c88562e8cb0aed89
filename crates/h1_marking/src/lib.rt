//! The modules that a script can add to a server of the echo application: one marks its replies,
//! one refuses the requests for one target.
#![tactic(auto)]

mod marking;

pub use marking::{Marking, MarkingModule};
