//! Where the head of a message ends in a stream of bytes (RFC 9112, sections 2.1 and 2.2).
//!
//! The lines of the stream are its parts through each LF, and a line is empty if nothing or one CR
//! stands before its LF. A head ends with the first empty line after a nonempty one; the number of
//! bytes through that line is its cut. Whole buffers are asked by [`cut_of`] and [`cut_within`],
//! pieces of a stream by a [`HeadSearch`]. What a search costs is the number of bytes that it looks
//! at, which come one by one from a [`LookedAt`] and are counted by [`Steps`].
#![tactic(auto)]

mod cut;
mod laws;
mod limit_laws;
mod line;
mod line_feed;
mod looked_at;
mod search;
mod step_laws;
mod steps;
#[cfg(test)]
mod tests;

pub use cut::{cut_of, cut_within};
pub use laws::{cut_is_by_lines, cut_is_stable, cut_of_its_front, heads_are_prefix_free};
pub use limit_laws::{
    heads_within_a_limit_are_stable, heads_within_a_limit_are_unique, searches_go_on,
};
pub use line::LineSoFar;
pub use looked_at::LookedAt;
pub use search::HeadSearch;
pub use step_laws::searches_look_once;
pub use steps::Steps;
