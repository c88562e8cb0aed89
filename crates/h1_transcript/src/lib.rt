//! What a connection read and wrote, exchange by exchange (RFC 9112).
//!
//! A [`Transcript`] has one [`Entry`] for each exchange. The definitions say how a transcript
//! agrees with the bytes of a link, how it grows, and how its exchanges stand where a connection
//! ends.
#![tactic(auto)]

mod entry;
mod held;
mod history;
mod laws;
mod reply;
mod transcript;

pub use entry::{Entry, How};
pub use history::{History, Holding};
pub use laws::the_last_exchange_is_replied_to;
pub use reply::Reply;
pub use transcript::{KEEPALIVE_SECONDS, Transcript};
