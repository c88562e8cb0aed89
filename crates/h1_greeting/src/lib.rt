//! An application of a few lines, a module of a few lines, and connections over a link in memory that
//! they serve.
#![tactic(auto)]

mod greeting;
mod serving;
mod stamp;

pub use greeting::{Greeted, Greets, greet};
pub use serving::{MOST_POLLS, serve};
pub use stamp::{Stamp, Stamped, greet_stamped};
