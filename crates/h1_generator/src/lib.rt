//! Requests that are made: up to 20,000, one after the other, as valid input.
#![tactic(auto)]

mod generator;
mod laws;

pub use generator::generate;
pub use laws::generated_input_is_valid;
