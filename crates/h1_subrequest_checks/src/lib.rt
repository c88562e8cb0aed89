//! Tests of subrequests, by rows of events.
#![tactic(auto)]

#[cfg(test)]
mod tests;
