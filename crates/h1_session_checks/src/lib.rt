//! Tests of a session: whole exchanges, call by call, and its deadlines, to the millisecond. These
//! show when a wait begins, when bytes begin it anew, and that a call is late at its deadline and not
//! a millisecond before.
#![tactic(auto)]

#[cfg(test)]
mod tests;
