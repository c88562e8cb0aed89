//! Tests of a client's session: whole exchanges over a link in memory, in one piece and byte by
//! byte.
#![tactic(auto)]

#[cfg(test)]
mod tests;
