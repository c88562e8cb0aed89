//! Tests of links, sources, sinks, acceptors, dialers and clocks, in memory and over TCP. They check
//! what no clause says, as the order in which a stream is closed, and call each of them once.
#![tactic(auto)]

#[cfg(test)]
mod tests;
