//! Tests of the program and of the servers that stand beside it: exit statuses and reports, peers in
//! memory and over TCP, threads that serve, and what the peers of the sample servers see.
#![tactic(auto)]

#[cfg(test)]
mod tests;
