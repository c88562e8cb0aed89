//! Tests of requests that are forwarded: a server's session reads one, a client's session writes
//! it, and another server's session reads what the client wrote.
#![tactic(auto)]

#[cfg(test)]
mod tests;
