//! Tests that cross crates: an application behind a link in memory. They check what no clause says,
//! as the very bytes of a reply.
#![tactic(auto)]

#[cfg(test)]
mod tests;
