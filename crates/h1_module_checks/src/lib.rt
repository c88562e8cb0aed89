//! Modules by example: lists of them, what each filter leaves, and gRPC-web. The tests check what no
//! clause says, as that a filter succeeds, by values from outside.
#![tactic(auto)]

#[cfg(test)]
mod tests;
