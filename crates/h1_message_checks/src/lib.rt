//! Tests of messages over the built libraries: of field lines, of heads that are read and written,
//! and of bodies. They check what no clause says, and give the clauses examples from outside.
#![tactic(auto)]

#[cfg(test)]
mod tests;
