//! Tests of task rings, in one thread and in two, and of the ends in memory. They check what no clause
//! says, as that a put with room is put, and that what was sent by `once` comes.
#![tactic(auto)]

#[cfg(test)]
mod tests;
