//! Fields, heads and bodies by example. For short proofs each call of a library is in a function of
//! its own that promises nothing, what it gives is in a struct of which contracts see nothing, and an
//! error ends the test.
mod bodies;
mod conditional;
mod fields;
mod head_rows;
mod heads;
mod lines;
mod reading_heads;
mod replies;
mod requests;
mod response_heads;
mod streams;
mod tags;
mod tasks;
