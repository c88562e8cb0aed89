//! The escape of an illegal request line (RFC 9112, section 3.2).
//!
//! A target with a space or with a byte outside of ASCII makes a request line that the grammar
//! doesn't know. Such a line is read as a method, a target and a version all the same, and the
//! bytes of its target that no target may have are percent-escaped (RFC 3986, section 2.1), once.
#![tactic(auto)]

mod escape;
mod target;
#[cfg(test)]
mod tests;

pub use escape::escape_head;
