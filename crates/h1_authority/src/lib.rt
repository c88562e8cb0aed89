//! The authority of a request: what its target, its Host line and its URI name (RFC 9112,
//! section 3.2).
//!
//! Everything here reads slices of bytes and takes no memory.
#![tactic(auto)]

mod bytes;
mod check;
mod connect;
mod hosts;
mod laws;
mod parsed_authority;
mod port_suffix;
mod raw_target;
mod scheme;

pub use check::check_authority;
pub use hosts::Hosts;
pub use laws::{parsed_authorities_follow_the_grammar, ports_are_numbers};
pub use parsed_authority::{ParsedAuthority, parse_authority};
pub use port_suffix::has_ambiguous_port_suffix;
pub use raw_target::{RawTargetAuthority, raw_target_authority};
pub use scheme::is_http_family_scheme;

#[cfg(test)]
mod tests;
