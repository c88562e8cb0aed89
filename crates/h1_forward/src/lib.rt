//! What is written of a request is read back, and a request that is forwarded is the same request
//! behind the client that writes it (RFC 9112, sections 2 to 7).
#![tactic(auto)]

mod forward;
mod forward_laws;
mod wire_laws;

pub use forward::{Forward, Stage};
pub use forward_laws::{
    a_forwarded_request_is_the_same_request, forwarded_requests_read_back,
    forwarding_writes_the_request,
};
pub use wire_laws::{read_requests_are_plain, written_requests_read_back};
