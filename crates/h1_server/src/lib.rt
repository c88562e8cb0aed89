//! The server's side of HTTP/1 over a link, one exchange at a time (RFC 9112).
#![tactic(auto)]

mod limit;
mod persistence;
mod reading_head;
mod request;
mod request_place;
mod request_state;
mod reusable;
mod server;
mod settings;
mod taking_up;
mod times;

pub use h1_transfer::{BodyState, CALL_BUDGET, Outgoing, Step};
pub use limit::Limit;
pub use request::{NoRequest, ReadRequest, Request};
pub use reusable::ReusableHttpStream;
pub use server::HttpSession;
pub use settings::{Settings, one_less};
pub use times::{READ_TIMEOUT, Times};
