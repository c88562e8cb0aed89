//! What an application is to a connection: the trait that it implements, what it may do with a
//! session, and the simplest of them, which answers at once by the head of a request.
#![tactic(auto)]

mod application;
mod reply;
mod respond;

pub use application::ServeHttp;
pub use reply::reply_of;
pub use respond::{REPLY_TIME, Respond, Responds};
