//! The connection: an application behind a link, and one exchange behind the other over it
//! (RFC 9112).
//!
//! A [`Connection`] reads a request, has its server's modules filter the head, lets the application
//! read the body and reply, writes what the modules make of the reply and goes on with the next
//! request. It keeps a transcript of what it read and wrote, and its contracts tie the transcript to
//! the bytes of the link.
#![tactic(auto)]

mod connection;
mod exchange;
mod lawful;
mod laws;
mod options;
mod reused;
mod server;
mod steps;

pub use connection::Connection;
pub use exchange::{Outcome, Stage};
pub use h1_application::{REPLY_TIME, Respond, Responds, ServeHttp, reply_of};
pub use h1_body::BodyBytes;
pub use h1_error::{End, Error, ErrorType, HeadFault, Progress, Waiting};
pub use h1_modules::{
    HeadFilter, HeadModule, HttpModule, HttpModuleBuilder, HttpModuleCtx, HttpModules, NoModules,
};
pub use h1_server::{CALL_BUDGET, HttpSession};
pub use h1_transcript::{Entry, History, How, Reply, Transcript};
pub use lawful::{LawfulFilter, LawfulFor};
pub use laws::{
    a_link_that_is_handed_on_goes_on, only_the_budget_is_awaited,
    the_next_exchange_begins_behind_the_last, valid_input_is_served,
};
pub use options::HttpServerOptions;
pub use reused::{HttpPersistentSettings, ReusedHttpStream};
pub use server::{HttpServer, HttpServerApp, Plain};
