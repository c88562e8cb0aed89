//! An application whose replies have a line of their own.
use h1_app::{Reply, Respond, reply_of};
use h1_error::Error;
use h1_head::RequestHeader;
use std::alloc::Global;

/// Says hello to GET and HEAD, and to any other method which of them it allows (RFC 9110, section
/// 15.5.6).
#[derive(Clone, Copy, Debug, PartialEq, Eq)]
pub struct ReadOnly;

impl Respond for ReadOnly {
    #[tactic(auto, unfolding(httparse::specs::Grammar::is_token_byte))]
    fn respond(&self, alloc: Global, head: &RequestHeader) -> Result<Reply, Error> {
        let method = head.method().as_str();
        if method == "GET" || method == "HEAD" {
            reply_of(alloc, 200, b"hello\n")
        } else {
            let mut reply = reply_of(alloc, 405, b"")?;
            reply.header.append_header(b"allow", b"GET, HEAD")?;
            Ok(reply)
        }
    }
}
