//! The application.
use h1_app::{Reply, Respond, reply_of};
use h1_error::Error;
use h1_head::RequestHeader;
use std::alloc::Global;

/// Says hello to whoever asks for `/`.
#[derive(Clone, Copy, Debug, PartialEq, Eq)]
pub struct Hello;

impl Respond for Hello {
    fn respond(&self, alloc: Global, head: &RequestHeader) -> Result<Reply, Error> {
        if head.raw_path() == b"/".as_slice() {
            reply_of(alloc, 200, b"hello\n")
        } else {
            reply_of(alloc, 404, b"not here\n")
        }
    }
}
