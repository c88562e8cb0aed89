//! What an application replies.
use h1_body::BodyBytes;
use h1_head::ResponseHeader;

/// What an application replies: a final header of version 1.0 or 1.1, and the whole body.
#[derive(Drop)]
pub struct Reply {
    pub header: ResponseHeader,
    pub body: BodyBytes,
}
