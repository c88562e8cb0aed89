//! Bodies of HTTP/1 messages: how they are framed, read from pieces of any size, and written
//! (RFC 9112, sections 6 and 7).
#![tactic(auto)]

mod body_bytes;
mod chunk_laws;
mod chunking;
mod fed;
mod fixed_buffer;
mod framing;
mod laws;
mod payload;
mod reader;
mod size_line;
mod wire;
mod writer;
mod writing_laws;

pub use body_bytes::{BodyBytes, ROOM};
pub use chunk_laws::{chunked_is_the_grammar, no_chunked_body_begins_another};
pub use chunking::{CHUNK_LIMIT, Chunking, SIZE_LINE_LIMIT, TRAILERS_LIMIT};
pub use fed::{Fed, FeedState, Taken};
pub use fixed_buffer::FixedBuffer;
pub use framing::{
    Framing, framing_of, framing_with, is_head_only, reply_framing, response_framing,
};
pub use laws::{bodies_grow, readings_join};
pub use payload::{Gathering, Payload};
pub use reader::{BodyReader, Reading};
pub use wire::Wire;
pub use writer::BodyWriter;
pub use writing_laws::written_bodies_are_read_back;
