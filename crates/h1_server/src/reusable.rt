//! A link that serves the next request.
ghost use Rattle.std.specs.Prelude.{◌≡◌};

use bytes::BytesMut;
use h1_link::Link;

/// The link of a session that is over, and what was received and not used: it comes first in the
/// next session.
#[derive(Debug, Drop)]
pub struct ReusableHttpStream<L: Link + Drop> {
    pub(crate) stream: L,
    pub(crate) prefix: Option<BytesMut>,
}

impl<L: Link + Drop> ReusableHttpStream<L> {
    /// The link, and what comes first, where there is anything.
    pub fn into_parts(self) -> (L, Option<BytesMut>)
        ensures { (result.0 ≡ self.stream) × (result.1 ≡ self.prefix) }
    {
        (self.stream, self.prefix)
    }
}
