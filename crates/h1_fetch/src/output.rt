//! Text as it is written to a sink.
ghost use Rattle.h1_fetch.specs.Output.{WriteCause};

use h1_link::{Sink, SinkStep};

/// What writing a text comes to.
#[derive(Clone, Copy, Debug, PartialEq, Eq)]
pub(crate) enum Written {
    /// All of it was taken and flushed.
    Whole,
    /// The sink failed.
    Failed,
    /// The sink had no memory.
    NoMemory,
}

/// Writes a text, and flushes it.
pub(crate) fn write_whole<K: Sink>(sink: &mut K, text: &[u8]) -> Written
    ensures { WriteCause (K.state sink.old) (K.state sink.new) text.now result }
{
    let mut at = 0;
    while at < text.len() {
        match sink.write(&text[at..]) {
            SinkStep::Took(count) => {
                if count == 0 {
                    return Written::Failed;
                }
                at += count;
            }
            SinkStep::Failed => return Written::Failed,
            SinkStep::NoMemory => return Written::NoMemory,
        }
    }
    if sink.flush() {
        Written::Whole
    } else {
        Written::Failed
    }
}
