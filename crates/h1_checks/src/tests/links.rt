//! The link that the tests serve over.
ghost use Rattle.std.specs.Prelude.{◌≡◌, ◌<◌, length};
ghost use Rattle.h1_link.specs.Steps.{FitsRead, FitsWrite, after_read, after_write};
ghost use Rattle.h1_link.specs.Steps.{after_flush, after_shutdown};

use h1_link::{FlushStep, Link, MemLink, ReadStep, WriteStep};
use std::alloc::Global;

/// A link in memory. One that trickles takes one byte a write, and its first flush isn't ready.
#[derive(Drop)]
pub struct TestLink {
    pub link: MemLink,
    /// Whether a write takes one byte alone.
    pub trickles: bool,
    /// Whether the first flush is behind it.
    pub has_waited: bool,
}

impl TestLink {
    /// A link whose peer has sent nothing yet and takes everything.
    pub fn new(alloc: Global, trickles: bool) -> Self {
        TestLink {
            link: MemLink::new(alloc),
            trickles,
            has_waited: !trickles,
        }
    }
}

impl Link for TestLink {
    ghost state = { λ test. test.link.state };

    ghost same_plan = { λ _ _. Unit {0} };

    fn poll_read(&mut self, buf: &mut [u8]) -> ReadStep {
        self.link.poll_read(buf)
    }

    fn poll_write(&mut self, piece: &[u8]) -> WriteStep {
        if self.trickles {
            return self.link.poll_write(&piece[..piece.len().min(1)]);
        }
        self.link.poll_write(piece)
    }

    fn poll_flush(&mut self) -> FlushStep {
        if self.has_waited {
            return self.link.poll_flush();
        }
        self.has_waited = true;
        self.link.block();
        let step = self.link.poll_flush();
        self.link.room(u64::MAX);
        step
    }

    fn shutdown(&mut self) {
        self.link.shutdown();
    }

    ghost plan_itself = { λ _. tt };

    ghost plan_on = { λ _ _ _ _ _. tt };
}
