//! What a connection holds of its exchanges.
ghost use Rattle.std.specs.Prelude.{◌≡◌};
ghost use Rattle.h1_transcript.specs.Entry.{gathering_of};

use h1_body::Gathering;

/// Whether the exchanges of a connection stay in memory, to be read from its transcript. Contracts
/// see them all either way.
#[derive(Clone, Copy, Debug, PartialEq, Eq)]
pub enum History {
    /// Each exchange is kept, with copies of its heads and of what was sent.
    Kept,
    /// An exchange leaves memory as it ends. Until then there is no copy of its heads, of what was
    /// sent, or of payload that isn't gathered; what its own reply is made of stays, and so does the
    /// block of gathered payload, which the next exchange takes.
    Forgotten,
}

impl Default for History {
    ghost use Rattle.std.specs.Prelude.{◌≡◌};
    ghost use Rattle.h1_transcript.specs.declared.history.History.TheVariants.{Kept};

    ghost is_default = { λ history. history ≡ Kept };

    fn default() -> Self {
        History::Kept
    }
}

/// What a connection holds of its exchanges. Contracts see all of them.
#[derive(Clone, Copy, Debug, PartialEq, Eq)]
pub struct Holding {
    pub history: History,
    /// Whether the application uses the whole of a request's body.
    pub gathers: bool,
    /// The most bytes of one request's payload.
    pub limit: u64,
}

impl Holding {
    /// What is held of a request's payload: all where exchanges are kept, or where the application
    /// uses the whole of it.
    #[inline(always)]
    pub fn gathering(&self) -> Gathering
        ensures { result ≡ gathering_of self.now }
    {
        let holds = match self.history {
            History::Kept => true,
            History::Forgotten => self.gathers,
        };
        Gathering {
            holds,
            limit: self.limit,
        }
    }
}
