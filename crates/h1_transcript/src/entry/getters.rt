//! What an exchange tells.
ghost use Rattle.std.specs.Prelude.{◌≡◌, ◌≤◌, Some, length};
ghost use Rattle.std.specs.Option.{option_copied};
ghost use Rattle.h1_body.specs.Payload.{held_in};
ghost use Rattle.h1_transcript.specs.Entry.{gathering_of, kept_in, payload_in};

use super::{Entry, How};
use crate::{History, Reply};
use bytes::Bytes;
use h1_body::Gathering;
use h1_error::Error;
use h1_head::{RequestHeader, ResponseHeader};
use h1_server::Settings;

impl Entry {
    /// What is held of the request's payload, and how much of it may be read.
    #[inline(always)]
    pub fn gathering(&self) -> Gathering
        ensures { result ≡ gathering_of self.now.holding }
    {
        self.holding.gathering()
    }

    /// Whether the exchange is kept in memory.
    #[inline(always)]
    pub fn history(&self) -> History
        ensures { result ≡ self.now.holding.history }
    {
        self.holding.history
    }

    /// The head as it was read, where exchanges are kept.
    pub fn head(&self) -> Option<&RequestHeader>
        ensures { option_copied result ≡ kept_in self.now.holding.history (Some self.now.head) }
    {
        self.head.get()
    }

    /// The head after the request filters, where exchanges are kept; the head as it was read where no
    /// filter changed it. None where one refused.
    pub fn filtered(&self) -> Option<&RequestHeader>
        ensures { option_copied result ≡ kept_in self.now.holding.history self.now.filtered }
    {
        if self.is_changed {
            self.filtered.as_ref()?.get()
        } else {
            self.head.get()
        }
    }

    /// All payload that was read, where exchanges are kept or the application uses the whole of it.
    pub fn body(&self) -> Option<&[u8]>
        ensures { option_copied result ≡ held_in (payload_in self.now) }
    {
        self.payload.held()
    }

    /// How many bytes of payload were read: never more than its limit.
    #[inline(always)]
    pub fn body_len(&self) -> u64
        ensures value { result ≡ length self.now.body }
        ensures within { result ≤ self.now.holding.limit }
    {
        self.payload.len()
    }

    /// How many bytes of the payload the application was handed.
    pub fn handed(&self) -> u64
        ensures { result ≡ self.now.handed }
    {
        self.handed
    }

    /// Why the body couldn't be read on.
    pub fn body_error(&self) -> Option<Error>
        ensures { result ≡ self.now.body_error }
    {
        self.body_error
    }

    /// How long the read of the body that waited too long might wait, in milliseconds.
    pub fn read_limit(&self) -> Option<u64>
        ensures { result ≡ self.now.read_limit }
    {
        self.read_limit
    }

    /// How the request's body stood when the reply was made.
    pub fn how(&self) -> How
        ensures { result ≡ self.now.how }
    {
        self.how
    }

    /// What was set as the exchange began.
    pub fn began(&self) -> Settings
        ensures { result ≡ self.now.began }
    {
        self.began
    }

    /// What the application left set.
    pub fn left(&self) -> Settings
        ensures { result ≡ self.now.left }
    {
        self.left
    }

    /// What the application replied.
    #[inline(always)]
    pub fn reply(&self) -> Option<&Reply>
        ensures { option_copied result ≡ self.now.reply }
    {
        if self.replied {
            self.reply.as_ref()
        } else {
            None
        }
    }

    /// The reply's header after the response filters, where exchanges are kept.
    pub fn sent_head(&self) -> Option<&ResponseHeader>
        ensures { option_copied result ≡ kept_in self.now.holding.history self.now.sent_head }
    {
        if self.headed {
            self.sent_head.as_ref()?.get()
        } else {
            None
        }
    }

    /// The reply's body after the response filters, where exchanges are kept.
    pub fn sent_body(&self) -> Option<&Bytes>
        ensures { option_copied result ≡ kept_in self.now.holding.history self.now.sent_body }
    {
        if self.bodied {
            self.sent_body.as_ref()?.get()
        } else {
            None
        }
    }

    /// How many bytes of the reply were written.
    pub fn written(&self) -> u64
        ensures { result ≡ self.now.written }
    {
        self.written
    }

    /// The second of the reply's Date since the epoch.
    pub fn date(&self) -> u64
        ensures { result ≡ self.now.date }
    {
        self.date
    }

    /// The reply's Date, as it is written.
    pub fn date_text(&self) -> [u8; 29]
        ensures { result ≡ self.now.date_text }
    {
        self.date_text
    }

    /// Whether Content-Length stood beside Transfer-Encoding and was dropped (RFC 9112, section 6.1).
    pub fn both(&self) -> bool
        ensures { result ≡ self.now.both }
    {
        self.both
    }

    /// Whether the reply said that the connection is kept.
    pub fn keep(&self) -> bool
        ensures { result ≡ self.now.keep }
    {
        self.keep
    }

    /// Whether the reply was taken up and is not flushed yet.
    pub fn owed(&self) -> bool
        ensures { result ≡ self.now.owed }
    {
        self.owed
    }
}
