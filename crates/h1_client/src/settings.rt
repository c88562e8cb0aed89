//! What is set on a client's session. All times are milliseconds.
ghost use Rattle.std.specs.Prelude.{◌≡◌};
ghost use Rattle.h1_client.specs.Settings.{new_settings, peer_settings, read_deadline, write_deadline};

use h1_transfer::Deadline;

/// A peer that requests are sent to.
#[derive(Clone, Copy, Debug, PartialEq, Eq)]
pub struct Peer {
    /// The peer's name in a pool of links and for a dialer, which for a `TcpDialer` is its port.
    pub key: u64,
    /// Whether a response with one value of Content-Length that is no number is read until the
    /// link ends.
    pub allow_h1_response_invalid_content_length: bool,
}

/// What is set on a client's session.
#[derive(Clone, Copy, Debug, PartialEq, Eq)]
pub struct Settings {
    /// How long a read may wait without bytes. None is without a limit.
    pub read_timeout: Option<u64>,
    /// How long a write may wait without bytes. None is without a limit.
    pub write_timeout: Option<u64>,
    /// One value of Content-Length that is no number is tolerated, and the response is read until
    /// the link ends.
    pub tolerant: bool,
    /// The key of the peer, under which alone the link may stand idle. None where the session was
    /// made without a peer.
    pub key: Option<u64>,
    /// The moment from which the link was not to be handed out any more, where it stood idle
    /// before. None is without a limit.
    pub until: Option<u64>,
}

impl Settings {
    /// Nothing has a limit.
    pub(crate) fn new() -> Self
        ensures { result ≡ new_settings }
    {
        Settings {
            read_timeout: None,
            write_timeout: None,
            tolerant: false,
            key: None,
            until: None,
        }
    }

    /// The same with what is known of the peer.
    pub(crate) fn with_peer(peer: &Peer) -> Self
        ensures { result ≡ peer_settings peer.now }
    {
        Settings {
            read_timeout: None,
            write_timeout: None,
            tolerant: peer.allow_h1_response_invalid_content_length,
            key: Some(peer.key),
            until: None,
        }
    }

    pub(crate) fn read_deadline(self, now: u64) -> Deadline
        ensures { result ≡ read_deadline self now }
    {
        Deadline {
            moment: now,
            limit: self.read_timeout,
        }
    }

    pub(crate) fn write_deadline(self, now: u64) -> Deadline
        ensures { result ≡ write_deadline self now }
    {
        Deadline {
            moment: now,
            limit: self.write_timeout,
        }
    }
}
