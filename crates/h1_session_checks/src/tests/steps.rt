//! The steps of which a test is a list.
use super::Told;
use super::facts::{Fact, Traffic};
use super::setting::Setting;

/// A call that reads.
#[derive(Clone, Copy)]
pub enum Call {
    Head,
    Body,
    Drain,
    Reuse,
}

/// What is set on a session, what its peer does, or what is then expected of the session.
#[derive(Clone, Copy)]
pub enum Step {
    Set(Setting),
    /// The session says this.
    Is(Fact),
    /// This went over the link.
    Has(Traffic),
    /// The peer sends so many bytes more.
    Send(usize),
    /// The peer sends nothing more.
    Close,
    /// The peer takes so many bytes more.
    Room(u64),
    /// The peer takes nothing more, and no flush.
    Block,
    /// A call at this moment tells this. Before it the peer sends so many bytes.
    Read(Call, u64, usize, Told),
    /// This payload of the body is read at this moment.
    Payload(u64, &'static [u8]),
    /// A call waits from `FIRST` on, and tells this once so many milliseconds have passed, and
    /// again then, and not a millisecond before.
    ReadUntil(Call, u64, Told),
    /// A call whose time is a second waits from `FIRST` on, and then tells this. It doesn't wait
    /// where its budget is spent: no link call may move bytes then, so none is made.
    ReadWhereAsked(Call, Told),
    /// The next request begins.
    Next,
    /// The header of a reply of this length that is handed in at this moment tells this.
    Header(u64, u64, Told),
    /// The header before goes on at this moment and tells this.
    HeaderOn(u64, Told),
    /// A piece of this length that is handed in at this moment tells this. Before it the peer takes
    /// so many bytes.
    Piece(usize, u64, u64, Told),
    /// The piece before goes on at this moment and tells this. Before it the peer takes so many
    /// bytes.
    PieceOn(u64, u64, Told),
    /// A piece of this length that is handed in at `FIRST`, while the link takes nothing, is late
    /// once so many milliseconds have passed, and not a millisecond before.
    PieceUntil(usize, u64),
    /// The end of a reply's body at this moment tells this.
    End(u64, Told),
    /// The reply "ok" is written whole at this moment, and the connection is kept.
    Reply(u64),
}
