//! A dialer of links, as an outgoing socket.
ghost use Rattle.h1_link.specs.DialerState.{DialerState, HandsOutFresh, after_dial};
ghost use Rattle.std.specs.Prelude.{◌≡◌};

use crate::link::Link;

/// What a dial answers.
#[derive(Drop)]
pub enum DialStep<L> {
    /// A link that gave and took no byte yet.
    Connected(L),
    /// The peer hasn't answered yet.
    NotReady,
    /// The dial failed.
    Failed,
    /// The dialer had no memory.
    NoMemory,
}

/// A dialer of links, which never blocks. Contracts see it by its `state`.
///
/// What its owner planned stays in each call but for what was answered, which `same_plan` says of
/// two moments.
pub trait Dialer {
    type Link: Link + Drop;

    ghost state: { Self → DialerState };

    ghost same_plan: { Self → Self → Type 0 };

    /// Goes on with a dial of the peer that this key names.
    fn poll_dial(&mut self, key: u64) -> DialStep<Self::Link>
        ensures fresh { HandsOutFresh Self.Link.state result }
        ensures state { state self.new ≡ after_dial (state self.old) result }
        ensures plan { same_plan self.old self.new };

    ghost plan_itself: { (dialer : Self) → same_plan dialer dialer };

    ghost plan_on: { (a b c : Self) → same_plan a b → same_plan b c → same_plan a c };
}
