//! An acceptor of links, as a listening socket.
ghost use Rattle.std.specs.Prelude.{◌≡◌};
ghost use Rattle.h1_link.specs.AcceptorState.{AcceptorState, AcceptsFresh, after_bind, after_accept, after_hand_back};

use crate::link::Link;

/// An acceptor of links. Contracts see it by its `state`, in which the links that were handed back
/// stand as they were then; memory keeps none of them.
pub trait Acceptor {
    type Link: Link + Drop;

    ghost state: { Self → AcceptorState };

    /// Takes hold of a port. False is a fault.
    fn bind(&mut self, port: u16) -> bool
        ensures state { state self.new ≡ after_bind (state self.old) port result };

    /// Waits for a peer. `None` is a fault.
    fn accept(&mut self) -> Option<Self::Link>
        ensures fresh { AcceptsFresh Self.Link.state result }
        ensures state { state self.new ≡ after_accept (state self.old) result };

    /// Takes back a link whose connection is over. Whoever serves hands back each link that was
    /// accepted, once, when all was sent and the link was shut down.
    fn hand_back(&mut self, link: Self::Link)
        ensures state { state self.new
            ≡ after_hand_back (state self.old) (Self.Link.state link) };
}
