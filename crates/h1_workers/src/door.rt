//! The acceptor that the threads share, and the links that are taken from it.
ghost use Rattle.std.specs.Prelude.{◌≡◌, ◌<◌, ◌+◌, ◌-◌, ◌^◌, ◌++◌, ◌∷◌, [], length, Some, None};
ghost use Rattle.h1_link.specs.AcceptorState.{after_accept, after_hand_back};
ghost use Rattle.h1_link.specs.LinkState.{IsFresh};
ghost use Rattle.h1_serving.specs.Peer.{clock_of};
ghost use Rattle.h1_workers.specs.Workers.{Tells, IsNext, IsFreshNext};
ghost use Rattle.h1_workers.specs.declared.door.Next.TheVariants.{Over};

use crate::peer::ServePeer;
use crate::served::Served;
use h1_link::{Acceptor, Clock, Link};
use std::alloc::Global;

/// A link that was taken and has to be served. It can't be dropped.
pub(crate) struct Taken<L> {
    link: L,
}

/// A link whose peer was served, and which has to be handed back. It can't be dropped.
pub(crate) struct Done<L> {
    link: L,
}

/// What came of a wait for a link.
pub(crate) enum Next<L> {
    /// The next link.
    Link(Taken<L>),
    /// The acceptor failed, as where there was no memory for a link.
    Failed,
    /// No more links are to be taken.
    Over,
}

/// An acceptor of which so many links are still to be taken.
#[derive(Drop)]
pub(crate) struct Door<A: Acceptor + Drop> {
    acceptor: A,
    left: u64,
}

impl<L: Link + Drop> Taken<L> {
    /// Serves the peer behind this link, and tells what it answered.
    pub(crate) fn serve<P: ServePeer<L, T>, T: Clock>(
        self,
        alloc: Global,
        peers: &P,
        clock: &mut T,
        served: &mut Served,
    ) -> Done<L>
        requires fresh { IsFresh (L.state self.link) }
        requires room { length served.old < 2 ^ 64 - 1 }
        ensures { Tells L.state (P.stands peers.now) (clock_of T.moment T.asked clock.old)
            (clock_of T.moment T.asked clock.new) served.old served.new }
    {
        let Self { link } = self;
        let (answer, link) = peers.serve_peer(alloc, link, clock);
        served.tell(&answer);
        Done { link }
    }
}

impl<A: Acceptor + Drop> Door<A> {
    /// So many links are to be taken.
    pub(crate) fn new(acceptor: A, count: u64) -> Self
        ensures acceptor { result.acceptor ≡ acceptor }
        ensures left { result.left ≡ count }
    {
        Door {
            acceptor,
            left: count,
        }
    }

    /// Waits for the next link, until so many were waited for.
    pub(crate) fn next(&mut self) -> Next<A::Link>
        ensures fresh { IsFreshNext A.Link.state result }
        ensures over { self.old.left ≡ 0 → (result ≡ Over) × (self.new ≡ self.old) }
        ensures left { 0 < self.old.left → self.old.left ≡ self.new.left + 1 }
        ensures next { 0 < self.old.left → IsNext (A.state self.old.acceptor)
            (A.state self.new.acceptor) result }
    {
        if self.left == 0 {
            return Next::Over;
        }
        self.left -= 1;
        match self.acceptor.accept() {
            Some(link) => Next::Link(Taken { link }),
            None => Next::Failed,
        }
    }

    /// Hands back a link whose peer was served.
    pub(crate) fn hand_back(&mut self, done: Done<A::Link>)
        ensures left { self.new.left ≡ self.old.left }
        ensures handed_back { A.state self.new.acceptor
            ≡ after_hand_back (A.state self.old.acceptor) (A.Link.state done.link) }
    {
        let Done { link } = done;
        self.acceptor.hand_back(link);
    }
}
