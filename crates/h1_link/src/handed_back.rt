//! Links that were handed back, which contracts see and no memory holds.
ghost use Rattle.std.specs.Prelude.{◌≡◌, ◌++◌, ◌∷◌, []};

use crate::link::Link;
use http_server::Log;
use std::marker::Model;

/// All links that were handed back, in order. It takes no memory. Contracts see their states.
#[derive(Drop)]
pub struct HandedBack<L: Link + Drop> {
    links: Log<L, ()>,
}

impl<L: Link + Drop> Model for HandedBack<L> {
    ghost use Rattle.std.specs.Prelude.{List, map};
    ghost use Rattle.h1_link.specs.LinkState.{LinkState};

    ghost Value = { List LinkState };

    ghost view = { λ h. map (λ p. L.state p.0) h.links.items };
}

impl<L: Link + Drop> HandedBack<L> {
    /// No link was handed back yet.
    pub fn new() -> Self
        ensures { result ≡ [] }
    {
        HandedBack { links: Log::new() }
    }

    /// This link was handed back, and is dropped.
    pub fn take(&mut self, link: L)
        ensures { self.new ≡ self.old ++ L.state link ∷ [] }
    {
        self.links = self.links.and(&link, &());
    }
}
