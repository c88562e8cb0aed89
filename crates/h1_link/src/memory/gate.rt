//! How much a link in memory takes.
ghost use Rattle.std.specs.Prelude.{◌≡◌, ◌≤◌, IfSome};
ghost use Rattle.h1_link.specs.Gate.{room_for, gate_after};

/// How much a link in memory takes.
#[derive(Clone, Copy, Debug, PartialEq, Eq, Hash)]
pub enum Gate {
    /// Everything.
    Open,
    /// That many bytes more. Flushes are ready.
    Room(u64),
    /// Nothing, and no flush is ready.
    Blocked,
}

impl Gate {
    /// How many bytes of a piece of that length are taken now; `None` where the write has to wait.
    pub fn room_for(&self, len: usize) -> Option<usize>
        ensures exact { result ≡ room_for self.now len }
        ensures fits { IfSome result (λ n. n ≤ len) }
    {
        match self {
            Gate::Open => Some(len),
            Gate::Room(0) | Gate::Blocked => None,
            Gate::Room(left) => Some(usize::try_from(*left).map_or(len, |left| left.min(len))),
        }
    }

    /// The gate once that many bytes went through it.
    pub fn after(self, count: usize) -> Gate
        ensures { result ≡ gate_after self count }
    {
        match self {
            Gate::Room(left) => Gate::Room(left.saturating_sub(count as u64)),
            Gate::Open | Gate::Blocked => self,
        }
    }
}
