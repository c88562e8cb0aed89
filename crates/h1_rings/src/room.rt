//! How many items a ring holds at most.
ghost use Rattle.std.specs.Prelude.{◌≡◌, ◌<◌, ℕ};

/// A number of items, told by a type. A type parameter stands for it where a constant one would have
/// each caller show how much memory the items take.
pub trait Room {
    ghost most: { ℕ };

    /// The number.
    fn most() -> usize
        ensures { (result ≡ most) × (0 < result) };
}

/// Room for four items, as a ring of tasks has it.
pub struct Four;

impl Room for Four {
    ghost most = { 4 };

    fn most() -> usize {
        4
    }
}

/// Room for one item, as the ring of a value that is sent once has it.
pub struct One;

impl Room for One {
    ghost most = { 1 };

    fn most() -> usize {
        1
    }
}
