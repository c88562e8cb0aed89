//! How often a link in memory was called, by what the calls answered.
ghost use Rattle.std.specs.Prelude.{◌≡◌};
ghost use Rattle.h1_link.specs.Counts.{raised};

/// The counts of a link in memory that its bytes don't tell.
#[derive(Clone, Copy, Drop)]
pub struct Counts {
    pub read_faults: u64,
    pub write_faults: u64,
    pub read_waits: u64,
    pub write_waits: u64,
    pub moves: u64,
    pub others: u64,
}

impl Counts {
    pub const NONE: Counts = Counts {
        read_faults: 0,
        write_faults: 0,
        read_waits: 0,
        write_waits: 0,
        moves: 0,
        others: 0,
    };

    /// A call moved a byte.
    pub fn count_move(&mut self)
        ensures { self.new ≡ record self.old { moves = raised self.old.moves 1 } }
    {
        self.moves = raise(self.moves);
    }

    /// A call moved no byte.
    pub fn count_other(&mut self)
        ensures { self.new ≡ record self.old { others = raised self.old.others 1 } }
    {
        self.others = raise(self.others);
    }

    pub fn count_read_wait(&mut self)
        ensures { self.new ≡ record self.old {
          read_waits = raised self.old.read_waits 1;
          others = raised self.old.others 1;
        } }
    {
        self.read_waits = raise(self.read_waits);
        self.count_other();
    }

    pub fn count_read_fault(&mut self)
        ensures { self.new ≡ record self.old {
          read_faults = raised self.old.read_faults 1;
          others = raised self.old.others 1;
        } }
    {
        self.read_faults = raise(self.read_faults);
        self.count_other();
    }

    pub fn count_write_wait(&mut self)
        ensures { self.new ≡ record self.old {
          write_waits = raised self.old.write_waits 1;
          others = raised self.old.others 1;
        } }
    {
        self.write_waits = raise(self.write_waits);
        self.count_other();
    }

    pub fn count_write_fault(&mut self)
        ensures { self.new ≡ record self.old {
          write_faults = raised self.old.write_faults 1;
          others = raised self.old.others 1;
        } }
    {
        self.write_faults = raise(self.write_faults);
        self.count_other();
    }
}

/// The count after one more, which stops at the last value of a `u64`.
pub fn raise(count: u64) -> u64
    ensures { result ≡ raised count 1 }
{
    raise_by(count, 1)
}

/// The count after that many more, which stops at the last value of a `u64`.
pub fn raise_by(count: u64, by: u64) -> u64
    ensures { result ≡ raised count by }
{
    count.saturating_add(by)
}
