//! Limits of time: how long an operation may wait for its link without moving bytes. All times are
//! milliseconds.
ghost use Rattle.std.specs.Prelude.{◌≡◌, ◌&&◌};
ghost use Rattle.h1_transfer.specs.Deadline.{is_late, is_over, is_reached, is_waiting, since_behind, wait_with};

/// The moment of a call, and how long its operation may wait for its link without moving bytes;
/// None is without a limit.
#[derive(Clone, Copy, Debug, PartialEq, Eq)]
pub struct Deadline {
    pub moment: u64,
    pub limit: Option<u64>,
}

/// How a call of an operation went.
#[derive(Clone, Copy, Debug, PartialEq, Eq)]
pub enum Went {
    /// It did what was asked.
    Done,
    /// The link was not ready.
    Waited,
    /// It stopped for another reason: an error, or its budget was spent.
    Stopped,
}

impl Deadline {
    /// Notes since when the operation waits behind a call that moved bytes, or didn't, and says
    /// whether it waits and the limit is reached.
    #[inline(always)]
    pub fn judge(self, went: Went, moved: bool, since: &mut Option<u64>) -> bool
        ensures noted { since.new ≡ since_behind went (wait_with self moved since.old) }
        ensures judged { result
            ≡ (is_waiting went && is_over (wait_with self moved since.old)) }
    {
        match went {
            Went::Done => {
                *since = None;
                false
            }
            went => self.judge_stop(went, moved, since),
        }
    }

    // The same of a call that stopped before it did what was asked, which few do.
    #[cold]
    fn judge_stop(self, went: Went, moved: bool, since: &mut Option<u64>) -> bool
        ensures noted { since.new ≡ since_behind went (wait_with self moved since.old) }
        ensures judged { result
            ≡ (is_waiting went && is_over (wait_with self moved since.old)) }
    {
        if moved {
            *since = None;
        }
        match went {
            Went::Done => {
                *since = None;
                false
            }
            Went::Waited => {
                let start = since.unwrap_or(self.moment);
                *since = Some(start);
                self.is_late(start)
            }
            Went::Stopped => false,
        }
    }

    /// Whether the limit of a wait that began at this moment is reached.
    fn is_late(self, start: u64) -> bool
        ensures { result ≡ is_late self start }
    {
        match self.limit {
            Some(limit) => is_reached(start, limit, self.moment),
            None => false,
        }
    }
}

/// Whether so many milliseconds have passed since a moment.
fn is_reached(start: u64, limit: u64, moment: u64) -> bool
    ensures { result ≡ is_reached start limit moment }
{
    start <= moment && limit <= moment - start
}
