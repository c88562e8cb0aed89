//! Sending the bytes that are owed.
ghost use Rattle.std.specs.Prelude.{◌≡◌, ◌<◌};
ghost use Rattle.h1_transfer.specs.Moved.{Sent};
ghost use Rattle.h1_transfer.specs.Writing.{SendCause, sent_after};
ghost use Rattle.h1_transfer.specs.Calls.{Called, is_all, fault_of_send};

use crate::Owed;
use h1_link::{Link, WriteStep};

/// What sending came to.
#[derive(Clone, Copy, Debug, PartialEq, Eq)]
pub enum Sending {
    /// Nothing is owed any more.
    All,
    NotReady,
    /// No further link call may move bytes.
    Spent,
    Failed,
    NoMemory,
}

/// Writes what is owed, from its front, until all of it is written or the link takes no more. Counts
/// the bytes that were written in `sent`.
#[inline(always)]
pub fn send<L: Link>(link: &mut L, owed: &mut Owed, sent: &mut u64, budget: &mut u32) -> Sending
    ensures sent { Sent (L.state link.old)
        (L.state link.new) owed.old owed.new budget.old budget.new }
    ensures cause { SendCause (L.state link.old) (L.state link.new) owed.new budget.new result }
    ensures counted { sent.new ≡ sent_after sent.old owed.old owed.new }
    ensures calls { Called (L.state link.old) (L.state link.new) (is_all result)
        (fault_of_send result) }
    ensures plan { L.same_plan link.old link.new }
{
    let _counted = *sent;
    'sends: while !owed.is_empty() {
        if *budget == 0 {
            return Sending::Spent;
        }
        match link.poll_write(owed.front()) {
            WriteStep::Took(count) => {
                if count == 0 {
                    return Sending::Failed;
                }
                owed.advance(count);
                *sent = sent.saturating_add(count as u64);
                *budget -= 1;
            }
            WriteStep::NotReady => return Sending::NotReady,
            WriteStep::Failed => return Sending::Failed,
            WriteStep::NoMemory => return Sending::NoMemory,
        }
    }
    Sending::All
}
