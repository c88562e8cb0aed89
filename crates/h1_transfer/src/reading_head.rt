//! Reading a head off the link (RFC 9112, section 2.2).
ghost use Rattle.std.specs.Prelude.{◌≡◌, ◌≢◌};
ghost use Rattle.h1_cut.specs.Search.{HasLooked};
ghost use Rattle.h1_head.specs.declared.limits.TheConstants.{MAX_HEADER_SIZE};
ghost use Rattle.h1_transfer.specs.Heads.{ReceivesHead, HeadCause, went_with, judged_head, is_whole_head, fault_of_head};
ghost use Rattle.h1_transfer.specs.declared.reading_head.HeadRead.TheVariants.{Stopped};
ghost use Rattle.h1_transfer.specs.declared.reading_head.HeadStop.TheVariants.{Late};
ghost use Rattle.h1_transfer.specs.Calls.{Called};
ghost use Rattle.h1_transfer.specs.Deadline.{is_over, since_behind};

use crate::head::{Head, HeadFound};
use crate::receiving::{Filled, fill};
use crate::{Deadline, Went};
use bytes::BytesMut;
use h1_cut::HeadSearch;
use h1_error::HeadFault;
use h1_head::Room;
use h1_link::Link;
use std::alloc::Global;

/// Why the reading of a head goes no further.
#[derive(Clone, Copy, Debug, PartialEq, Eq)]
pub enum HeadStop {
    Refused(HeadFault),
    /// The link ended, and no byte was received.
    Closed,
    /// The link ended inside a head.
    Cut,
    NotReady,
    /// The link was not ready, and the limit of the wait is reached.
    Late,
    /// No further link call may move bytes.
    Spent,
    Failed,
    NoMemory,
}

/// What reading a head came to.
#[derive(Clone, Copy, Debug, PartialEq, Eq)]
pub enum HeadRead {
    /// A head, which takes so many of the received bytes.
    Whole(usize),
    Stopped(HeadStop),
}

/// Reads until a head is whole, is refused or can't go on, and puts a whole one in its place. What
/// is received already is judged before the first read. Where no head is whole, what stands in the
/// place has no meaning.
#[inline(always)]
pub fn read_head<H: Head, L: Link>(
    alloc: Global,
    link: &mut L,
    received: &mut BytesMut,
    search: &mut HeadSearch,
    room: &mut Room,
    budget: &mut u32,
    found: &mut H,
) -> HeadRead
    requires looked { HasLooked MAX_HEADER_SIZE search.old received.old.items }
    ensures receives { ReceivesHead H.lacks (L.state link.old)
        (L.state link.new) received.old.items received.new.items budget.old budget.new }
    ensures unjudged { result ≢ Stopped Late }
    ensures cause { HeadCause H.is_at H.refuses H.lacks (L.state link.old)
        (L.state link.new) received.new.items budget.new found.new result }
    ensures looked { HasLooked MAX_HEADER_SIZE search.new received.new.items }
    ensures calls { Called (L.state link.old) (L.state link.new) (is_whole_head result)
        (fault_of_head result) }
    ensures plan { L.same_plan link.old link.new }
{
    'reads: loop {
        match H::search(alloc, search, received.as_slice(), room, found) {
            Ok(HeadFound::Whole(used)) => return HeadRead::Whole(used),
            Ok(HeadFound::Refused(fault)) => return HeadRead::Stopped(HeadStop::Refused(fault)),
            Ok(HeadFound::NotYet) => {}
            Err(_) => return HeadRead::Stopped(HeadStop::NoMemory),
        }
        if *budget == 0 {
            return HeadRead::Stopped(HeadStop::Spent);
        }
        match fill(link, received) {
            Filled::Got => *budget -= 1,
            Filled::End if received.is_empty() => return HeadRead::Stopped(HeadStop::Closed),
            Filled::End => return HeadRead::Stopped(HeadStop::Cut),
            Filled::NotReady => return HeadRead::Stopped(HeadStop::NotReady),
            Filled::Failed => return HeadRead::Stopped(HeadStop::Failed),
            Filled::NoMemory => return HeadRead::Stopped(HeadStop::NoMemory),
        }
    }
}

/// Judges a read of a head that moved bytes, or didn't, and notes since when it waits.
pub(crate) fn judge_head(
    read: HeadRead,
    moved: bool,
    deadline: Deadline,
    since: &mut Option<u64>,
) -> HeadRead
    ensures noted { since.new ≡ since_behind (went_with read) (record {
      deadline = deadline;
      moved = moved;
      since = since.old;
    }) }
    ensures judged { result ≡ judged_head
        (is_over (record { deadline = deadline; moved = moved; since = since.old })) read }
{
    if deadline.judge(went_with(read), moved, since) {
        return HeadRead::Stopped(HeadStop::Late);
    }
    read
}

/// How a read of a head went that came to this.
fn went_with(read: HeadRead) -> Went
    ensures { result ≡ went_with read }
{
    match read {
        HeadRead::Whole(_) => Went::Done,
        HeadRead::Stopped(HeadStop::NotReady) => Went::Waited,
        HeadRead::Stopped(_) => Went::Stopped,
    }
}
