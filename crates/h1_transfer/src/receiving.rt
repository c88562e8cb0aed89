//! One read of the link into the received bytes.
ghost use Rattle.std.specs.Prelude.{◌≡◌, ◌<◌, ◌≤◌, [], length, take};
ghost use Rattle.h1_transfer.specs.Receiving.{FillsBy};
ghost use Rattle.h1_transfer.specs.Calls.{Called, is_got, fault_of_fill};

use bytes::BytesMut;
use h1_link::{Link, ReadStep};

/// How many bytes a read of the link asks for at least. A read of a head asks for so many, and so
/// does the first read of a body.
pub const READ_SIZE: usize = 4096;

/// How many bytes a read of the link asks for at most. A read of a body has the connection hold no
/// larger block of memory than this.
pub const MAX_READ_SIZE: usize = 65_536;

/// What one read of the link came to.
#[derive(Clone, Copy, Debug, PartialEq, Eq)]
pub enum Filled {
    Got,
    End,
    NotReady,
    Failed,
    NoMemory,
}

/// Reads once, after the bytes that are received.
pub fn fill<L: Link>(link: &mut L, received: &mut BytesMut) -> Filled
    ensures fills { FillsBy (L.state link.old)
        (L.state link.new) received.old.items received.new.items result }
    ensures calls { Called (L.state link.old) (L.state link.new) (is_got result)
        (fault_of_fill result) }
    ensures plan { L.same_plan link.old link.new }
{
    fill_up_to(link, received, READ_SIZE)
}

/// Reads once as `fill` does, of a body of which the read before gave so many bytes.
pub(crate) fn fill_on<L: Link>(link: &mut L, received: &mut BytesMut, came: usize) -> Filled
    ensures fills { FillsBy (L.state link.old)
        (L.state link.new) received.old.items received.new.items result }
    ensures calls { Called (L.state link.old) (L.state link.new) (is_got result)
        (fault_of_fill result) }
    ensures plan { L.same_plan link.old link.new }
{
    let size = size_behind(came);
    if READ_SIZE < size {
        let_go_of_short(received, size);
    }
    fill_up_to(link, received, size)
}

/// Lets go of a block without bytes that lacks this room, since it is too small or a piece of it is
/// held. To grow it in place would keep the room of the bytes that were used beside the new.
fn let_go_of_short(received: &mut BytesMut, size: usize)
    ensures { received.new.items ≡ received.old.items }
{
    if received.is_empty() && !received.try_reclaim(size) {
        *received = BytesMut::new(*received.allocator());
    }
}

/// How many bytes a read of a body asks for behind one that gave so many: twice as many, between
/// the two bounds. So few calls read a body that comes fast, and a body that comes in small pieces
/// takes no large blocks.
fn size_behind(came: usize) -> usize
    ensures least { READ_SIZE ≤ result }
    ensures most { result ≤ MAX_READ_SIZE }
{
    came.saturating_mul(2).clamp(READ_SIZE, MAX_READ_SIZE)
}

/// Reads once, after the bytes that are received, at most so many. The room is made before the
/// read, so that no byte that the link gave is lost.
#[inline(always)]
fn fill_up_to<L: Link>(link: &mut L, received: &mut BytesMut, size: usize) -> Filled
    requires { 0 < size }
    ensures fills { FillsBy (L.state link.old)
        (L.state link.new) received.old.items received.new.items result }
    ensures calls { Called (L.state link.old) (L.state link.new) (is_got result)
        (fault_of_fill result) }
    ensures plan { L.same_plan link.old link.new }
{
    if received.reserve(size).is_err() {
        return Filled::NoMemory;
    }
    let len = received.len();
    received.advance_mut(size);
    let (filled, count) = read(link, &mut received.as_mut_slice()[len..]);
    received.truncate(len + count);
    filled
}

/// Reads once into this room, and says how many bytes came.
#[inline(always)]
fn read<L: Link>(link: &mut L, room: &mut [u8]) -> (Filled, usize)
    requires { 0 < length room.old }
    ensures fits { result.1 ≤ length room.new }
    ensures fills { FillsBy (L.state link.old)
        (L.state link.new) [] (take result.1 room.new) result.0 }
    ensures calls { Called (L.state link.old) (L.state link.new) (is_got result.0)
        (fault_of_fill result.0) }
    ensures plan { L.same_plan link.old link.new }
{
    match link.poll_read(room) {
        ReadStep::Got(count) => (Filled::Got, count),
        ReadStep::End => (Filled::End, 0),
        ReadStep::NotReady => (Filled::NotReady, 0),
        ReadStep::Failed => (Filled::Failed, 0),
        ReadStep::NoMemory => (Filled::NoMemory, 0),
    }
}
