//! What the two ends of a ring share, and how they are made.
ghost use Rattle.std.specs.Prelude.{◌≡◌, ◌<◌, ◌+◌, ◌-◌, ◌^◌, [], None, IfOk, min};

use crate::close_word::CloseWord;
use crate::item_queue::ItemQueue;
use crate::put_end::PutEnd;
use crate::room::Room;
use crate::take_end::TakeEnd;
use crate::{close_word, item_queue};
use std::alloc::{AllocError, Global};
use std::sync::{Arc, Wait};

/// A count of items stands still at this number.
pub const MAX_COUNT: u64 = u64::MAX - 1;

/// The queue of a ring, and the close words of its sender and of its receiver.
#[derive(Drop)]
pub struct Shared<T, R: Room> {
    pub(super) queue: ItemQueue<T, R>,
    pub(super) closed: CloseWord,
    pub(super) gone: CloseWord,
}

/// The ends of a new ring, with all the memory that their calls use.
pub fn open<T: Drop, R: Room, W: Wait + Clone + Drop>(
    rt: &W,
    alloc: Global,
) -> Result<(PutEnd<T, R, W>, TakeEnd<T, R, W>), AllocError>
    ensures { IfOk result (λ e. (e.0.ring ≡ e.1.ring) × (e.0.put ≡ []) × (e.1.taken ≡ [])
        × (e.0.closed ≡ None) × (e.1.closed ≡ None)) }
{
    let (queue, tx, rx) = item_queue::open::<T, R>(alloc)?;
    let (closed, tx_own, rx_other) = close_word::open(alloc)?;
    let (gone, rx_own, tx_other) = close_word::open(alloc)?;
    let shared = Arc::new(
        alloc,
        Shared {
            queue,
            closed,
            gone,
        },
    )?;
    let other = Arc::try_clone(&shared)?;
    let sender = PutEnd {
        shared,
        pass: tx,
        own: tx_own,
        other: tx_other,
        count: 0,
        rt: rt.clone()?,
    };
    let receiver = TakeEnd {
        shared: other,
        pass: rx,
        own: rx_own,
        other: rx_other,
        count: 0,
        rt: rt.clone()?,
    };
    Ok((sender, receiver))
}

/// A count, one higher.
pub fn count_up(count: u64) -> u64
    requires { count < 2 ^ 64 - 1 }
    ensures { result ≡ min (count + 1) (2 ^ 64 - 2) }
{
    if count < MAX_COUNT {
        count + 1
    } else {
        MAX_COUNT
    }
}
