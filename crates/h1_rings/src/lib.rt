//! Task rings: queues of at most four parts of a message, each from one sender to one receiver, which
//! may stand in two threads.
//!
//! An end is closed by a word beside the queue, which the other end reads. The ends take and answer
//! `HttpTask`; contracts see of each all that was put or taken, and the two lists meet in `settle`.
#![tactic(auto)]

mod close_word;
mod four_items;
mod item_queue;
mod list_rx;
mod list_tx;
mod one_value;
mod put_end;
mod ring_rule;
mod room;
mod settling;
mod shared;
mod take_end;
mod task_ends;
mod task_ring;

pub use list_rx::ListRx;
pub use list_tx::ListTx;
pub use one_value::{OnceRx, OnceTx, once};
pub use put_end::{Put, PutEnd};
pub use room::{Four, One, Room};
pub use settling::settle;
pub use take_end::{Take, TakeEnd};
pub use task_ends::{PutStep, TakeStep, TaskRx, TaskTx};
pub use task_ring::{RingRx, RingTx, ring};
