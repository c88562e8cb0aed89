//! Moving the bytes of one message each way over a link, within a budget of link calls: what a
//! server's session and a client's session have in common.
#![tactic(auto)]

mod answering;
mod body;
mod budget;
mod deadline;
mod delivering;
mod head;
mod kept;
mod memory;
mod outgoing;
mod owed;
mod reading_body;
mod reading_head;
mod receiving;
mod sending;
mod since;
mod taking;
mod transfer;
mod writing_body;

pub use answering::refuse;
pub use body::BodyState;
pub use budget::{CALL_BUDGET, allowance_of, budget_left};
pub use deadline::{Deadline, Went};
pub use delivering::{Delivery, deliver, deliver_piece, with_count};
pub use head::{Head, HeadFound};
pub use kept::Kept;
pub use memory::Memory;
pub use outgoing::{Outgoing, Step};
pub use owed::Owed;
pub use reading_body::{BodyRead, BodyStop, drain_body, read_body};
pub use reading_head::{HeadRead, HeadStop, read_head};
pub use receiving::{Filled, MAX_READ_SIZE, READ_SIZE, fill};
pub use sending::{Sending, send};
pub use since::{DrainLimits, Since};
pub use taking::{TakeStep, take};
pub use transfer::Transfer;
pub use writing_body::{EndTaken, take_end, take_piece};
