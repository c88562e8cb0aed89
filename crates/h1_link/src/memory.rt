//! The outside in memory: what a test or a script puts ahead and reads back, and the tally that a link
//! of one's own keeps.
mod ahead;
mod counts;
mod dummy_io;
mod gate;
mod inlet;
mod mem_acceptor;
mod mem_dialer;
mod mem_link;
mod mem_sink;
mod mem_source;
mod outlet;
mod set_clock;
mod tally;

pub use counts::raise;
pub use dummy_io::DummyIO;
pub use gate::Gate;
pub use mem_acceptor::MemAcceptor;
pub use mem_dialer::MemDialer;
pub use mem_link::MemLink;
pub use mem_sink::MemSink;
pub use mem_source::MemSource;
pub use set_clock::SetClock;
pub use tally::Tally;
