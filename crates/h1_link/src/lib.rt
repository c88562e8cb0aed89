//! The outside of an HTTP/1 connection: links, sources, sinks, clocks and acceptors, in memory and
//! over the system.
//!
//! Each is a trait whose clauses say which bytes a call moved and which counts it raised. An answer
//! that tells of a fault comes only where a count of faults rose.
#![tactic(auto)]

mod acceptor;
mod asked;
mod clock;
mod closing;
mod dialer;
mod handed_back;
mod laws;
mod link;
mod memory;
mod sink;
mod source;
mod standard;
mod stream_laws;
mod system_clock;
mod tap;
mod tcp;

pub use acceptor::Acceptor;
pub use clock::Clock;
pub use closing::{CLOSE_BYTES, CLOSE_PIECE, CLOSE_WAITS};
pub use dialer::{DialStep, Dialer};
pub use laws::{calls_add_up, calls_only_add, later_states_go_on};
pub use link::{FlushStep, Link, ReadStep, WriteStep};
pub use memory::{
    DummyIO, Gate, MemAcceptor, MemDialer, MemLink, MemSink, MemSource, SetClock, Tally,
};
pub use sink::{Sink, SinkStep};
pub use source::{Source, SourceStep};
pub use standard::{StdSink, StdSource};
pub use stream_laws::{counts_add_up, streams_only_add};
pub use system_clock::SystemClock;
pub use tap::Tap;
pub use tcp::{TcpAcceptor, TcpDialer, TcpLink};
