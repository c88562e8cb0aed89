//! Links over TCP (RFC 9112, section 9).
ghost use Rattle.std.specs.Prelude.{◌≡◌, ◌<◌, length, IfSome, IsTrue};
ghost use Rattle.std.specs.Io.KnownBytes.{Keeps};
ghost use Rattle.std.specs.Net.Socket.{socket_port};
ghost use Rattle.h1_link.specs.AcceptorState.{AcceptsFresh, new_acceptor};
ghost use Rattle.h1_link.specs.Steps.{FitsRead, FitsWrite, after_read, after_write};
ghost use Rattle.h1_link.specs.Steps.{after_flush, after_shutdown};
ghost use Rattle.h1_link.specs.TcpState.{TcpState, new_tcp_state, contents};
ghost use Rattle.h1_link.specs.TcpState.{ReadsStream, WritesStream, HoldsNothing};

use crate::acceptor::Acceptor;
use crate::closing::{WAIT, close, is_wait};
use crate::dialer::{DialStep, Dialer};
use crate::handed_back::HandedBack;
use crate::link::{FlushStep, Link, ReadStep, WriteStep};
use crate::memory::{Tally, raise};
use std::alloc::Global;
use std::io::{BufWriter, Read, Write};
use std::marker::Model;
use std::net::{Ipv4Addr, Net, OpenListener, OpenStream, SocketAddr, SocketAddrV4};
use std::time::Duration;

/// A link over a TCP stream. It holds up to 8,192 bytes of what it took until a flush, so that the
/// parts of a message that are there together leave in one write. A piece of that length or more
/// goes through at once behind what is held. A drop tries once to send what is held.
///
/// A shutdown sends what is held, closes the way out, reads and drops what the peer still sends
/// until its end, and then closes both ways. It waits at most [`CLOSE_WAITS`](crate::CLOSE_WAITS)
/// times for a flush and as often for the peer's bytes, and drops at most
/// [`CLOSE_BYTES`](crate::CLOSE_BYTES). Contracts see none of the dropped bytes as given.
///
/// Contracts see the bytes that the stream's reads returned and its writes took; that these are the
/// bytes on the wire is trusted.
#[derive(Drop)]
pub struct TcpLink<S: Read + Write + OpenStream + Drop> {
    stream: BufWriter<S>,
    tally: Tally,
}

impl<S: Read + Write + OpenStream + Drop> Model for TcpLink<S> {
    ghost use Rattle.std.specs.Io.Buffered.{writer_buffer, writer_inner};
    ghost use Rattle.h1_link.specs.TcpState.{TcpState};

    ghost Value = { TcpState };

    ghost view = { λ l. record {
      state = l.tally;
      left = S.Read.remaining (writer_inner l.stream);
      sent = S.Write.contents (writer_inner l.stream);
      held = writer_buffer l.stream;
    } };
}

impl<S: Read + Write + OpenStream + Drop> TcpLink<S> {
    /// A link over this stream; `None` where its calls can't be kept from blocking, or writes from
    /// waiting for each other, or where there is no memory for what the link holds.
    pub fn new(alloc: Global, stream: S) -> Option<Self>
        ensures { IfSome result (λ link.
            link ≡ new_tcp_state (S.remaining stream) (S.contents stream)) }
    {
        let wait = Some(Duration::from_millis(WAIT));
        if stream.set_read_timeout(wait).is_err()
            || stream.set_write_timeout(wait).is_err()
            || stream.set_nodelay(true).is_err()
        {
            return None;
        }
        Some(TcpLink {
            stream: BufWriter::new(alloc, stream).ok()?,
            tally: Tally::new(),
        })
    }
}

impl<S: Read + Write + OpenStream + Drop> Link for TcpLink<S> {
    ghost state = { λ link. link.state };

    ghost same_plan = { λ _ _. Unit {0} };

    fn poll_read(&mut self, buf: &mut [u8]) -> ReadStep
        requires { 0 < length buf.old }
        ensures fits { FitsRead buf.new result }
        ensures stream { ReadsStream self.old self.new buf.new result }
        ensures state { self.new.state ≡ after_read self.old.state buf.new result }
    {
        let step = match self.stream.get_mut().read(buf) {
            Ok(0) => ReadStep::End,
            Ok(count) => ReadStep::Got(count),
            Err(error) if is_wait(&error) => ReadStep::NotReady,
            Err(_) => ReadStep::Failed,
        };
        self.tally.count_read(buf, step);
        step
    }

    fn poll_write(&mut self, piece: &[u8]) -> WriteStep
        ensures fits { FitsWrite piece.now result }
        ensures stream { WritesStream self.old self.new piece.now result }
        ensures state { self.new.state ≡ after_write self.old.state piece.now result }
    {
        let step = match self.stream.write(piece) {
            Ok(count) => WriteStep::Took(count),
            Err(error) if is_wait(&error) => WriteStep::NotReady,
            Err(_) => WriteStep::Failed,
        };
        self.tally.count_write(piece, step);
        step
    }

    fn poll_flush(&mut self) -> FlushStep
        ensures stream { Keeps (contents self.old) (contents self.new) }
        ensures held { HoldsNothing self.new result }
        ensures state { self.new.state ≡ after_flush self.old.state result }
    {
        let step = match self.stream.flush() {
            Ok(()) => FlushStep::Done,
            Err(error) if is_wait(&error) => FlushStep::NotReady,
            Err(_) => FlushStep::Failed,
        };
        self.tally.count_flush(step);
        step
    }

    fn shutdown(&mut self)
        ensures stream { Keeps (contents self.old) (contents self.new) }
        ensures state { self.new.state ≡ after_shutdown self.old.state }

        // A link that was shut down sends nothing further.
        ensures again { IsTrue self.old.state.shut
            → self.new ≡ record self.old { state = after_shutdown self.old.state } }
    {
        if !self.tally.is_shut() {
            close(&mut self.stream);
        }
        self.tally.count_shutdown();
    }

    ghost plan_itself = { λ _. tt };

    ghost plan_on = { λ _ _ _ _ _. tt };
}

/// The port on this machine.
fn local(port: u16) -> SocketAddr
    ensures { socket_port result ≡ port }
{
    SocketAddr::V4(SocketAddrV4::new(Ipv4Addr::LOCALHOST, port))
}

/// A dialer of this machine: the key is the port. A key above 65,535 is a failed dial.
#[derive(Drop)]
pub struct TcpDialer<R: Net + Drop> {
    rt: R,
    faults: u64,
}

impl<R: Net + Drop> Model for TcpDialer<R> {
    ghost use Rattle.h1_link.specs.DialerState.{DialerState};

    ghost Value = { DialerState };

    ghost view = { λ d. record { dial_faults = d.faults; dial_waits = 0 } };
}

impl<R: Net + Drop> TcpDialer<R> {
    /// A dialer over this runtime.
    pub fn new(rt: R) -> Self
        ensures { result ≡ record { dial_faults = 0; dial_waits = 0 } }
    {
        TcpDialer { rt, faults: 0 }
    }
}

impl<R: Net + AllocGlobal + Drop> Dialer for TcpDialer<R> {
    type Link = TcpLink<R::Stream>;

    ghost state = { λ dialer. dialer };

    ghost same_plan = { λ _ _. Unit {0} };

    fn poll_dial(&mut self, key: u64) -> DialStep<TcpLink<R::Stream>> {
        let dialed = u16::try_from(key)
            .ok()
            .and_then(|port| self.rt.connect(local(port)).ok())
            .and_then(|stream| TcpLink::new(self.rt.alloc(), stream));
        match dialed {
            Some(link) => DialStep::Connected(link),
            None => {
                self.faults = raise(self.faults);
                DialStep::Failed
            }
        }
    }

    ghost plan_itself = { λ _. tt };

    ghost plan_on = { λ _ _ _ _ _. tt };
}

/// A port that is held, and what listens on it.
#[derive(Drop)]
struct Held<N> {
    port: u16,
    listener: N,
}

/// An acceptor of this machine's peers: it takes hold of its port at 127.0.0.1 alone. A `bind` that
/// fails, as of a port in use, and each `accept` that fails are counted as faults.
#[derive(Drop)]
pub struct TcpAcceptor<R: Net + Drop> {
    rt: R,
    held: Option<Held<R::Listener>>,
    faults: u64,
    accepted: u64,
    handed_back: HandedBack<TcpLink<R::Stream>>,
}

impl<R: Net + Drop> Model for TcpAcceptor<R> {
    ghost use Rattle.std.specs.Prelude.{option_map};
    ghost use Rattle.h1_link.specs.AcceptorState.{AcceptorState};

    ghost Value = { AcceptorState };

    ghost view = { λ a. record {
      port = option_map (λ held. held.port) a.held;
      accept_faults = a.faults;
      accepted = a.accepted;
      handed_back = a.handed_back;
    } };
}

impl<R: Net + Drop> TcpAcceptor<R> {
    /// An acceptor over this runtime, which holds no port yet.
    pub fn new(rt: R) -> Self
        ensures { result ≡ new_acceptor }
    {
        TcpAcceptor {
            rt,
            held: None,
            faults: 0,
            accepted: 0,
            handed_back: HandedBack::new(),
        }
    }
}

impl<R: Net + AllocGlobal + Drop> Acceptor for TcpAcceptor<R> {
    type Link = TcpLink<R::Stream>;

    ghost state = { λ acceptor. acceptor };

    fn bind(&mut self, port: u16) -> bool {
        match self.rt.bind(local(port)) {
            Ok(listener) => {
                self.held = Some(Held { port, listener });
                true
            }
            Err(_) => {
                self.faults = raise(self.faults);
                false
            }
        }
    }

    fn accept(&mut self) -> Option<TcpLink<R::Stream>> {
        match accept_on(self.rt.alloc(), &self.held) {
            Some(link) => {
                self.accepted = raise(self.accepted);
                Some(link)
            }
            None => {
                self.faults = raise(self.faults);
                None
            }
        }
    }

    fn hand_back(&mut self, link: TcpLink<R::Stream>) {
        self.handed_back.take(link);
    }
}

/// The next peer's link, where a port is held.
fn accept_on<N: OpenListener>(alloc: Global, held: &Option<Held<N>>) -> Option<TcpLink<N::Stream>>
where
    N::Stream: Read + Write + OpenStream + Drop,
    ensures fresh { AcceptsFresh (λ link. link.state) result }
{
    let (stream, _peer) = held.as_ref()?.listener.accept().ok()?;
    TcpLink::new(alloc, stream)
}
