//! `listen` over TCP, with plain clients.
use super::listening::{CLOSED, KEPT};
use super::status_of;
use h1_link::{Acceptor, MemSink, MemSource, SystemClock, TcpAcceptor, TcpLink};
use std::io::{Read, Write};
use std::marker::Model;
use std::net::{Ipv4Addr, Net, SocketAddr, SocketAddrV4};
use std::process::Abort;
use std::sync::Wait;
use std::thread::{self, Threads};
use std::time;

/// The ports that are tried, and their words.
const PORTS: [(u16, &str); 8] = [
    (18_080, "18080"),
    (18_081, "18081"),
    (18_082, "18082"),
    (18_083, "18083"),
    (18_084, "18084"),
    (18_085, "18085"),
    (18_086, "18086"),
    (18_087, "18087"),
];

/// An acceptor over TCP that held this port before it is asked for it, so that another run of these
/// tests can't hold it.
#[derive(Drop)]
pub(crate) struct Ready<R: Net + Drop> {
    net: TcpAcceptor<R>,
    port: u16,
    asked: Option<u16>,
}

impl<R: Net + AllocGlobal + Drop> Acceptor for Ready<R> {
    type Link = TcpLink<R::Stream>;

    ghost state = { λ ready. record ready.net { port = ready.asked } };

    fn bind(&mut self, port: u16) -> bool {
        let is_bound = port == self.port || self.net.bind(port);
        if is_bound {
            self.asked = Some(port);
        }
        is_bound
    }

    fn accept(&mut self) -> Option<TcpLink<R::Stream>> {
        self.net.accept()
    }

    fn hand_back(&mut self, link: TcpLink<R::Stream>) {
        self.net.hand_back(link);
    }
}

/// An acceptor that holds the first of the ports that was free, and the word of that port.
pub(crate) fn ready_net<R: Net + AllocGlobal + Abort + Clone + Drop>(
    rt: &R,
) -> (Ready<R>, &'static str) {
    for (port, word) in PORTS {
        let mut net = TcpAcceptor::new(rt.clone().expect(rt, "a runtime"));
        if net.bind(port) {
            let asked = None;
            return (Ready { net, port, asked }, word);
        }
    }
    panic!(rt; "no free port")
}

/// What a program ended with and wrote.
#[derive(Drop)]
pub(crate) struct Ran {
    pub(crate) status: u8,
    pub(crate) sink: MemSink,
}

impl Model for Ran {
    ghost Value = { Unit {0} };

    ghost view = { λ _. tt };
}

/// Serves so many peers at this port, over this acceptor and the runtime's clock.
pub(crate) fn listened<R>(rt: &R, word: &str, count: &str, net: Ready<R>) -> Ran
where
    R: Wait + Threads + Net + Abort + AllocGlobal + time::Clock + Sync + Send + Clone + Drop,
{
    let mut source = MemSource::new(rt.alloc(), b"").expect(rt, "memory");
    let mut sink = MemSink::new(rt.alloc());
    let mut net = net;
    let mut clock = SystemClock::new(rt.clone().expect(rt, "a runtime"));
    let words = ["listen", word, count];
    let status = status_of(rt, &words, &mut source, &mut sink, &mut net, &mut clock);
    Ran { status, sink }
}

/// A request, and the reply of 106 bytes to it.
#[derive(Clone, Copy)]
struct Exchange {
    request: &'static [u8],
    /// What stands before the value of Date.
    front: &'static [u8],
    /// What stands behind it.
    behind: &'static [u8],
    /// The connection is closed behind the reply.
    closes: bool,
}

/// Whether a plain client that sends the request reads all of the reply, and then the end where the
/// connection is closed.
fn is_replied<R: Net>(rt: &R, port: u16, exchange: &Exchange) -> bool {
    let address = SocketAddr::V4(SocketAddrV4::new(Ipv4Addr::LOCALHOST, port));
    let Ok(mut stream) = rt.connect(address) else {
        return false;
    };
    let mut reply = [0u8; 106];
    if stream.write_all(exchange.request).is_err() || stream.read_exact(&mut reply).is_err() {
        return false;
    }
    let is_over = !exchange.closes || matches!(stream.read(&mut [0u8; 1]), Ok(0));
    is_over && reply.starts_with(exchange.front) && reply.ends_with(exchange.behind)
}

/// Whether two clients, one after the other, are replied to so.
fn are_replied<R: Net>(rt: &R, port: u16, exchange: &Exchange) -> bool {
    is_replied(rt, port, exchange) && is_replied(rt, port, exchange)
}

/// Serves two peers, which are clients that are replied to so, and writes these lines.
fn serves_two<R>(rt: &R, exchange: &Exchange, lines: &[u8])
where
    R: Wait + Threads + Net + Abort + AllocGlobal + time::Clock + Sync + Send + Clone + Drop,
    R::Stream: Send,
    R::Listener: Send,
{
    let (net, word) = ready_net(rt);
    let port = net.port;
    let (ran, replied) = thread::join(
        rt,
        || listened(rt, word, "2", net),
        || are_replied(rt, port, exchange),
    );
    assert!(rt; replied);
    assert_eq!(rt; ran.status, 0);
    assert_eq!(rt; ran.sink.written(), lines);
}

#[test]
fn listen_two(rt: HostRuntime) {
    let exchange = Exchange {
        request: KEPT,
        front: b"HTTP/1.1 200 OK\r\ncontent-length: 7\r\nDate: ",
        behind: b" GMT\r\nConnection: keep-alive\r\n\r\nGET /a\n",
        closes: false,
    };
    let lines = b"connection 0: finished\nconnection 1: finished\n";
    serves_two(&rt, &exchange, lines);
}

#[test]
fn a_client_that_asks_for_it_is_closed(rt: HostRuntime) {
    let exchange = Exchange {
        request: CLOSED,
        front: b"HTTP/1.1 200 OK\r\ncontent-length: 11\r\nDate: ",
        behind: b" GMT\r\nConnection: close\r\n\r\nPOST /p\nabc",
        closes: true,
    };
    let lines = b"connection 0: not kept\nconnection 1: not kept\n";
    serves_two(&rt, &exchange, lines);
}
