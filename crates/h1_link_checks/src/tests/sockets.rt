//! Links over TCP between two ends on this machine.
use super::beside::connected;
use super::{Tried, flushes, gives, gives_none, shut_down, takes};
use h1_link::{Acceptor, Dialer, FlushStep, ReadStep, TcpAcceptor, TcpDialer, TcpLink};
use std::marker::Model;
use std::net::Net;
use std::process::Abort;

/// The first port that is tried, and the first that isn't.
const PORTS: (u16, u16) = (47_800, 47_900);

/// Both ends of a link over TCP, and what accepted the far one. Contracts see nothing of them.
#[derive(Drop)]
struct BothEnds<R: Net + Drop> {
    near: Tried<TcpLink<R::Stream>>,
    far: Tried<TcpLink<R::Stream>>,
    acceptor: TcpAcceptor<R>,
}

impl<R: Net + Drop> Model for BothEnds<R> {
    ghost Value = { Unit {0} };

    ghost view = { λ _. tt };
}

/// The first port that was free, which the acceptor then holds. Another run of these tests may hold
/// some.
fn bound(acceptor: &mut impl Acceptor) -> Option<u16> {
    for port in PORTS.0..PORTS.1 {
        if acceptor.bind(port) {
            return Some(port);
        }
    }
    None
}

/// Two ends of a link over a port of this machine.
fn ends<R: Net + AllocGlobal + Abort + Clone + Drop>(rt: &R) -> BothEnds<R> {
    let mut acceptor = TcpAcceptor::new(rt.clone().expect(rt, "a runtime"));
    let mut dialer = TcpDialer::new(rt.clone().expect(rt, "a runtime"));
    assert!(rt; acceptor.accept().is_none());
    let port = bound(&mut acceptor).expect(rt, "no free port");
    assert!(rt; connected(dialer.poll_dial(65_536)).is_none());
    let near = connected(dialer.poll_dial(u64::from(port))).expect(rt, "no dialed link");
    let far = acceptor.accept().expect(rt, "no accepted link");
    BothEnds {
        near: Tried { link: near },
        far: Tried { link: far },
        acceptor,
    }
}

/// The far end takes these bytes, is shut down and handed back; the near one is left.
fn answered<R: Net + AllocGlobal + Abort + Drop>(
    rt: &R,
    ends: BothEnds<R>,
    bytes: &[u8],
) -> Tried<TcpLink<R::Stream>> {
    let BothEnds {
        near,
        mut far,
        mut acceptor,
    } = ends;
    takes(rt, &mut far, bytes);
    shut_down(&mut far);
    acceptor.hand_back(far.link);
    near
}

#[test]
fn links_over_tcp_carry_bytes(rt: HostRuntime) {
    let mut ends = ends(&rt);
    let (near, far) = (&mut ends.near, &mut ends.far);
    gives_none(&rt, far, ReadStep::NotReady);
    takes(&rt, near, b"GET");
    gives_none(&rt, far, ReadStep::NotReady);
    takes(&rt, near, b" /");
    flushes(&rt, near, FlushStep::Done);
    gives(&rt, far, 8, b"GET /");
    takes(&rt, near, b"a");
    shut_down(near);
    gives(&rt, far, 8, b"a");
    gives_none(&rt, far, ReadStep::End);
}

#[test]
fn a_peer_whose_bytes_are_not_read_reads_the_reply_to_its_end(rt: HostRuntime) {
    let mut ends = ends(&rt);
    takes(&rt, &mut ends.near, &[b'a'; 5_000]);
    flushes(&rt, &mut ends.near, FlushStep::Done);
    let mut near = answered(&rt, ends, b"HTTP/1.1");
    gives(&rt, &mut near, 16, b"HTTP/1.1");
    gives_none(&rt, &mut near, ReadStep::End);
}
