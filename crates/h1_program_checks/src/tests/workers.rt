//! Threads that serve links in memory.
use h1_app::{History, HttpServer, HttpServerOptions, NoModules};
use h1_echo::EchoApp;
use h1_link::{MemAcceptor, MemLink, SetClock};
use h1_workers::{Peers, Served, serve_workers};
use std::process::Abort;
use std::sync::{Arc, Wait};
use std::thread::Threads;

#[test]
fn three_threads_serve_five_links(rt: HostRuntime) {
    let workers = serve_five(&rt, &echoing(&rt));
    assert_eq!(rt; workers.len(), 3);
    assert_eq!(rt; connections(&workers), 5);
}

#[test]
fn threads_that_are_stopped_take_no_link(rt: HostRuntime) {
    let peers = echoing(&rt);
    peers.stop();
    let workers = serve_five(&rt, &peers);
    assert_eq!(rt; connections(&workers), 0);
}

/// What three threads tell that five peers were planned for.
fn serve_five(
    rt: &(impl Threads + Wait + Abort + AllocGlobal + Sync),
    peers: &Peers<EchoApp, NoModules>,
) -> Vec<Served> {
    let (acceptor, clocks) = (five_links(rt), three_clocks(rt));
    serve_workers(rt, rt.alloc(), peers, acceptor, 5, clocks).expect(rt, "memory")
}

fn connections(workers: &[Served]) -> u64 {
    let mut all = 0u64;
    for served in workers {
        all = all.saturating_add(served.connections());
    }
    all
}

/// An acceptor of five peers that ask once.
fn five_links(rt: &(impl Abort + AllocGlobal)) -> MemAcceptor {
    let mut acceptor = MemAcceptor::new(rt.alloc());
    for _ in 0..5 {
        plan_request(rt, &mut acceptor);
    }
    acceptor
}

/// Plans a peer that asks once.
fn plan_request(rt: &(impl Abort + AllocGlobal), acceptor: &mut MemAcceptor) {
    let mut link = MemLink::new(rt.alloc());
    link.give(b"GET / HTTP/1.1\r\n\r\n").expect(rt, "memory");
    link.end();
    acceptor.plan(link).expect(rt, "memory");
}

fn three_clocks(rt: &(impl Abort + AllocGlobal)) -> Vec<SetClock> {
    let mut clocks = Vec::new(rt.alloc());
    for _ in 0..3 {
        clocks.push(SetClock::new(0)).expect(rt, "memory");
    }
    clocks
}

fn echoing(rt: &(impl Abort + AllocGlobal)) -> Peers<EchoApp, NoModules> {
    let mut server = HttpServer::new_app(rt.alloc(), EchoApp);
    server.server_options = Some(HttpServerOptions {
        history: History::Forgotten,
        ..HttpServerOptions::default()
    });
    Peers::new(Arc::new(rt.alloc(), server).expect(rt, "memory"))
}
