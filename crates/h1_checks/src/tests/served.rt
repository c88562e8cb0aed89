//! A connection that is played: the calls of it that the tests make, each in a function of its own.
use crate::tests::acts::Acts;
use crate::tests::links::TestLink;
use h1_app::{Connection, End, Error, History, HttpServer, HttpServerOptions, Progress, ServeHttp};
use std::marker::Model;
use std::process::Abort;
use std::sync::Arc;

/// Who replies.
#[derive(Clone, Copy)]
pub enum App {
    /// `EchoApp`.
    Echo,
    /// An application that waits so often by itself and then refuses.
    Refuses(u64),
}

/// What serves a connection.
#[derive(Clone, Copy)]
pub struct Server<'a> {
    pub app: App,
    /// How many requests more than one it may serve.
    pub limit: Option<u32>,
    pub history: History,
    /// How many bytes of a body are gathered at most.
    pub gather_limit: Option<u64>,
    /// A server that has modules has no more set.
    pub modules: &'a [Acts],
    /// Whether its link takes one byte a write, and the first flush of it isn't ready.
    pub trickles: bool,
}

/// `EchoApp` with nothing set.
pub const ECHO: Server<'static> = Server {
    app: App::Echo,
    limit: None,
    history: History::Kept,
    gather_limit: None,
    modules: &[],
    trickles: false,
};

/// A connection of an application over a link. Contracts see nothing of it. It is not let go, but
/// hands its link back: so no proof here is of all that a connection holds.
pub struct Served<SV: ServeHttp<TestLink, ()> + Drop> {
    connection: Connection<TestLink, SV, Acts, ()>,
}

impl<SV: ServeHttp<TestLink, ()> + Drop> Model for Served<SV> {
    ghost Value = { Unit {0} };

    ghost view = { λ _. tt };
}

/// A connection of this application whose peer has sent nothing yet.
pub fn connect<SV: ServeHttp<TestLink, ()> + Drop>(
    rt: &(impl Abort + AllocGlobal),
    app: SV,
    set: Server,
) -> Served<SV> {
    let server = server_of(rt, app, set);
    let server = Arc::new(rt.alloc(), server).expect(rt, "memory for a server");
    let link = TestLink::new(rt.alloc(), set.trickles);
    let connection = Connection::new(rt.alloc(), server, link).expect(
        rt,
        "memory for a connection",
    );
    Served { connection }
}

fn server_of<SV: Drop>(
    rt: &(impl Abort + AllocGlobal),
    app: SV,
    set: Server,
) -> HttpServer<SV, Acts> {
    let mut server = HttpServer::new_app(rt.alloc(), app);
    if set.modules.is_empty() {
        server.server_options = Some(HttpServerOptions {
            keepalive_request_limit: set.limit,
            history: set.history,
            gather_limit: set.gather_limit,
            ..HttpServerOptions::default()
        });
    }
    for module in set.modules {
        server.add_module(*module).expect(rt, "memory for a module");
    }
    server
}

/// The link of a connection goes with it.
pub fn close<SV: ServeHttp<TestLink, ()> + Drop>(served: Served<SV>) {
    let Served { connection } = served;
    let _ = connection.into_link();
}

/// What the connection answers, and why it ended then.
pub fn polled<SV: ServeHttp<TestLink, ()> + Drop>(
    served: &mut Served<SV>,
    now: u8,
    shutdown: bool,
) -> (Progress, Option<End>) {
    let answer = served.connection.poll(now as u64, shutdown);
    (answer, served.connection.end())
}

/// The peer of the connection sends these bytes.
pub fn give<SV: ServeHttp<TestLink, ()> + Drop>(
    rt: &impl Abort,
    served: &mut Served<SV>,
    bytes: &[u8],
) {
    served
        .connection
        .with_link(|it| it.link.give(bytes))
        .expect(rt, "memory for the peer's bytes");
}

/// The peer of the connection sends no more.
pub fn end<SV: ServeHttp<TestLink, ()> + Drop>(served: &mut Served<SV>) {
    served.connection.with_link(|it| it.link.end());
}

/// The peer of the connection takes so many bytes more.
pub fn make_room<SV: ServeHttp<TestLink, ()> + Drop>(served: &mut Served<SV>, count: u64) {
    served.connection.with_link(|it| it.link.room(count));
}

/// The next read of the connection's link fails.
pub fn fail_next_read<SV: ServeHttp<TestLink, ()> + Drop>(served: &mut Served<SV>) {
    served.connection.with_link(|it| it.link.fail_next_read());
}

/// The next write of the connection's link fails.
pub fn fail_next_write<SV: ServeHttp<TestLink, ()> + Drop>(served: &mut Served<SV>) {
    served.connection.with_link(|it| it.link.fail_next_write());
}

/// Whether the link of the connection was shut.
pub fn is_shut<SV: ServeHttp<TestLink, ()> + Drop>(served: &Served<SV>) -> bool {
    served.connection.link().link.is_shut()
}

/// The bytes that the peer of the connection was sent.
pub fn written<SV: ServeHttp<TestLink, ()> + Drop>(served: &Served<SV>) -> &[u8] {
    served.connection.link().link.written()
}

/// How many of them were flushed.
pub fn flushed<SV: ServeHttp<TestLink, ()> + Drop>(served: &Served<SV>) -> u64 {
    served.connection.link().link.flushed()
}

/// How many requests were read.
pub fn exchanges<SV: ServeHttp<TestLink, ()> + Drop>(served: &Served<SV>) -> usize {
    served.connection.transcript().len()
}

/// How many bytes of the reply of this exchange were written, and how many of its body were read.
pub fn counts<SV: ServeHttp<TestLink, ()> + Drop>(served: &Served<SV>, i: usize) -> (u64, u64) {
    match served.connection.transcript().get(i) {
        Some(entry) => (entry.written(), entry.body_len()),
        None => (0, 0),
    }
}

/// Why the body of the request of this exchange couldn't be read on.
pub fn body_error<SV: ServeHttp<TestLink, ()> + Drop>(
    served: &Served<SV>,
    i: usize,
) -> Option<Error> {
    match served.connection.transcript().get(i) {
        Some(entry) => entry.body_error(),
        None => None,
    }
}
