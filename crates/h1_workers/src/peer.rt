//! One connection, over a link that is handed in.
ghost use Rattle.std.specs.Prelude.{◌≡◌};
ghost use Rattle.std.specs.Arc.{arc_value};
ghost use Rattle.h1_app.specs.Filtering.{rules_of};
ghost use Rattle.h1_app.specs.View.{served_by, terms_of};
ghost use Rattle.h1_serving.specs.Peer.{clock_of};
ghost use Rattle.h1_workers.specs.Workers.{Stands, IsAnsweredBy};

use h1_app::{HttpModuleBuilder, HttpServer, LawfulFor, ServeHttp};
use h1_error::{Error, Progress};
use h1_link::{Clock, Link};
use h1_serving::{close_link, serve_peer};
use std::alloc::Global;
use std::sync::Arc;
use std::sync::atomic::{AtomicBool, Ordering};

/// What serves the peers behind links of this kind. Threads may share it: unlike an application it
/// has no type of its own, as a job is.
pub trait ServePeer<L: Link + Drop, T: Clock> {
    /// What an answer stands for, between two states of the clock and of the link.
    ghost stands: { Self → Stands L };

    /// Serves the peer behind this link until an end, or for as long as one call does, and hands
    /// the link back, which was flushed and shut down. An error is want of memory, which ends this
    /// connection alone.
    fn serve_peer(&self, alloc: Global, link: L, clock: &mut T) -> (Result<Progress, Error>, L)
        ensures answer { stands self.now (clock_of T.moment T.asked clock.old)
            (clock_of T.moment T.asked clock.new) link result.1 result.0 };

    /// Whether no more links are to be taken.
    fn is_stopped(&self) -> bool;
}

/// A server whose connections may be served in any thread.
#[derive(Drop)]
pub struct Peers<SV: Drop, B: HttpModuleBuilder + Drop> {
    server: Arc<HttpServer<SV, B>>,
    stopped: AtomicBool,
}

impl<SV: Drop, B: HttpModuleBuilder + Drop> Peers<SV, B> {
    /// Peers of this server, with the options that it has. No exchange can be read from a connection
    /// once it was served, so its caller sets
    /// [`History::Forgotten`](h1_app::History::Forgotten), with which none is kept.
    pub fn new(server: Arc<HttpServer<SV, B>>) -> Self
        ensures { result.server ≡ server }
    {
        Peers {
            server,
            stopped: AtomicBool::new(false),
        }
    }

    /// Lets no thread take another link. A thread that waits for one takes it still, and each
    /// connection goes on to its end. Any thread may call this. No clause says so, since what threads
    /// share has no value that a contract sees.
    pub fn stop(&self) {
        self.stopped.store(true, Ordering::SeqCst);
    }
}

impl<L, SV, B, T> ServePeer<L, T> for Peers<SV, B>
where
    L: Link + Drop,
    SV: ServeHttp<L, ()> + Drop,
    B: LawfulFor<L, (), SV> + Drop,
    T: Clock,
{
    ghost stands = { λ peers. IsAnsweredBy
        (rules_of SV.gives B.HttpModuleBuilder B.Module.HttpModule) L.state L.same_plan SV.pends
        (served_by (arc_value peers.server).app (arc_value peers.server).modules)
        (terms_of (arc_value peers.server).server_options
        (SV.takes_whole (arc_value peers.server).app)) };

    fn serve_peer(&self, alloc: Global, link: L, clock: &mut T) -> (Result<Progress, Error>, L) {
        serve_one(alloc, &self.server, link, clock)
    }

    fn is_stopped(&self) -> bool {
        self.stopped.load(Ordering::SeqCst)
    }
}

/// Serves the peer behind this link.
fn serve_one<L, SV, B, T>(
    alloc: Global,
    server: &Arc<HttpServer<SV, B>>,
    link: L,
    clock: &mut T,
) -> (Result<Progress, Error>, L)
where
    L: Link + Drop,
    SV: ServeHttp<L, ()> + Drop,
    B: LawfulFor<L, (), SV> + Drop,
    T: Clock,
    ensures answer { IsAnsweredBy (rules_of SV.gives B.HttpModuleBuilder B.Module.HttpModule)
        L.state L.same_plan SV.pends
        (served_by (arc_value server.now).app (arc_value server.now).modules)
        (terms_of (arc_value server.now).server_options
        (SV.takes_whole (arc_value server.now).app)) (clock_of T.moment T.asked clock.old)
        (clock_of T.moment T.asked clock.new) link result.1 result.0 }
{
    match Arc::try_clone(server) {
        Ok(server) => {
            let (answer, link) = serve_peer(alloc, server, link, clock);
            (Ok(answer), link)
        }
        Err(error) => {
            let mut link = link;
            close_link(&mut link);
            (Err(Error::from(error)), link)
        }
    }
}
