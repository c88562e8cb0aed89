//! A peer that is served over its link, from the first byte to the link's end.
ghost use Rattle.std.specs.Arc.{arc_value};
ghost use Rattle.h1_app.specs.Filtering.{rules_of};
ghost use Rattle.h1_app.specs.View.{served_by, terms_of};
ghost use Rattle.h1_serving.specs.Peer.{Closed, IsServedBy, clock_of};

use crate::serving::serve_link;
use h1_app::{Connection, HttpServer, LawfulFor, ServeHttp};
use h1_error::Progress;
use h1_link::{Clock, Link};
use std::alloc::Global;
use std::sync::Arc;

/// Serves the peer behind a link until an end, or for as long as one call of [`serve_link`] does.
/// The answer of that call and the link, which was flushed and shut down, are handed back.
pub fn serve_peer<L, SV, B, T>(
    alloc: Global,
    server: Arc<HttpServer<SV, B>>,
    link: L,
    clock: &mut T,
) -> (Progress, L)
where
    L: Link + Drop,
    SV: ServeHttp<L, ()> + Drop,
    B: LawfulFor<L, (), SV> + Drop,
    T: Clock,
    ensures { IsServedBy (rules_of SV.gives B.HttpModuleBuilder B.Module.HttpModule) L.state
        L.same_plan SV.pends (served_by (arc_value server).app (arc_value server).modules)
        (terms_of (arc_value server).server_options (SV.takes_whole (arc_value server).app))
        (clock_of T.moment T.asked clock.old) (clock_of T.moment T.asked clock.new) link result.1
        result.0 }
{
    let mut connection: Connection<L, SV, B, ()> = Connection::new(alloc, server, link).unwrap();
    let answer = serve_link(&mut connection, clock);
    let mut served = connection.into_link();
    close_link(&mut served);
    (answer, served)
}

/// Flushes a link whose connection is over and shuts it down. A connection may end without a flush,
/// as behind a reply that is shorter than stated; what comes of this one changes no answer.
pub fn close_link<L: Link>(link: &mut L)
    ensures closed { Closed (L.state link.old) (L.state link.new) }
    ensures plan { L.same_plan link.old link.new }
{
    let _ = link.poll_flush();
    link.shutdown();
}
