//! Threads that serve one connection after another.
ghost use Rattle.std.specs.Prelude.{◌≡◌, ◌≤◌, IfOk, length, vec_len};
ghost use Rattle.std.specs.List.{AllZip};
ghost use Rattle.std.specs.Arc.{arc_value};
ghost use Rattle.h1_app.specs.Filtering.{rules_of};
ghost use Rattle.h1_app.specs.View.{served_by, terms_of};
ghost use Rattle.h1_serving.specs.Peer.{clock_of};
ghost use Rattle.h1_workers.specs.Workers.{AnswersFrom, IsAnsweredBy, IsFreshNext};

use crate::door::{Done, Door, Next};
use crate::peer::{Peers, ServePeer};
use crate::served::Served;
use h1_app::{LawfulFor, ServeHttp};
use h1_link::{Acceptor, Clock};
use std::alloc::{AllocError, Global};
use std::sync::{Mutex, Wait};
use std::thread::{self, Threads};

/// Serves `count` links of one acceptor, or those that come until [`Peers::stop`], in a thread for
/// each clock: a thread takes the next link as soon as it has served one to its end, and hands each
/// back to the acceptor. An accept that fails counts as a link, and the thread goes on. A peer that
/// there is no memory to serve is turned away alone. A thread serves one peer at a time, so that so
/// many peers are served at once as there are clocks. What is told of each thread stands in the
/// order of the clocks. An error is want of memory for the threads; some of them may have served
/// peers by then.
pub fn serve_workers<R, A, SV, B, T>(
    rt: &R,
    alloc: Global,
    peers: &Peers<SV, B>,
    acceptor: A,
    count: u64,
    clocks: Vec<T>,
) -> Result<Vec<Served>, AllocError>
where
    R: Threads + Wait + Sync,
    A: Acceptor + Drop + Send,
    A::Link: Send,
    SV: ServeHttp<A::Link, ()> + Drop + Send + Sync,
    SV::Job: Send,
    B: LawfulFor<A::Link, (), SV> + Drop + Send + Sync,
    B::Module: Send,
    T: Clock + Drop + Send,
    ensures len { IfOk result (λ workers. vec_len workers ≡ vec_len clocks) }
    ensures served { IfOk result (λ workers. AllZip (λ clock served.
        AnswersFrom A.Link.state (IsAnsweredBy
        (rules_of SV.gives B.HttpModuleBuilder B.Module.HttpModule) A.Link.state A.Link.same_plan
        SV.pends (served_by (arc_value peers.now.server).app (arc_value peers.now.server).modules)
        (terms_of (arc_value peers.now.server).server_options
        (SV.takes_whole (arc_value peers.now.server).app))) (clock_of T.moment T.asked clock)
        served) clocks.items workers.items) }
{
    serve_in_threads(rt, alloc, peers, acceptor, count, clocks)
}

/// The same for whatever serves the peers.
fn serve_in_threads<R, A, P, T>(
    rt: &R,
    alloc: Global,
    peers: &P,
    acceptor: A,
    count: u64,
    clocks: Vec<T>,
) -> Result<Vec<Served>, AllocError>
where
    R: Threads + Wait + Sync,
    A: Acceptor + Drop + Send,
    A::Link: Send,
    P: ServePeer<A::Link, T> + Sync,
    T: Clock + Drop + Send,
    ensures len { IfOk result (λ workers. vec_len workers ≡ vec_len clocks) }
    ensures served { IfOk result (λ workers. AllZip (λ clock served.
        AnswersFrom A.Link.state (P.stands peers.now) (clock_of T.moment T.asked clock)
        served) clocks.items workers.items) }
{
    let door = Mutex::new(Door::new(acceptor, count));
    thread::map_vec(
        rt,
        clocks,
        &|clock| { work(rt, alloc, peers, &door, clock, count) },
    )
}

/// Serves one link after another until no more are to be taken, at most so many.
fn work<R, A, P, T>(
    rt: &R,
    alloc: Global,
    peers: &P,
    door: &Mutex<Door<A>>,
    clock: T,
    most: u64,
) -> Served
where
    R: Wait,
    A: Acceptor + Drop,
    P: ServePeer<A::Link, T>,
    T: Clock + Drop,
    ensures few { length result ≤ most }
    ensures served { AnswersFrom A.Link.state (P.stands peers.now)
        (clock_of T.moment T.asked clock) result }
{
    let mut clock = clock;
    let mut served = Served::new();
    for _ in 0..most {
        if peers.is_stopped() {
            break;
        }
        match next_link(rt, door) {
            Next::Link(taken) => {
                let done = taken.serve(alloc, peers, &mut clock, &mut served);
                hand_back(rt, door, done);
            }
            Next::Failed => {}
            Next::Over => break,
        }
    }
    served
}

/// The next link: one thread at a time waits for it.
fn next_link<R: Wait, A: Acceptor + Drop>(rt: &R, door: &Mutex<Door<A>>) -> Next<A::Link>
    ensures fresh { IsFreshNext A.Link.state result }
{
    door.lock(rt).next()
}

/// Hands back a link whose peer was served.
fn hand_back<R: Wait, A: Acceptor + Drop>(rt: &R, door: &Mutex<Door<A>>, done: Done<A::Link>) {
    door.lock(rt).hand_back(done);
}
