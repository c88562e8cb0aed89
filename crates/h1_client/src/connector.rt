//! The pool of idle links that threads share, and the links that are dialled beside it.
ghost use Rattle.std.specs.Prelude.{◌≡◌, IfErr, IfOk, IfSome, IsOkUnless, Some, true};
ghost use Rattle.h1_error.specs.Memory.{no_memory};

use crate::pool::Pool;
use crate::{IdleLink, Peer, v1};
use futures::task::Poll;
use h1_error::{ConnectFault, Error, ErrorType};
use h1_link::{DialStep, Dialer, Link};
use std::alloc::Global;
use std::sync::atomic::{AtomicU64, Ordering};
use std::sync::{Arc, Mutex, Wait};

/// Hands out sessions over links that served before, or are dialled. Threads may share it. No
/// clause tells what is under its lock, or what it counted of unexpected bytes, since what threads
/// share has no value that a contract sees; those of the calls of `Pool`, which it makes under the
/// lock, do. Moments and timeouts are milliseconds.
#[derive(Drop)]
pub struct Connector<L: Link + Drop> {
    alloc: Global,
    pool: Mutex<Pool<L>>,
    unexpected: Arc<AtomicU64>,
}

impl<L: Link + Drop> Connector<L> {
    ghost use Rattle.h1_client.specs.Getting.{GetAnswer, IsFoundFresh, IsLookedAt, IsReused, is_kept};

    /// A connector with no link.
    pub fn new(alloc: Global) -> Result<Self, Error>
        ensures { IsOkUnless result no_memory }
    {
        Ok(Connector {
            alloc,
            pool: Mutex::new(Pool::new(alloc)),
            unexpected: Arc::new(alloc, AtomicU64::new(0))?,
        })
    }

    /// A session with a peer: over a link that served before, with true, else over one that is
    /// dialled. The lock is released before the dial. It waits, and is made again, while the dialer
    /// waits; the one refusal is that of a dial (`ConnectError`).
    pub fn poll_get_http_session<R: Wait, D: Dialer<Link = L>>(
        &self,
        rt: &R,
        dialer: &mut D,
        peer: &Peer,
        now: u64,
    ) -> Poll<Result<(v1::HttpSession<L>, bool), Error>>
        ensures answer { GetAnswer L.state D.state peer.now dialer.old dialer.new result }
        ensures looked { IsLookedAt L.state now result }
        ensures plan { D.same_plan dialer.old dialer.new }
    {
        if let Some(session) = self.reused_http_session(rt, peer, now) {
            return Poll::Ready(Ok((session, true)));
        }
        match dialer.poll_dial(peer.key) {
            DialStep::Connected(link) => {
                let session = v1::HttpSession::new_with_options(self.alloc, link, peer);
                Poll::Ready(Ok((session, false)))
            }
            DialStep::NotReady => Poll::Pending,
            DialStep::Failed => {
                Poll::Ready(Err(Error::from(ErrorType::ConnectError(ConnectFault::DialFailed))))
            }
            DialStep::NoMemory => Poll::Ready(Err(Error::from(ErrorType::NoMemory))),
        }
    }

    /// A session with a peer over the latest release of its idle links that can still be used, as
    /// `Pool::pick_idle` finds it. Takes no memory.
    pub fn reused_http_session<R: Wait>(
        &self,
        rt: &R,
        peer: &Peer,
        now: u64,
    ) -> Option<v1::HttpSession<L>>
        ensures reused { IfSome result (IsReused L.state peer.now) }
        ensures looked { IfSome result (IsFoundFresh L.state now) }
    {
        let pick = self.pool.lock(rt).pick_idle(peer.key, now);
        self.unexpected.fetch_add(pick.unasked, Ordering::SeqCst);
        Some(pick.idle?.into_session(self.alloc, peer))
    }

    /// Keeps the link of a session for the next request to the peer, exactly where both sides keep
    /// it alive and the exchange is whole, and says whether it did; any other link is shut. The
    /// session is one that was made with this peer, as the connector's are. The link may stand idle
    /// for so many milliseconds; with None it may until its peer closes it, or for as long as the
    /// peer said. Where there is no memory it is dropped.
    pub fn release_http_session<R: Wait>(
        &self,
        rt: &R,
        session: v1::HttpSession<L>,
        peer: &Peer,
        idle_timeout: Option<u64>,
        now: u64,
    ) -> Result<bool, Error>
        requires { session.settings.key ≡ Some peer.now.key }
        ensures ok { IfOk result (λ pooled. pooled ≡ is_kept session) }
        ensures err { IfErr result (λ error. (error ≡ no_memory) × (is_kept session ≡ true)) }
    {
        let mut released = session;
        released.respect_keepalive();
        let Some(idle) = IdleLink::from_session(released, idle_timeout, now) else {
            return Ok(false);
        };
        self.pool.lock(rt).put_idle(peer.key, idle)?;
        Ok(true)
    }

    /// How many idle links had a byte that no request asked for. It has no clause: contracts see
    /// nothing of what atomic numbers hold.
    pub fn unexpected_data_connection_count(&self) -> u64 {
        self.unexpected.load(Ordering::SeqCst)
    }

    /// The counter of those links, which more than one owner may read. It has no clause either.
    pub fn unexpected_data_connection_counter(&self) -> &Arc<AtomicU64> {
        &self.unexpected
    }
}
