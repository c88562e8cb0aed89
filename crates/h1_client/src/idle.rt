//! A link that stands idle between two exchanges (RFC 9112, section 9.3).
ghost use Rattle.std.specs.Prelude.{◌≡◌, is_some, IfSome};
ghost use Rattle.h1_client.specs.Idle.{deadline_of, earlier, is_past, moment_behind, stated_idle};
ghost use Rattle.h1_client.specs.Picking.{fresh_of, unasked};

use crate::response_place::ResponsePlace;
use crate::{Keepalive, Peer, Settings, v1};
use h1_link::{Link, ReadStep};
use std::alloc::Global;
use std::marker::Model;

/// A link that took and gave whole exchanges and nothing else.
#[derive(Drop)]
pub struct IdleLink<L: Link + Drop> {
    link: L,
    /// The key of the peer that it leads to, where its session was made with one.
    key: Option<u64>,
    deadline: Option<u64>,
    /// What the session before left for the next one.
    place: ResponsePlace,
}

impl<L: Link + Drop> Model for IdleLink<L> {
    ghost use Rattle.h1_client.specs.Idle.{IdleView};
    ghost use Rattle.h1_client.specs.Served.{IsServed};

    ghost Value = { IdleView L };

    ghost view = { λ s. record { link = s.link; key = s.key; deadline = s.deadline } };

    ghost invariant = { λ s. IsServed (L.state s.link) };
}

/// What a look at an idle link finds, with the link.
#[derive(Drop)]
pub enum Probe<L: Link + Drop> {
    /// No byte is there, and the link goes on.
    Fresh(IdleLink<L>),
    /// Its deadline is reached.
    Past(L),
    /// A byte came that no request asked for.
    Byte(L),
    /// The peer sends no further byte.
    Ended(L),
    /// The link failed.
    Failed(L),
    /// The link had no memory.
    NoMemory(L),
}

impl<L: Link + Drop> IdleLink<L> {
    ghost use Rattle.h1_client.specs.ClientView.{IsNewSession};
    ghost use Rattle.h1_client.specs.Settings.{idle_settings};
    ghost use Rattle.h1_client.specs.Probing.{Probes, link_of};
    ghost use Rattle.h1_client.specs.Reusing.{is_reusable};
    ghost use Rattle.h1_client.specs.Served.{IsServed};

    /// The link of a session, exactly where `reuse` gives it; any other link is shut. It may stand
    /// idle for so many milliseconds, and no longer than the peer said.
    #[inline(always)]
    pub fn from_session(
        session: v1::HttpSession<L>,
        idle_timeout: Option<u64>,
        now: u64,
    ) -> Option<Self>
        ensures gives { is_some result ≡ is_reusable session }
        ensures idle { IfSome result (λ idle. idle ≡ record {
          link = session.transfer.link;
          key = session.settings.key;
          deadline = deadline_of now idle_timeout session.keepalive;
        }) }
    {
        let key = session.settings().key;
        let deadline = deadline_of(now, idle_timeout, session.keepalive());
        let kept = session.is_reusable();
        let mut session = session;
        if kept {
            session.leave();
        }
        let (mut link, place) = session.into_parts();
        if !kept {
            link.shutdown();
            return None;
        }
        Some(IdleLink {
            link,
            key,
            deadline,
            place,
        })
    }

    /// A new session over the link, with what this peer tolerates. Its key stays that of the link.
    /// Takes no memory.
    #[inline(always)]
    pub fn into_session(self, alloc: Global, peer: &Peer) -> v1::HttpSession<L>
        ensures new { IsNewSession self.link (idle_settings self.key self.deadline peer.now)
            result }
        ensures served { IsServed (L.state result.transfer.link) }
    {
        let mut settings = Settings::with_peer(peer);
        settings.key = self.key;
        settings.until = self.deadline;
        v1::HttpSession::with_place(alloc, self.link, settings, self.place)
    }

    /// Looks whether the link can still be used: one byte is read, and none is to be there. Where
    /// the deadline is reached the link isn't called. Takes no memory.
    pub fn probe(self, now: u64) -> Probe<L>
        ensures probes { Probes L.state self result (is_past self.deadline now) }
        ensures plan { L.same_plan self.link (link_of result) }
    {
        let mut link = self.link;
        if is_past(self.deadline, now) {
            return Probe::Past(link);
        }
        let mut byte = [0; 1];
        match link.poll_read(&mut byte) {
            ReadStep::Got(_) => Probe::Byte(link),
            ReadStep::End => Probe::Ended(link),
            ReadStep::NotReady => Probe::Fresh(IdleLink {
                link,
                key: self.key,
                deadline: self.deadline,
                place: self.place,
            }),
            ReadStep::Failed => Probe::Failed(link),
            ReadStep::NoMemory => Probe::NoMemory(link),
        }
    }
}

impl<L: Link + Drop> Probe<L> {
    /// How many bytes are there that no request asked for.
    pub(crate) fn unasked(&self) -> u64
        ensures { result ≡ unasked self.now }
    {
        match self {
            Probe::Byte(_) => 1,
            Probe::Fresh(_) => 0,
            Probe::Past(_) => 0,
            Probe::Ended(_) => 0,
            Probe::Failed(_) => 0,
            Probe::NoMemory(_) => 0,
        }
    }

    /// The link, where it can still be used.
    pub(crate) fn fresh(self) -> Option<IdleLink<L>>
        ensures { result ≡ fresh_of self }
    {
        match self {
            Probe::Fresh(idle) => Some(idle),
            Probe::Past(_) => None,
            Probe::Byte(_) => None,
            Probe::Ended(_) => None,
            Probe::Failed(_) => None,
            Probe::NoMemory(_) => None,
        }
    }
}

/// Whether the deadline is reached.
fn is_past(deadline: Option<u64>, now: u64) -> bool
    ensures { result ≡ is_past deadline now }
{
    match deadline {
        Some(deadline) => deadline <= now,
        None => false,
    }
}

/// The moment from which a link isn't handed out any more: the earlier of what its owner lets it
/// and what its peer said.
fn deadline_of(now: u64, idle_timeout: Option<u64>, keepalive: Keepalive) -> Option<u64>
    ensures { result ≡ deadline_of now idle_timeout keepalive }
{
    earlier(
        moment_behind(now, idle_timeout),
        moment_behind(now, stated_idle(keepalive)),
    )
}

/// The moment so many milliseconds from now, and no later than the last one.
fn moment_behind(now: u64, timeout: Option<u64>) -> Option<u64>
    ensures { result ≡ moment_behind now timeout }
{
    match timeout {
        Some(timeout) => Some(now.saturating_add(timeout)),
        None => None,
    }
}

/// How many milliseconds the peer lets the link stand idle, where it said so.
fn stated_idle(keepalive: Keepalive) -> Option<u64>
    ensures { result ≡ stated_idle keepalive }
{
    match keepalive {
        Keepalive::On(Some(seconds)) => Some(seconds.saturating_mul(1000)),
        Keepalive::On(None) => None,
        Keepalive::Off => None,
    }
}

/// The earlier of two moments.
fn earlier(moment: Option<u64>, other: Option<u64>) -> Option<u64>
    ensures { result ≡ earlier moment other }
{
    match moment {
        None => other,
        Some(moment) => match other {
            None => Some(moment),
            Some(other) => Some(moment.min(other)),
        },
    }
}
