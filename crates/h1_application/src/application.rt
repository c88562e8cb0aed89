//! What an application is to a connection.
ghost use Rattle.std.specs.Prelude.{◌≡◌, ℕ, ◌<◌, ◌≤◌, List, [], Bool, Option, None, true, IfOk, IfErr, IsSome, false};
ghost use Rattle.h1_error.specs.declared.moment.TheConstants.{YEAR_10000};
ghost use Rattle.h1_error.specs.Memory.{no_memory};
ghost use Rattle.h1_server.specs.declared.settings.Settings.{Settings};
ghost use Rattle.h1_head.specs.Views.{RequestView};
ghost use Rattle.h1_transcript.specs.Given.{Given};
ghost use Rattle.h1_application.specs.Application.{ReadsOnly, ReadsInTime, IfPending, GivesReply, HoldsPayload, given_by, PendsBy, IsAskedFor, payload_of};
ghost use Rattle.h1_transcript.specs.Lawful.{LawfulReplies};
ghost use Rattle.h1_transcript.specs.declared.reply.Reply.{Reply};

use futures::task::Poll;
use h1_error::Error;
use h1_link::Link;
use h1_server::HttpSession;
use h1_transcript::Reply;
use std::alloc::Global;

/// An application: it is started for each request, reads the body and replies.
///
/// One that uses each piece of a body as it comes reads with `poll_read_body_bytes`, and nothing of
/// the body stays in memory. One that `gathers` has all payload that it read so far in
/// `held_payload`, up to the limit that is set for it.
///
/// Its relation `gives` says which reply it gives to what it was given. It only reads the body, and
/// after a call nothing is left unread where a read was pending (`reads`). It reads at the moment that
/// it is handed (`timed`). Pipelining is off until it
/// turns it on, by `set_pipelining_enabled` of the session.
pub trait ServeHttp<L: Link + Drop, C: Drop> {
    /// What the application keeps of one request between polls.
    type Job: Drop;

    /// The replies to what a request gave it.
    ghost gives: { Self → Given → Reply → Type 0 };

    /// What a job looks like as it starts.
    ghost begins: { Self.Job → Type 0 };

    /// Every reply that the relation gives is lawful.
    ghost lawful: { (app : Self) → LawfulReplies (gives app) };

    /// How often a job was not ready by itself: it rises by one with each such answer, stands still
    /// at 2^64 - 1, and never falls.
    ghost pends: { Self.Job → ℕ };

    /// How a job stands for the request with this head: with what was set as it started, what is
    /// set now, the payload that it was handed, and the limit that a read reached which timed out.
    ghost runs: { Self → Self.Job → RequestView → Settings → Settings → List ℕ → Option ℕ
        → Type 0 };

    /// Whether it uses the whole of a body, and not its pieces alone.
    ghost takes_whole: { Self → Bool };

    /// Whether all payload that it reads is held for it.
    fn gathers(&self) -> bool
        ensures { result ≡ takes_whole self.now };

    /// Starts a job. Its only error is being out of memory.
    fn start(&self, alloc: Global) -> Result<Self::Job, Error>
        ensures begins { IfOk result begins }
        ensures runs { IfOk result (λ job. (head : RequestView) (began : Settings)
            → runs self.now job head began began [] None) }
        ensures memory { IfErr result (λ error. error ≡ no_memory) };

    /// Goes on with a job. Its only error is being out of memory.
    fn poll_response(
        &self,
        job: &mut Self::Job,
        http: &mut HttpSession<L, C>,
        now: u64,
    ) -> Poll<Result<Reply, Error>>
        requires request { IsSome http.old.request }
        requires kept { IsSome http.old.body.kept }
        requires holds { takes_whole self.now ≡ true → HoldsPayload http.old }
        requires budget { IsSome http.old.budget }
        // The session's note of a pending read is clear.
        requires waits { http.old.body.waits ≡ false }
        requires moment { now < YEAR_10000 }
        ensures reads { ReadsOnly L.state http.old http.new }
        ensures plan { L.same_plan http.old.link http.new.link }
        ensures timed { ReadsInTime L.state now http.old http.new }
        ensures runs { (head : RequestView) (began : Settings) → IsAskedFor head http.old
            → runs self.now job.old head began http.old.settings (payload_of http.old)
            http.old.read_limit
            → IfPending result
            (runs self.now job.new head began http.new.settings (payload_of http.new)
            http.new.read_limit) }
        ensures gives { (head : RequestView) (began : Settings) → IsAskedFor head http.old
            → runs self.now job.old head began http.old.settings (payload_of http.old)
            http.old.read_limit
            → GivesReply (gives self.now) (given_by head began http.new)
            (λ error. error ≡ no_memory) result }
        ensures never_falls { pends job.old ≤ pends job.new }
        ensures pends { PendsBy result (pends job.old) (pends job.new) http.new.body.waits };
}
