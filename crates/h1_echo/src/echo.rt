//! An application that replies with what it was asked.
ghost use Rattle.std.specs.Prelude.{◌≡◌, ◌<◌, ◌^◌, [], length, ⊤, IsSome, IfSome, IfOk, IfErr, Some, None, true};
ghost use Rattle.h1_error.specs.Memory.{no_memory};
ghost use Rattle.h1_application.specs.Application.{HoldsPayload, ReadsInTime, ReadsOnly, payload_of};
ghost use Rattle.h1_echo.specs.Echo.{EchoGives, echo_body, echo_fields, echo_reply, refused_reply, echo_settings};
ghost use Rattle.h1_echo.specs.EchoRun.{EchoRuns, KeepsLimit, StopCause, IsLonger, IsStopOf};
ghost use Rattle.h1_server.specs.Limit.{shown};

use futures::task::Poll;
use h1_application::ServeHttp;
use h1_body::BodyBytes;
use h1_error::{Error, ErrorType};
use h1_head::{RequestHeader, ResponseHeader, Room};
use h1_link::Link;
use h1_server::HttpSession;
use h1_transcript::Reply;
use std::alloc::Global;

/// How long the write of the body of a reply to `/slow` may wait, in milliseconds.
const SLOW_WRITE: u64 = 1_000;

/// Replies with the method, the target and the body of the request. Some targets make it state the
/// body's length in another way, turn pipelining off, or limit the time of its write.
#[derive(Clone, Copy, Debug, PartialEq, Eq)]
pub struct EchoApp;

/// The echo of one request. What is read of the request's body is kept with the session, and not
/// here.
#[derive(Debug, Drop)]
pub struct EchoJob {
    alloc: Global,
}

impl<L: Link + Drop, C: Drop> ServeHttp<L, C> for EchoApp {
    type Job = EchoJob;

    ghost use Rattle.h1_echo.specs.EchoLaw.{echo_lawful};

    ghost gives = { λ _. EchoGives };

    ghost begins = { λ _. ⊤ };

    ghost lawful = { λ _. echo_lawful };

    ghost pends = { λ _. 0 };

    ghost runs = { λ _ _ head began now _ limit. EchoRuns head began now limit };

    ghost takes_whole = { λ _. true };

    fn gathers(&self) -> bool {
        true
    }

    fn start(&self, alloc: Global) -> Result<EchoJob, Error> {
        Ok(EchoJob { alloc })
    }

    #[tactic(auto, using(crate::proofs::EchoLemmas::reads_with_settings, crate::proofs::EchoLemmas::timed_with_settings))]
    fn poll_response(
        &self,
        job: &mut EchoJob,
        http: &mut HttpSession<L, C>,
        now: u64,
    ) -> Poll<Result<Reply, Error>> {
        set_up(http);
        match read_body(http, now) {
            Stopped::Waits => Poll::Pending,
            Stopped::Failed(error) => Poll::Ready(Err(error)),
            Stopped::Refused => Poll::Ready(refusal(job.alloc)),
            Stopped::Whole => Poll::Ready(reply_in_room(job.alloc, http)),
        }
    }
}

/// Why the reading of a body stopped.
#[derive(Clone, Copy, Debug, PartialEq, Eq)]
pub(crate) enum Stopped {
    Whole,
    /// The body can't be read on.
    Refused,
    /// The link has no byte ready.
    Waits,
    /// There is no memory.
    Failed(Error),
}

/// Lets bytes after the request begin the next one, unless the target says otherwise, and limits the
/// time of the reply's write for one target.
fn set_up<L: Link + Drop, C: Drop>(http: &mut HttpSession<L, C>)
    requires { IsSome http.old.request }
    ensures settings { IfSome http.old.request
        (λ request. http.new.settings ≡ echo_settings request.header http.old.settings) }
    ensures rest { http.new ≡ record http.old { settings = http.new.settings } }
{
    let target = http.req_header().raw_path();
    let enabled = target != b"/nopipe".as_slice();
    let slow = target == b"/slow".as_slice();
    http.set_pipelining_enabled(enabled);
    if slow {
        http.set_write_timeout(Some(SLOW_WRITE));
    }
}

/// Reads on until the body ends or can't be read on.
#[inline(always)]
fn read_body<L: Link + Drop, C: Drop>(http: &mut HttpSession<L, C>, now: u64) -> Stopped
    requires request { IsSome http.old.request }
    requires kept { IsSome http.old.body.kept }
    requires budget { IsSome http.old.budget }
    ensures reads { ReadsOnly L.state http.old http.new }
    ensures timed { ReadsInTime L.state now http.old http.new }
    ensures limit { KeepsLimit (shown http.old.settings.times.read) http.old.read_limit
        http.new.read_limit (Some result) }
    ensures plan { L.same_plan http.old.link http.new.link }
    ensures settings { http.new.settings ≡ http.old.settings }
    ensures cause { StopCause L.state http.old http.new (Some result) }
{
    'reads: loop {
        match read_piece(http, now) {
            Some(stopped) => return stopped,
            None => {}
        }
    }
}

/// Reads once. None says that there may be more.
#[inline(always)]
fn read_piece<L: Link + Drop, C: Drop>(http: &mut HttpSession<L, C>, now: u64) -> Option<Stopped>
    requires request { IsSome http.old.request }
    requires kept { IsSome http.old.body.kept }
    requires budget { IsSome http.old.budget }
    ensures reads { ReadsOnly L.state http.old http.new }
    ensures timed { ReadsInTime L.state now http.old http.new }
    ensures limit { KeepsLimit (shown http.old.settings.times.read) http.old.read_limit
        http.new.read_limit result }
    ensures plan { L.same_plan http.old.link http.new.link }
    ensures settings { http.new.settings ≡ http.old.settings }
    ensures longer { IsLonger (payload_of http.old) (payload_of http.new) result }
    ensures cause { StopCause L.state http.old http.new result }
{
    // A body at its end isn't asked for more.
    if http.is_body_read() && http.body_error().is_none() {
        return Some(Stopped::Whole);
    }
    match http.poll_read_body_bytes(now) {
        Poll::Pending => Some(Stopped::Waits),
        Poll::Ready(Ok(None)) => Some(Stopped::Whole),
        Poll::Ready(Err(error)) => Some(stop_of(error)),
        Poll::Ready(Ok(Some(_))) => {
            // The payload is bounded by its limit.
            let _len = http.payload_len();
            None
        }
    }
}

/// Whether an error of a read is being out of memory, or the body's.
fn stop_of(error: Error) -> Stopped
    ensures { IsStopOf error.kind result }
{
    match error.kind {
        ErrorType::NoMemory => Stopped::Failed(Error::from(ErrorType::NoMemory)),
        _ => Stopped::Refused,
    }
}

/// The reply to a request that was read to its end, with its body in the session's room.
#[inline(always)]
fn reply_in_room<L: Link + Drop, C: Drop>(
    alloc: Global,
    http: &mut HttpSession<L, C>,
) -> Result<Reply, Error>
    requires request { IsSome http.old.request }
    requires holds { HoldsPayload http.old }
    ensures ok { IfOk result (λ reply. IfSome http.old.request
        (λ request. reply ≡ echo_reply request.header (payload_of http.old) None)) }
    ensures small { IfOk result (λ reply. length reply.body < 2 ^ 63) }
    ensures err { IfErr result (λ error. error ≡ no_memory) }
    ensures same { http.new ≡ http.old }
{
    let mut room = http.take_room();
    let body = match http.held_payload() {
        Some(payload) => body_of(alloc, &mut room, http.req_header(), payload),
        None => unreachable!(),
    };
    http.put_room(room);
    let body = body?;
    let mut header = ResponseHeader::build(alloc, 200, Some(1))?;
    state_length(&mut header, http.req_header().raw_path(), body.len() as u64)?;
    Ok(Reply { header, body })
}

/// The body of the reply: the method, the target and the request's body.
#[inline(always)]
fn body_of(
    alloc: Global,
    room: &mut Room,
    header: &RequestHeader,
    handed: &[u8],
) -> Result<BodyBytes, Error>
    requires { room.old ≡ [] }
    ensures ok { IfOk result (λ body. body ≡ echo_body header.now handed.now) }
    ensures err { IfErr result (λ error. error ≡ no_memory) }
{
    room.push(header.method().as_str().as_bytes())?;
    room.push(b" ")?;
    room.push(header.raw_path())?;
    room.push(b"\n")?;
    // Most requests have no body, and then no call is made.
    if !handed.is_empty() {
        room.push(handed)?;
    }
    Ok(BodyBytes::from_shared(alloc, room.finish()?))
}

/// Adds the field that frames the body of the reply to this target.
#[inline(always)]
fn state_length(head: &mut ResponseHeader, target: &[u8], count: u64) -> Result<(), Error>
    requires fresh { head.old.fields ≡ [] }
    requires count { count < 2 ^ 63 }
    ensures ok { IfOk result
        (λ _. head.new ≡ record head.old { fields = echo_fields target.now count }) }
    ensures err { IfErr result (λ error. error ≡ no_memory) }
{
    if target == b"/until".as_slice() {
        Ok(())
    } else if target == b"/chunk".as_slice() {
        head.append_header(b"transfer-encoding", b"chunked")
    } else if target == b"/short".as_slice() {
        head.append_content_length(count + 1)
    } else {
        head.append_content_length(count)
    }
}

/// The reply to a request whose body can't be read on.
fn refusal(alloc: Global) -> Result<Reply, Error>
    ensures ok { IfOk result (λ reply. reply ≡ refused_reply) }
    ensures err { IfErr result (λ error. error ≡ no_memory) }
{
    let mut header = ResponseHeader::build(alloc, 400, Some(1))?;
    header.append_content_length(0)?;
    Ok(Reply {
        header,
        body: BodyBytes::new(alloc),
    })
}
