//! A connection that is served by one call.
ghost use Rattle.std.specs.List.{AllByRecursion};
ghost use Rattle.h1_link.specs.LinkState.{LinkState};
ghost use Rattle.h1_transcript.specs.Agrees.{Agrees};
ghost use Rattle.h1_app.specs.Accounted.{Accounted};
ghost use Rattle.h1_app.specs.Filtering.{rules_of};
ghost use Rattle.h1_app.specs.View.{entries};
ghost use Rattle.h1_serving.specs.Served.{IsUnpolled, KeptInCall, LeavesByPolls, BeganInCall, AnswersBy, AnswersInTime};

use h1_app::{Connection, LawfulFor, NoModules, ServeHttp};
use h1_echo::EchoApp;
use h1_error::Progress;
use h1_link::{Clock, Link};

/// How often [`serve_link`] polls at most.
pub const MOST_POLLS: u32 = 1_000_000;

/// A connection that [`EchoApp`] serves.
pub type Echoed<L> = Connection<L, EchoApp, NoModules, ()>;

/// Polls a connection until it ends, at most [`MOST_POLLS`] times, and answers what the last poll
/// answered: where that is `Pending`, `Connection::poll` goes on. The clock is asked before each
/// poll, which is at the moment that it tells. A poll of a link that waits for its peer, as one over
/// TCP, takes as long as the wait.
pub fn serve_link<L, SV, B, C, T>(
    connection: &mut Connection<L, SV, B, C>,
    clock: &mut T,
) -> Progress
where
    L: Link + Drop,
    SV: ServeHttp<L, C> + Drop,
    B: LawfulFor<L, C, SV> + Drop,
    C: Drop,
    T: Clock,
    requires { IsUnpolled connection.old }
    ensures kept { KeptInCall L.same_plan (T.moment clock.old) (T.moment clock.new) connection.old
        connection.new }
    ensures leaves { LeavesByPolls MOST_POLLS (T.asked clock.old) (T.asked clock.new)
        (L.state connection.old.session.link) (L.state connection.new.session.link)
        (entries connection.new) connection.new.end result }
    ensures accounted { (before : LinkState)
        → Accounted L.state before connection.old.session connection.old.done connection.old.last
        → Accounted L.state before connection.new.session connection.new.done
        connection.new.last }
    ensures agrees { (before : LinkState)
        → Accounted L.state before connection.old.session connection.old.done connection.old.last
        → Agrees (rules_of SV.gives B.HttpModuleBuilder B.Module.HttpModule connection.new.served)
        connection.new.terms before (L.state connection.new.session.link)
        (entries connection.new) }
    ensures served { AllByRecursion (BeganInCall (T.moment clock.old) (T.moment clock.new)
        (L.state connection.old.session.link) (L.state connection.new.session.link))
        (entries connection.new) }
    ensures answer { (before : LinkState)
        → Accounted L.state before connection.old.session connection.old.done connection.old.last
        → AnswersBy (rules_of SV.gives B.HttpModuleBuilder B.Module.HttpModule
        connection.new.served).filters L.state SV.pends MOST_POLLS before
        (L.state connection.old.session.link) connection.new result }
    ensures timely { (before : LinkState)
        → Accounted L.state before connection.old.session connection.old.done connection.old.last
        → AnswersInTime L.state (T.moment clock.old) (T.moment clock.new) connection.old
        connection.new result }
{
    for _ in 0..MOST_POLLS - 1 {
        let now = clock.now();
        let answer = connection.poll(now, false);
        if let Progress::Ready(_) = answer {
            return answer;
        }
    }
    let now = clock.now();
    connection.poll(now, false)
}
