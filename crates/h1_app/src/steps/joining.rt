//! An exchange is over: it joins those that ended, and the next one begins on the same link.
ghost use Rattle.h1_app.specs.Draining.{LastMayGoOn};
ghost use Rattle.h1_app.specs.Joins.{JoinsNext};

use crate::exchange::{Exchange, Stage};
use h1_link::Link;

/// The last exchange joins those that ended, and the next head is awaited.
pub(crate) fn next_exchange<L: Link + Drop, C: Drop, J: Drop>(exchange: &mut Exchange<L, J, C>)
    requires { LastMayGoOn exchange.old.session exchange.old.transcript.last }
    ensures { JoinsNext exchange.old exchange.new }
{
    exchange.transcript.end_last();
    exchange.session.next_request();
    exchange.stage = Stage::Head;
}
