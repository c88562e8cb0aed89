//! The lines of a script that set its link: what is ahead, how much is taken, and what fails.
ghost use Rattle.std.specs.Prelude.{◌≡◌, ◌++◌, OnOk, Some, true, length, unwrap_or};
ghost use Rattle.h1_link.specs.LinkState.{LinkState};
ghost use Rattle.h1_link.specs.declared.memory.gate.Gate.TheVariants as gate;
ghost use Rattle.h1_app.specs.Accounted.{Accounted};
ghost use Rattle.h1_serve.specs.State.{link_state};

use crate::scripted::Marked;
use h1_error::Error;

/// Puts bytes ahead on the link.
pub(crate) fn give(connection: &mut Marked, bytes: &[u8]) -> Result<(), Error>
    ensures link { OnOk result
        (connection.new.session.link
        ≡ record connection.old.session.link {
          put = connection.old.session.link.put ++ bytes.now;
          reads_noted = connection.old.session.link.state.read_waits;
        }) }
    ensures rest { connection.new
        ≡ record connection.old
        { session = record connection.old.session { link = connection.new.session.link } } }
    ensures accounted { (before : LinkState)
        → Accounted link_state before connection.old.session connection.old.done connection.old.last
        → Accounted link_state before connection.new.session connection.new.done
        connection.new.last }
{
    connection.with_link(|link| link.give(bytes))
}

/// Lets the link end after what is ahead.
pub(crate) fn say_end(connection: &mut Marked)
    ensures link { connection.new.session.link
        ≡ record connection.old.session.link {
          end_at = Some
              (unwrap_or connection.old.session.link.end_at (length connection.old.session.link.put));
          reads_noted = connection.old.session.link.state.read_waits;
        } }
    ensures rest { connection.new
        ≡ record connection.old
        { session = record connection.old.session { link = connection.new.session.link } } }
    ensures accounted { (before : LinkState)
        → Accounted link_state before connection.old.session connection.old.done connection.old.last
        → Accounted link_state before connection.new.session connection.new.done
        connection.new.last }
{
    connection.with_link(|link| link.end())
}

/// Lets the link take that many bytes more.
pub(crate) fn set_room(connection: &mut Marked, count: u64)
    ensures link { connection.new.session.link
        ≡ record connection.old.session.link {
          gate = gate.Room count;
          writes_noted = connection.old.session.link.state.write_waits;
        } }
    ensures rest { connection.new
        ≡ record connection.old
        { session = record connection.old.session { link = connection.new.session.link } } }
    ensures accounted { (before : LinkState)
        → Accounted link_state before connection.old.session connection.old.done connection.old.last
        → Accounted link_state before connection.new.session connection.new.done
        connection.new.last }
{
    connection.with_link(|link| link.room(count))
}

/// Lets the link take nothing, and leave no flush ready.
pub(crate) fn set_block(connection: &mut Marked)
    ensures link { connection.new.session.link
        ≡ record connection.old.session.link {
          gate = gate.Blocked;
          writes_noted = connection.old.session.link.state.write_waits;
        } }
    ensures rest { connection.new
        ≡ record connection.old
        { session = record connection.old.session { link = connection.new.session.link } } }
    ensures accounted { (before : LinkState)
        → Accounted link_state before connection.old.session connection.old.done connection.old.last
        → Accounted link_state before connection.new.session connection.new.done
        connection.new.last }
{
    connection.with_link(|link| link.block())
}

/// Lets the link's next read fail.
pub(crate) fn plan_read_fault(connection: &mut Marked)
    ensures link { connection.new.session.link
        ≡ record connection.old.session.link {
          read_fault = true;
        } }
    ensures rest { connection.new
        ≡ record connection.old
        { session = record connection.old.session { link = connection.new.session.link } } }
    ensures accounted { (before : LinkState)
        → Accounted link_state before connection.old.session connection.old.done connection.old.last
        → Accounted link_state before connection.new.session connection.new.done
        connection.new.last }
{
    connection.with_link(|link| link.fail_next_read())
}

/// Lets the link's next write fail.
pub(crate) fn plan_write_fault(connection: &mut Marked)
    ensures link { connection.new.session.link
        ≡ record connection.old.session.link {
          write_fault = true;
        } }
    ensures rest { connection.new
        ≡ record connection.old
        { session = record connection.old.session { link = connection.new.session.link } } }
    ensures accounted { (before : LinkState)
        → Accounted link_state before connection.old.session connection.old.done connection.old.last
        → Accounted link_state before connection.new.session connection.new.done
        connection.new.last }
{
    connection.with_link(|link| link.fail_next_write())
}
