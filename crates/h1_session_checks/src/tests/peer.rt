//! The peer of a session.
use super::Timed;
use std::process::Abort;

/// The peer sends so many bytes more, where so many are left.
pub(crate) fn send(rt: &impl Abort, timed: &mut Timed, count: usize) {
    let Some((piece, rest)) = timed.rest.split_at_checked(count) else {
        return;
    };
    timed.rest = rest;
    give(rt, timed, piece);
}

/// The peer sends these bytes.
pub(crate) fn give(rt: &impl Abort, timed: &mut Timed, bytes: &[u8]) {
    let given = timed.session.with_link(|link| link.give(bytes));
    assert!(rt; given.is_ok());
}

/// The peer sends nothing more.
pub(crate) fn close(timed: &mut Timed) {
    timed.session.with_link(|link| link.end());
}

/// The peer takes so many bytes more.
pub(crate) fn make_room(timed: &mut Timed, count: u64) {
    timed.session.with_link(|link| link.room(count));
}

/// The peer takes nothing more, and no flush.
pub(crate) fn block(timed: &mut Timed) {
    timed.session.with_link(|link| link.block());
}
