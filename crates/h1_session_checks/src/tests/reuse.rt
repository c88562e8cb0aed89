//! The times of a link that is handed on, and of the request behind it.
use super::Told::*;
use super::facts::Fact;
use super::play::play_asked;
use super::setting::Setting::*;
use super::steps::Call::Reuse;
use super::steps::Step::*;
use super::{COUNTED, GET, NOW, READ_LATE};

#[test]
fn a_link_is_handed_on_only_where_the_rest_came_in_time(rt: HostRuntime) {
    let steps = [
        Set(Closing(false)),
        Reply(NOW),
        Read(Reuse, NOW, 1, Waits),
        Read(Reuse, NOW + 59_999, 0, Waits),
        Read(Reuse, NOW + 60_000, 0, READ_LATE),
        // The body failed, so the link is shut.
        Read(Reuse, NOW + 60_000, 4, Refused),
        Is(Fact::Ended),
    ];
    play_asked(&rt, COUNTED, 38, &steps);
}

#[test]
fn the_next_request_has_the_first_times(rt: HostRuntime) {
    let steps = [
        // Each limit is another number. A rate of 0 is none.
        Set(ReadTimeout(Some(1))),
        Set(DrainTimeout(Some(2))),
        Set(WriteTimeout(Some(3))),
        Set(Rate(Some(0))),
        Is(Fact::Rate(0)),
        Set(Rate(Some(4))),
        Is(Fact::ReadTimeout(Some(1))),
        Is(Fact::DrainTimeout(Some(2))),
        Is(Fact::WriteTimeout(Some(3))),
        Is(Fact::Rate(4)),
        Set(Pipelining(true)),
        Reply(NOW),
        Read(Reuse, NOW, 0, Done),
        Next,
        Is(Fact::Anew(None)),
    ];
    play_asked(&rt, GET, 18, &steps);
}
