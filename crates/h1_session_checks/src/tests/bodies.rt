//! The times of a body and of its drain.
use super::Told::*;
use super::facts::Traffic;
use super::play::{play, play_asked};
use super::setting::Setting::*;
use super::steps::Call::{Body, Drain, Head};
use super::steps::Step::*;
use super::{CHUNKED, COUNTED, GET, LAST, READ_LATE};

#[test]
fn a_body_and_its_drain_have_the_read_timeout(rt: HostRuntime) {
    for call in [Body, Drain] {
        let steps = [
            Read(Body, 1_000, 1, Gives(1)),
            // Keep-alive is the time of a head.
            Set(Keepalive(Some(1))),
            ReadUntil(call, 60_000, READ_LATE),
            Read(call, 65_001, 4, READ_LATE),
            Has(Traffic::Gave(39)),
        ];
        play_asked(&rt, COUNTED, 38, &steps);
    }
}

#[test]
fn a_read_timeout_may_be_none_or_0(rt: HostRuntime) {
    for call in [Body, Drain] {
        let steps = [
            Set(ReadTimeout(None)),
            Read(Drain, 0, 0, Waits),
            Read(Drain, LAST, 4, Waits),
            Read(Drain, LAST, 0, Waits),
            Set(ReadTimeout(Some(0))),
            Read(call, LAST, 0, READ_LATE),
        ];
        play_asked(&rt, COUNTED, 38, &steps);
    }
}

#[test]
fn a_body_that_drips_is_never_late(rt: HostRuntime) {
    let counted = [
        Read(Body, 0, 1, Gives(1)),
        Read(Body, 0, 0, Waits),
        Read(Body, 59_999, 1, Gives(1)),
        Read(Body, 59_999, 0, Waits),
        Read(Body, 119_998, 1, Gives(1)),
        Read(Body, 119_998, 0, Waits),
        Read(Body, 179_997, 1, Gives(1)),
        Read(Body, 179_997, 0, Waits),
    ];
    play_asked(&rt, COUNTED, 38, &counted);
    let chunked = [
        Read(Body, 0, 1, Waits),
        Read(Body, 59_999, 1, Waits),
        Read(Body, 119_998, 1, Waits),
        Read(Body, 179_997, 1, Waits),
        Read(Body, 239_997, 0, READ_LATE),
    ];
    play_asked(&rt, CHUNKED, 47, &chunked);
    let drained = [
        Read(Drain, 0, 1, Waits),
        Read(Drain, 59_999, 1, Waits),
        Read(Drain, 119_998, 1, Waits),
        Read(Drain, 179_997, 1, Waits),
        Read(Drain, 239_996, 1, Done),
    ];
    play_asked(&rt, CHUNKED, 47, &drained);
}

#[test]
fn a_drain_has_a_time_in_all(rt: HostRuntime) {
    // A body that is whole at the deadline is in time, and one that goes on is not.
    for (last, told) in [(2, READ_LATE), (3, Done)] {
        let steps = [
            Set(DrainTimeout(Some(100_000))),
            Read(Drain, 5_000, 0, Waits),
            Read(Drain, 55_000, 1, Waits),
            Read(Drain, 104_999, 1, Waits),
            Read(Drain, 105_000, last, told),
            Read(Drain, 105_001, 1, told),
        ];
        play_asked(&rt, COUNTED, 38, &steps);
    }
}

#[test]
fn a_read_waits_only_where_it_asked_the_link(rt: HostRuntime) {
    let steps = [Set(Keepalive(Some(1))), ReadWhereAsked(Head, Idle)];
    play(&rt, GET, &steps);
    for call in [Body, Drain] {
        let steps = [
            Set(ReadTimeout(Some(1_000))),
            Set(DrainTimeout(Some(1_000))),
            ReadWhereAsked(call, READ_LATE),
        ];
        play_asked(&rt, COUNTED, 38, &steps);
    }
}

#[test]
fn a_part_and_the_rest_of_a_body_wait_each_by_itself(rt: HostRuntime) {
    let steps = [
        Set(ReadTimeout(Some(100))),
        Set(DrainTimeout(Some(150))),
        Read(Body, 0, 0, Waits),
        Read(Body, 99, 0, Waits),
        Read(Drain, 110, 0, Waits),
        Read(Drain, 200, 1, Waits),
        Read(Body, 255, 0, Waits),
        Read(Body, 354, 0, Waits),
        Read(Drain, 400, 0, Waits),
        Read(Drain, 499, 1, Waits),
        Read(Drain, 549, 0, Waits),
        Read(Drain, 550, 0, READ_LATE),
    ];
    play_asked(&rt, COUNTED, 38, &steps);
}
