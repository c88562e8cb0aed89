//! The time of a head: that of keep-alive, or the read timeout where keep-alive is off.
use super::Told::*;
use super::facts::Traffic;
use super::play::play;
use super::setting::Setting::*;
use super::steps::Call::Head;
use super::steps::Step::*;
use super::{GET, LAST, READ_LATE};

#[test]
fn no_head_is_awaited_once_the_time_of_keep_alive_is_over(rt: HostRuntime) {
    for (seconds, limit) in [(1, 1_000), (5, 5_000), (60, 60_000)] {
        let steps = [
            Set(Keepalive(Some(seconds))),
            // The time of a body is not that of a head.
            Set(ReadTimeout(Some(10))),
            ReadUntil(Head, limit, Idle),
            // That answer is no refusal, and a deadline is judged only where the link isn't ready.
            Read(Head, LAST, 18, Gives(18)),
        ];
        play(&rt, GET, &steps);
    }
}

#[test]
fn a_head_that_was_begun_is_refused_then(rt: HostRuntime) {
    // A CR, an empty line, and a head after it.
    for count in [1, 2, 3] {
        let steps = [
            Set(Keepalive(Some(1))),
            Send(count),
            ReadUntil(Head, 1_000, READ_LATE),
            Read(Head, 6_001, 17, READ_LATE),
            Has(Traffic::Gave(count)),
        ];
        play(&rt, b"\r\nGET / HTTP/1.1\r\n\r\n", &steps);
    }
}

#[test]
fn bytes_begin_the_wait_for_a_head_anew(rt: HostRuntime) {
    let steps = [
        Set(Keepalive(Some(1))),
        Read(Head, 5_000, 0, Waits),
        Read(Head, 5_999, 1, Waits),
        Read(Head, 6_998, 1, Waits),
        // A byte that comes at the deadline is in time.
        Read(Head, 7_998, 1, Waits),
        Read(Head, 8_997, 0, Waits),
        Read(Head, 8_998, 0, READ_LATE),
    ];
    play(&rt, GET, &steps);
}

#[test]
fn a_keep_alive_of_0_seconds_has_no_deadline(rt: HostRuntime) {
    // Seconds beyond all milliseconds have none either.
    for seconds in [0, u64::MAX] {
        let steps = [
            Set(Keepalive(Some(seconds))),
            Read(Head, 0, 0, Waits),
            Read(Head, 60_000, 1, Waits),
            Read(Head, LAST, 0, Waits),
        ];
        play(&rt, GET, &steps);
    }
}

#[test]
fn without_keep_alive_a_head_has_the_read_timeout(rt: HostRuntime) {
    play(&rt, GET, &[ReadUntil(Head, 60_000, Idle)]);
    let off = [
        Set(Keepalive(Some(1))),
        Set(Keepalive(None)),
        Set(ReadTimeout(Some(250))),
        ReadUntil(Head, 250, Idle),
    ];
    play(&rt, GET, &off);
}
