//! The time of a piece of a reply's body: the write timeout, or what a rate gives it.
use super::Told::*;
use super::facts::Traffic;
use super::play::{play_asked, play_headed};
use super::setting::Setting::*;
use super::steps::Step::*;
use super::{GET, LAST, WRITE_LATE};

#[test]
fn a_piece_has_the_write_timeout(rt: HostRuntime) {
    let steps = [
        Set(WriteTimeout(Some(1_000))),
        PieceUntil(10, 1_000),
        // The head of the reply.
        Has(Traffic::Wrote(102)),
        // Each later write is refused, and the link isn't asked.
        Piece(10, 6_001, 5_000, WRITE_LATE),
        End(6_001, WRITE_LATE),
        Header(2, 6_001, WRITE_LATE),
        Has(Traffic::Wrote(102)),
    ];
    play_headed(&rt, 2_500, &steps);
}

#[test]
fn bytes_that_are_taken_begin_the_wait_of_a_piece_anew(rt: HostRuntime) {
    let steps = [
        Set(WriteTimeout(Some(1_000))),
        Piece(10, 5_000, 0, Waits),
        PieceOn(5_999, 1, Waits),
        PieceOn(6_999, 1, Waits),
        PieceOn(7_998, 8, Gives(10)),
        // The next piece waits by itself.
        Piece(10, 7_998, 0, Waits),
        PieceOn(8_997, 0, Waits),
        PieceOn(8_998, 0, WRITE_LATE),
    ];
    play_headed(&rt, 2_500, &steps);
}

#[test]
fn a_piece_waits_only_where_it_asked_the_link(rt: HostRuntime) {
    let steps = [
        Set(WriteTimeout(Some(1_000))),
        Piece(10, 5_000, 0, Waits),
        Set(Budget(Some(0))),
        PieceOn(6_000, 0, Waits),
        Set(Budget(None)),
        PieceOn(6_000, 0, WRITE_LATE),
    ];
    play_headed(&rt, 10, &steps);
}

#[test]
fn a_rate_gives_a_piece_the_time_of_its_length(rt: HostRuntime) {
    let cases = [
        (Some(1_000), 2_500, 2_500),
        (Some(1_000), 10, 1_000),
        (Some(3), 10, 3_333),
        // No rate, so the write timeout holds.
        (Some(0), 10, 50),
        (None, 10, 50),
    ];
    for (rate, len, limit) in cases {
        let steps = [
            Set(WriteTimeout(Some(50))),
            Set(Rate(rate)),
            PieceUntil(len, limit),
        ];
        play_headed(&rt, 2_500, &steps);
    }
}

#[test]
fn a_piece_that_goes_on_has_the_time_of_its_whole_length(rt: HostRuntime) {
    let steps = [
        Set(Rate(Some(1_000))),
        Piece(2_500, 5_000, 2_000, Waits),
        PieceOn(7_499, 400, Waits),
        PieceOn(9_998, 0, Waits),
        PieceOn(9_999, 0, WRITE_LATE),
    ];
    play_headed(&rt, 2_500, &steps);
    // What the reply has no place for counts too.
    let short = [Set(Rate(Some(1_000))), PieceUntil(2_500, 2_500)];
    play_headed(&rt, 10, &short);
}

#[test]
fn without_a_timeout_and_a_rate_a_piece_is_never_late(rt: HostRuntime) {
    for rate in [None, Some(0)] {
        let steps = [
            Set(Rate(rate)),
            Piece(10, 0, 0, Waits),
            PieceOn(LAST, 0, Waits),
            PieceOn(LAST, 10, Gives(10)),
        ];
        play_headed(&rt, 10, &steps);
    }
}

#[test]
fn a_header_and_an_end_have_no_deadline(rt: HostRuntime) {
    let steps = [
        Set(WriteTimeout(Some(1_000))),
        Room(50),
        Header(10, 0, Waits),
        HeaderOn(1_000, Waits),
        HeaderOn(9_000, Waits),
        Room(5_000),
        HeaderOn(9_000, Done),
        // The wait of the piece is its own.
        Piece(10, 9_000, 0, Waits),
        PieceOn(9_999, 10, Gives(10)),
        Block,
        End(10_000, Waits),
        End(LAST, Waits),
        Room(0),
        End(LAST, Gives(10)),
    ];
    play_asked(&rt, GET, 18, &steps);
}
