//! The times of reads and of writes. Each waits from `FIRST` on, is refused at the millisecond at
//! which its time is over, and not at the one before, and stays refused.
use super::Client;
use super::Told::{self, *};
use super::calls::{
    add_line, ask, block, give, go_on_asking, go_on_with_piece, hand_in, head_of, make_room, new,
    read_head, read_part, set_read_timeout, set_write_timeout,
};
use super::exchange::client_of;
use h1_error::ErrorType;
use std::process::Abort;

/// When a wait begins.
const FIRST: u64 = 5_000;

const READ_LATE: Told = Fails(ErrorType::ReadTimedout);

const WRITE_LATE: Told = Fails(ErrorType::WriteTimedout);

/// Moments at which a call goes on, and what it tells then, where its time is a second.
static WAITS: [(u64, bool); 5] = [
    (FIRST, false),
    (FIRST, false),
    (5_999, false),
    (6_000, true),
    (6_000, true),
];

fn waits<'a>() -> &'a [(u64, bool)] {
    &WAITS
}

/// What a call tells whose time is over or isn't.
fn told(late: bool, refusal: Told) -> Told {
    if late { refusal } else { Waits }
}

#[test]
fn a_response_head_has_the_read_timeout(rt: HostRuntime) {
    let mut client = client_of(&rt, rt.alloc(), b"GET");
    set_read_timeout(&mut client, Some(1_000));
    for &(now, late) in waits() {
        assert_eq!(rt;
            read_head(&rt, &mut client, now),
            told(late, READ_LATE),
            "{now}"
        );
    }
}

#[test]
fn a_response_body_has_the_read_timeout(rt: HostRuntime) {
    let mut client = client_of(&rt, rt.alloc(), b"GET");
    set_read_timeout(&mut client, Some(1_000));
    give(
        &rt,
        &mut client,
        b"HTTP/1.1 200 OK\r\nContent-Length: 2\r\n\r\n",
    );
    assert_eq!(rt; read_head(&rt, &mut client, 0), Gives(38));
    for &(now, late) in waits() {
        assert_eq!(rt;
            read_part(&rt, &mut client, now),
            told(late, READ_LATE),
            "{now}"
        );
    }
}

#[test]
fn a_request_head_has_the_write_timeout(rt: HostRuntime) {
    let mut client = new(rt.alloc());
    set_write_timeout(&mut client, Some(1_000));
    block(&mut client);
    let head = head_of(&rt, rt.alloc(), b"GET", b"/x");
    assert_eq!(rt; ask(&rt, &mut client, head, FIRST), Waits);
    for &(now, late) in waits() {
        assert_eq!(rt;
            go_on_asking(&rt, &mut client, now),
            told(late, WRITE_LATE),
            "{now}"
        );
    }
}

/// A session that wrote the head of a request with a body of three bytes.
fn posted(rt: &(impl Abort + AllocGlobal)) -> Client {
    let mut client = new(rt.alloc());
    set_write_timeout(&mut client, Some(1_000));
    let mut head = head_of(rt, rt.alloc(), b"POST", b"/x");
    add_line(rt, &mut head, b"Content-Length", b"3");
    assert_eq!(rt; ask(rt, &mut client, head, 0), Gives(39));
    client
}

#[test]
fn a_request_body_has_the_write_timeout(rt: HostRuntime) {
    let mut client = posted(&rt);
    block(&mut client);
    assert_eq!(rt; hand_in(&rt, &mut client, b"abc", FIRST), Waits);
    assert_eq!(rt; go_on_with_piece(&rt, &mut client, FIRST), Waits);
    assert_eq!(rt; go_on_with_piece(&rt, &mut client, 5_999), Waits);
    assert_eq!(rt; go_on_with_piece(&rt, &mut client, 6_000), WRITE_LATE);
    assert_eq!(rt; hand_in(&rt, &mut client, b"abc", 6_000), WRITE_LATE);
}

#[test]
fn bytes_begin_a_wait_anew(rt: HostRuntime) {
    let mut client = client_of(&rt, rt.alloc(), b"GET");
    set_read_timeout(&mut client, Some(1_000));
    assert_eq!(rt; read_head(&rt, &mut client, 5_000), Waits);
    give(&rt, &mut client, b"H");
    assert_eq!(rt; read_head(&rt, &mut client, 5_999), Waits);
    // A byte that comes at the deadline is in time.
    give(&rt, &mut client, b"T");
    assert_eq!(rt; read_head(&rt, &mut client, 6_999), Waits);
    assert_eq!(rt; read_head(&rt, &mut client, 7_998), Waits);
    assert_eq!(rt; read_head(&rt, &mut client, 7_999), READ_LATE);
}

#[test]
fn a_piece_that_moves_begins_its_wait_anew(rt: HostRuntime) {
    let mut client = posted(&rt);
    block(&mut client);
    assert_eq!(rt; hand_in(&rt, &mut client, b"abc", 5_000), Waits);
    make_room(&mut client, 1);
    assert_eq!(rt; go_on_with_piece(&rt, &mut client, 5_999), Waits);
    assert_eq!(rt; go_on_with_piece(&rt, &mut client, 6_998), Waits);
    assert_eq!(rt; go_on_with_piece(&rt, &mut client, 6_999), WRITE_LATE);
}

#[test]
fn without_a_time_nothing_is_late(rt: HostRuntime) {
    let mut client = new(rt.alloc());
    block(&mut client);
    let head = head_of(&rt, rt.alloc(), b"GET", b"/x");
    assert_eq!(rt; ask(&rt, &mut client, head, 0), Waits);
    assert_eq!(rt; go_on_asking(&rt, &mut client, u64::MAX), Waits);
    make_room(&mut client, 19);
    assert_eq!(rt; go_on_asking(&rt, &mut client, u64::MAX), Gives(19));
    assert_eq!(rt; read_head(&rt, &mut client, 0), Waits);
    assert_eq!(rt; read_head(&rt, &mut client, u64::MAX), Waits);
}
