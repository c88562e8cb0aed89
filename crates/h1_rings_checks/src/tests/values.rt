//! A ring of one value.
use h1_error::Error;
use h1_rings::once;
use std::test::*;
use std::thread::join;

#[test]
fn a_value_is_sent_once_and_taken_once(rt: HostRuntime) {
    let (tx, mut rx) = once::<u32, HostRuntime>(&rt, rt.alloc()).expect(&rt, "memory");
    assert_eq!(rt; rx.try_take(), None);
    tx.send(7);
    assert_eq!(rt; rx.try_take(), Some(7));
    assert_eq!(rt; rx.try_take(), None);
}

#[test]
fn an_end_that_sends_nothing_leaves_the_ring_empty(rt: HostRuntime) {
    let (_, mut rx) = once::<Error, HostRuntime>(&rt, rt.alloc()).expect(&rt, "memory");
    assert!(rt; rx.try_take().is_none());
}

#[test]
fn a_value_comes_from_another_thread(rt: HostRuntime) {
    let (tx, mut rx) = once::<u32, HostRuntime>(&rt, rt.alloc()).expect(&rt, "memory");
    let (_, first) = join(
        &rt,
        move || tx.send(7),
        move || {
            let first = rx.try_take();
            (rx, first)
        },
    );
    let (mut rx, first) = first;
    // It may have come in that thread already.
    let value = match first {
        Some(value) => Some(value),
        None => rx.try_take(),
    };
    assert_eq!(rt; value, Some(7));
}
