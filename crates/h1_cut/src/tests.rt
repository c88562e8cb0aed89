//! Heads and their ends.
ghost use Rattle.std.specs.Prelude.{◌≡◌, ◌<◌};

use crate::{HeadSearch, LookedAt, Steps, cut_of, cut_within};
use std::marker::Brand;
use std::sync::ledger::{Blank, Ledger};

#[test]
fn a_head_ends_with_the_first_empty_line_behind_a_nonempty_one(rt: HostRuntime) {
    assert_eq!(rt; cut_of(b"GET / HTTP/1.1\r\nHost: a\r\n\r\nbody"), Some(27));
    assert_eq!(rt; cut_of(b"\r\n\nGET / HTTP/1.1\n\n"), Some(19));
    assert_eq!(rt; cut_of(b"\r\n\r\n"), None);
    assert_eq!(rt; cut_within(b"GET / HTTP/1.1\n\n", 16), Some(16));
    assert_eq!(rt; cut_within(b"GET / HTTP/1.1\n\n", 15), None);
}

#[test]
fn a_search_in_pieces_finds_the_same_end(rt: HostRuntime) {
    let mut search = HeadSearch::new();
    assert_eq!(rt; search.feed(b"GET / HTTP/1.1\r"), None);
    assert_eq!(rt; search.at(), 15);
    assert_eq!(rt; search.feed(b"\n\r\nbody"), Some(18));
    assert_eq!(rt; search.feed(b"\n\nbody"), Some(17));
}

#[test]
fn a_search_over_a_buffer_that_grows_finds_the_same_end(rt: HostRuntime) {
    let bytes = b"GET / HTTP/1.1\r\n\r\nbody";
    let mut search = HeadSearch::new();
    assert_eq!(rt; search.find_within(&bytes[..0], 18), None);
    assert_eq!(rt; search.find_within(bytes, 18), Some(18));
    let mut short = HeadSearch::new();
    assert_eq!(rt; short.find_within(bytes, 17), None);
}

#[test]
fn a_search_that_is_counted_finds_the_same_end_again(rt: HostRuntime) {
    let bytes = b"GET / HTTP/1.1\r\n\r\nbody";
    assert_eq!(rt;
        found_twice::<Brand>(bytes, Blank::new(1)),
        (Some(18), Some(18))
    );
    assert_eq!(rt;
        found_twice::<Brand>(b"GET / HTTP/1.1\r\n\r", Blank::new(1)),
        (None, None)
    );
}

/// What two calls over the same bytes find, over one counter.
fn found_twice<L: Ledger>(bytes: &[u8], blank: Blank) -> (Option<usize>, Option<usize>)
    requires name { blank.name ≡ L.name }
    requires parts { blank.parts ≡ L.parts }
    requires some { 0 < blank.parts }
{
    let mut steps = Steps::<L>::new(blank);
    let mut search = HeadSearch::new();
    let bytes = LookedAt::new(bytes);
    let first = search.advance(&bytes, &mut steps);
    let again = search.advance(&bytes, &mut steps);
    (first, again)
}
