//! Refusals of modules by example, and the buffers of several modules.
use super::notes::{
    Notes, Notings, add, begun, left_in, listed, names_in_piece, nothing_listed, refusal,
};
use super::noting::{FILTERS, NEVER, Noting};
use h1_error::Error;
use std::process::Abort;

fn names<'a>() -> &'a [u8] {
    b"abc"
}

fn add_refusing(rt: &impl Abort, listed: &mut Notings, name: u8, refuses_at: u8) {
    assert_eq!(rt; add(listed, Noting::new(0, name, refuses_at)), None);
}

/// Modules a, b and c, of which one refuses in one filter.
fn refusing(rt: &(impl Abort + AllocGlobal), refuser: u8, filter: u8) -> Notes {
    let mut listed = nothing_listed(rt);
    for name in names() {
        add_refusing(
            rt,
            &mut listed,
            *name,
            if *name == refuser { filter } else { NEVER },
        );
    }
    begun(rt, &listed)
}

/// Where the module refuses in the filter, the answer is this, and these modules ran before.
fn leave(
    rt: &(impl Abort + AllocGlobal),
    refuser: u8,
    filter: u8,
    answer: Option<Error>,
    ran: &[u8],
) {
    let mut notes = refusing(rt, refuser, filter);
    let (error, names) = left_in(rt, filter, &mut notes);
    assert_eq!(rt; error, answer, "filter {filter}");
    assert_eq!(rt; names.as_slice(), ran, "filter {filter}");
}

fn filters<'a>() -> &'a [u8] {
    &FILTERS
}

/// The module that refuses, and those that run before it.
fn refusers<'a>() -> &'a [(u8, &'a [u8])] {
    &[(b'a', b""), (b'b', b"a"), (b'c', b"ab")]
}

#[test]
fn a_refusal_is_answered_and_no_later_module_runs(rt: HostRuntime) {
    for filter in filters() {
        for (refuser, ran) in refusers() {
            leave(&rt, *refuser, *filter, Some(refusal(*refuser)), ran);
        }
    }
}

#[test]
fn all_run_where_none_refuses(rt: HostRuntime) {
    for filter in filters() {
        leave(&rt, b'd', *filter, None, b"abc");
    }
}

/// Modules of which the first two to run give a buffer, and the last one too where it shall.
fn giving(rt: &(impl Abort + AllocGlobal), last_gives: bool) -> Notes {
    let mut listed = listed(rt, &[0, 1], b"ab");
    let last = Noting::new(-1, b'c', NEVER);
    let last = if last_gives {
        last
    } else {
        last.without_buffer()
    };
    assert_eq!(rt; add(&mut listed, last), None);
    begun(rt, &listed)
}

/// The buffer that the modules give for no trailers.
fn given_for_trailers(rt: &(impl Abort + AllocGlobal), notes: &mut Notes) -> Vec<u8> {
    let mut trailers = None;
    let buffer = notes
        .context
        .response_trailer_filter(rt.alloc(), &mut trailers);
    assert!(rt; trailers.is_none());
    names_in_piece(rt, buffer.expect(rt, "no module refuses"))
}

/// The buffer that the modules give as the response is done.
fn given_at_the_end(rt: &(impl Abort + AllocGlobal), notes: &mut Notes) -> Vec<u8> {
    let buffer = notes.context.response_done_filter(rt.alloc());
    names_in_piece(rt, buffer.expect(rt, "no module refuses"))
}

/// Of several buffers for the trailers, the modules give the one of this name.
fn give_for_trailers(rt: &(impl Abort + AllocGlobal), last_gives: bool, expected: &[u8]) {
    let names = given_for_trailers(rt, &mut giving(rt, last_gives));
    assert_eq!(rt; names.as_slice(), expected);
}

#[test]
fn of_several_trailer_buffers_the_last_wins(rt: HostRuntime) {
    give_for_trailers(&rt, true, b"c");
    give_for_trailers(&rt, false, b"a");
}

/// Of several buffers for the end, the modules give the one of this name.
fn give_at_the_end(rt: &(impl Abort + AllocGlobal), last_gives: bool, expected: &[u8]) {
    let names = given_at_the_end(rt, &mut giving(rt, last_gives));
    assert_eq!(rt; names.as_slice(), expected);
}

#[test]
fn of_several_last_buffers_the_last_wins(rt: HostRuntime) {
    give_at_the_end(&rt, true, b"c");
    give_at_the_end(&rt, false, b"a");
}
