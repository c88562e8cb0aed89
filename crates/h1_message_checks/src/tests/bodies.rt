//! Outside examples of bodies (RFC 9112, sections 6 and 7.1).
use super::streams::{
    Fed, Joined, Kept, Received, append, buffer_of, bytes_of, clear, ended, feed, feed_into,
    finish, given, held, is_empty, is_finished, is_truncated, keep, left, let_go, no_bytes,
    read_len, reader_of, receive, sent, state, take, take_into, write, writer_of,
};
use bytes::Bytes;
use h1_body::{FeedState, Framing, Gathering};
use h1_error::{Error, ErrorType};
use std::alloc::Global;
use std::process::Abort;

const CHUNKED: Framing = Framing::Chunked;

/// Feeds all of a piece: how many bytes were used.
fn feed_all(rt: &impl Abort, fed: &mut Fed, piece: &[u8], payload: &mut Joined) -> usize {
    let mut used = 0;
    for _ in 0..piece.len() {
        assert!(rt; used <= piece.len());
        used = feed_into(rt, fed, &piece[used..], payload).saturating_add(used);
    }
    used
}

/// Reads a body that comes in two pieces, and expects its payload, the bytes used and the state.
fn read(
    rt: &impl Abort,
    alloc: Global,
    framing: Framing,
    pieces: (&[u8], &[u8]),
    expected: (&[u8], usize, FeedState),
) {
    let mut fed = reader_of(framing);
    let mut payload = no_bytes(alloc);
    let front = feed_all(rt, &mut fed, pieces.0, &mut payload);
    let used = feed_all(rt, &mut fed, pieces.1, &mut payload).saturating_add(front);
    let came_to = (bytes_of(&payload), used, state(&fed));
    assert_eq!(rt; came_to, expected, "{pieces:?}");
}

/// Framed bytes, their payload, the bytes used and the state that they come to.
static BODIES: [(Framing, &[u8], &[u8], usize, FeedState); 20] = [
    (
        CHUNKED,
        b"4\r\nWiki\r\n5\r\npedia\r\n0\r\n\r\n",
        b"Wikipedia",
        24,
        FeedState::Done,
    ),
    (
        CHUNKED,
        b"3\r\nabc\r\n0\r\nX: y\r\n\r\n",
        b"abc",
        19,
        FeedState::Done,
    ),
    (
        CHUNKED,
        b"03;a=\"b\"\r\nabc\r\n000\r\nX:\r\nY:\0\r\n",
        b"abc",
        27,
        FeedState::Broken,
    ),
    (
        CHUNKED,
        b"0000000000000003\r\nabc\r\n0\r\n\r\n",
        b"abc",
        28,
        FeedState::Done,
    ),
    (
        CHUNKED,
        b"00000000000000003\r\n",
        b"",
        17,
        FeedState::Broken,
    ),
    (
        CHUNKED,
        b"7fffFFFFffffFFFF\r\nab",
        b"ab",
        20,
        FeedState::More,
    ),
    (CHUNKED, b"8000000000000000\r\n", b"", 16, FeedState::Broken),
    (CHUNKED, b"ZZ\r\n", b"", 1, FeedState::Broken),
    (CHUNKED, b"3\nabc", b"", 2, FeedState::Broken),
    (CHUNKED, b"3 \r\nabc", b"", 2, FeedState::Broken),
    (CHUNKED, b"3\r\nabcd", b"abc", 7, FeedState::Broken),
    (CHUNKED, b"3;\n", b"", 3, FeedState::Broken),
    (CHUNKED, b"\r\n", b"", 1, FeedState::Broken),
    (CHUNKED, b"0\r\n", b"", 3, FeedState::More),
    (CHUNKED, b"0\r\n: y\r\n", b"", 4, FeedState::Broken),
    (CHUNKED, b"0\r\nX y\r\n", b"", 5, FeedState::Broken),
    (Framing::Counted(3), b"abc", b"abc", 3, FeedState::Done),
    (Framing::Counted(3), b"ab", b"ab", 2, FeedState::More),
    (Framing::Counted(0), b"", b"", 0, FeedState::Done),
    (Framing::UntilClose, b"abc", b"abc", 3, FeedState::More),
];

/// These bodies.
fn bodies<'a>() -> &'a [(Framing, &'a [u8], &'a [u8], usize, FeedState)] {
    &BODIES
}

/// The framed bytes, and the next message where they end the body.
fn followed(rt: &impl Abort, alloc: Global, bytes: &[u8], state: FeedState) -> Joined {
    let mut all = no_bytes(alloc);
    append(rt, &mut all, bytes);
    if state != FeedState::More {
        append(rt, &mut all, b"GET / HTTP/1.1\r\n");
    }
    all
}

#[test]
fn a_body_reads_the_same_at_each_cut_and_before_the_next_message(rt: HostRuntime) {
    for &(framing, bytes, payload, used, state) in bodies() {
        let all = followed(&rt, rt.alloc(), bytes, state);
        let all = bytes_of(&all);
        for cut in 0..all.len() + 1 {
            let pieces = all.split_at(cut);
            read(&rt, rt.alloc(), framing, pieces, (payload, used, state));
        }
    }
}

/// The bytes of this many bytes `x` between two texts.
fn filled(rt: &impl Abort, alloc: Global, front: &[u8], count: usize, back: &[u8]) -> Joined {
    let mut all = no_bytes(alloc);
    append(rt, &mut all, front);
    let middle = vec![in alloc; b'x'; count].expect(rt, "memory");
    append(rt, &mut all, &middle);
    append(rt, &mut all, back);
    all
}

#[test]
fn a_size_line_and_trailers_have_their_limits(rt: HostRuntime) {
    let cases: [(&[u8], usize, FeedState); 6] = [
        (b"0;", 8_187, FeedState::Done),
        (b"0;", 8_188, FeedState::Done),
        (b"0;", 8_189, FeedState::Broken),
        (b"0\r\nY:\r\nX:", 1_048_566, FeedState::Done),
        (b"0\r\nY:\r\nX:", 1_048_567, FeedState::Done),
        (b"0\r\nY:\r\nX:", 1_048_568, FeedState::Broken),
    ];
    for (front, count, state) in cases {
        let body = filled(&rt, rt.alloc(), front, count, b"\r\n\r\n");
        let mut fed = reader_of(CHUNKED);
        assert_eq!(rt; feed(&mut fed, bytes_of(&body)), state, "{front:?} {count}");
    }
}

#[test]
fn the_end_of_the_link_ends_only_a_body_that_runs_until_it(rt: HostRuntime) {
    let cases = [
        (Framing::UntilClose, FeedState::Done),
        (Framing::Counted(1), FeedState::More),
        (Framing::Counted(0), FeedState::Done),
        (CHUNKED, FeedState::More),
    ];
    for (framing, state) in cases {
        let mut fed = reader_of(framing);
        assert_eq!(rt; ended(&mut fed), state, "{framing:?}");
    }
}

fn slice_of(payload: &Option<Bytes>) -> Option<&[u8]> {
    match payload {
        Some(bytes) => Some(bytes.as_slice()),
        None => None,
    }
}

/// Takes the next piece of payload, and expects this one and the state.
fn takes(rt: &impl Abort, received: &mut Received, piece: Option<&[u8]>, state: FeedState) {
    let taken = take(rt, received);
    assert_eq!(rt; (slice_of(&taken.0), taken.1), (piece, state));
}

#[test]
fn received_bytes_lose_what_is_taken_of_a_body(rt: HostRuntime) {
    let gathering = Gathering {
        holds: false,
        limit: 0,
    };
    let mut received = receive(&rt, rt.alloc(), b"3\r\nabc\r\n0\r\n\r\nGET", gathering);
    takes(&rt, &mut received, Some(b"abc"), FeedState::More);
    takes(&rt, &mut received, None, FeedState::Done);
    assert_eq!(rt; left(&received), b"GET".as_slice());
}

/// A chunked body of five bytes, and the front of what follows it.
const FIVE: &[u8] = b"3\r\nabc\r\n2\r\nde\r\n0\r\n\r\nGET";

/// Takes the next piece of payload, notes it as read, and expects this one and the state.
fn notes(rt: &impl Abort, received: &mut Received, piece: Option<&[u8]>, state: FeedState) {
    let taken = take_into(received).expect(rt, "a piece");
    assert_eq!(rt; (slice_of(&taken.0), taken.1), (piece, state));
}

/// Reads the body of five bytes: each piece and state as they come, what is held then, and how much
/// was read.
fn read_five(rt: &impl Abort, alloc: Global, gathering: Gathering, holds: [Option<&[u8]>; 3]) {
    let mut received = receive(rt, alloc, FIVE, gathering);
    let expected: [(Option<&[u8]>, u64, FeedState); 3] = [
        (Some(b"abc"), 3, FeedState::More),
        (Some(b"de"), 5, FeedState::More),
        (None, 5, FeedState::Done),
    ];
    for ((piece, len, state), holds) in expected.into_iter().zip(holds) {
        notes(rt, &mut received, piece, state);
        assert_eq!(rt; held(&received), holds);
        assert_eq!(rt; read_len(&received), len);
    }
    assert_eq!(rt; left(&received), b"GET".as_slice());
}

#[test]
fn all_payload_that_is_taken_is_held(rt: HostRuntime) {
    for limit in [5, u64::MAX] {
        let holds = true;
        let held: [Option<&[u8]>; 3] = [Some(b"abc"), Some(b"abcde"), Some(b"abcde")];
        read_five(&rt, rt.alloc(), Gathering { holds, limit }, held);
    }
}

#[test]
fn payload_that_is_not_held_is_counted(rt: HostRuntime) {
    for limit in [5, u64::MAX] {
        let holds = false;
        read_five(
            &rt,
            rt.alloc(),
            Gathering { holds, limit },
            [None, None, None],
        );
    }
}

/// A piece that goes on past the limit is refused, and nothing is lost.
fn refuses(rt: &impl Abort, received: &mut Received) {
    assert_eq!(rt;
        take_into(received).err(),
        Some(Error::from(ErrorType::ContentTooLarge))
    );
    assert_eq!(rt; read_len(received), 3);
    assert_eq!(rt; left(received).len(), 17);
}

#[test]
fn a_body_that_goes_on_past_its_limit_is_refused(rt: HostRuntime) {
    for holds in [true, false] {
        let mut received = receive(&rt, rt.alloc(), FIVE, Gathering { holds, limit: 4 });
        notes(&rt, &mut received, Some(b"abc"), FeedState::More);
        refuses(&rt, &mut received);
        refuses(&rt, &mut received);
        clear(&mut received);
        notes(&rt, &mut received, Some(b"de"), FeedState::More);
        assert_eq!(rt; read_len(&received), 2);
    }
}

#[test]
fn a_body_is_written_by_its_framing(rt: HostRuntime) {
    let short = Some(Error::from(ErrorType::PrematureBodyEnd));
    let cases: [(Framing, &[u8], Option<Error>); 6] = [
        (CHUNKED, b"B\r\nGET /chunk\n\r\n2\r\nab\r\n0\r\n\r\n", None),
        (Framing::Counted(11), b"GET /chunk\n", None),
        (Framing::Counted(12), b"GET /chunk\na", None),
        (Framing::Counted(13), b"GET /chunk\nab", None),
        (Framing::Counted(14), b"GET /chunk\nab", short),
        (Framing::UntilClose, b"GET /chunk\nab", None),
    ];
    for (framing, expected, fault) in cases {
        let mut written = writer_of(rt.alloc(), framing);
        write(&rt, &mut written, b"GET /chunk\n");
        write(&rt, &mut written, b"");
        write(&rt, &mut written, b"ab");
        assert_eq!(rt; finish(&rt, &mut written).err(), fault, "{framing:?}");
        assert!(rt; is_finished(&written));
        write(&rt, &mut written, b"behind");
        assert_eq!(rt; sent(&written), expected, "{framing:?}");
    }
}

/// The buffer gives these bytes, or none.
fn gives(rt: &impl Abort, kept: &Kept, expected: Option<&[u8]>) {
    assert_eq!(rt; slice_of(&given(rt, kept)), expected);
}

#[test]
fn a_fixed_buffer_is_truncated_where_a_piece_passes_its_capacity(rt: HostRuntime) {
    let mut kept = buffer_of(rt.alloc(), 4);
    gives(&rt, &kept, None);
    keep(&rt, &mut kept, b"1234");
    gives(&rt, &kept, Some(b"1234"));
    keep(&rt, &mut kept, b"5");
    assert!(rt; is_truncated(&kept) && is_empty(&kept));
    keep(&rt, &mut kept, b"6");
    gives(&rt, &kept, None);
    let_go(&mut kept);
    keep(&rt, &mut kept, b"7");
    gives(&rt, &kept, Some(b"7"));
}
