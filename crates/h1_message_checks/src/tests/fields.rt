//! Field lines and lists by example.
use super::lines::{
    Line, Lines, append, contains, content_length, copy, count_all, count_named, first_line, get,
    has_lines, has_numbers, has_transfer_encoding, insert, is_chunked_last, is_empty, last_line,
    last_named, len, lists_close, lists_keep_alive, new, none, remove,
};
use h1_fields::ContentLength;
use std::alloc::Global;
use std::process::Abort;

/// These lines.
fn made(rt: &impl Abort, alloc: Global, lines: &[Line]) -> Lines {
    let mut made = new(alloc);
    for (name, value) in lines {
        append(rt, &mut made, name, value);
    }
    made
}

/// A line of this name for each of the values.
fn of_name(rt: &impl Abort, alloc: Global, name: &[u8], values: &[&[u8]]) -> Lines {
    let mut made = none(rt, alloc, values.len());
    for value in values {
        append(rt, &mut made, name, value);
    }
    made
}

#[test]
fn an_inserted_line_takes_the_first_place_of_its_name(rt: HostRuntime) {
    let mut lines = made(
        &rt,
        rt.alloc(),
        &[
            (b"Host", b"a"),
            (b"X-Id", b"1"),
            (b"Via", b"b"),
            (b"x-id", b"2"),
        ],
    );
    let before = copy(&rt, &lines);
    insert(&rt, &mut lines, b"X-ID", b"3");
    assert!(rt; has_lines(&lines, &[(b"Host", b"a"), (b"X-ID", b"3"), (b"Via", b"b")]));
    insert(&rt, &mut lines, b"Age", b"0");
    assert!(rt;
        has_lines(
            &lines,
            &[
                (b"Host", b"a"),
                (b"X-ID", b"3"),
                (b"Via", b"b"),
                (b"Age", b"0")
            ]
        )
    );
    assert_eq!(rt; count_named(&before, b"X-Id"), 2);
    assert_eq!(rt; last_named(&before, b"X-Id"), Some(b"2".as_slice()));
}

#[test]
fn a_removed_name_is_gone_in_any_case(rt: HostRuntime) {
    let mut lines = made(
        &rt,
        rt.alloc(),
        &[(b"etag", b"1"), (b"Host", b"a"), (b"ETag", b"2")],
    );
    assert_eq!(rt; get(&lines, b"ETAG"), Some(b"1".as_slice()));
    assert!(rt; remove(&mut lines, b"eTag"));
    assert!(rt; !remove(&mut lines, b"eTag"));
    assert!(rt; has_lines(&lines, &[(b"Host", b"a")]));
    assert!(rt; contains(&lines, b"host") && !is_empty(&lines));
}

#[test]
fn a_content_length_is_one_number_in_all_its_parts(rt: HostRuntime) {
    let cases: [(&[&[u8]], ContentLength); 14] = [
        (&[], ContentLength::Absent),
        (&[b"5"], ContentLength::Number(5)),
        (&[b"5", b"05"], ContentLength::Number(5)),
        (&[b"42,\t42 "], ContentLength::Number(42)),
        (&[b"00000000000000000000007"], ContentLength::Number(7)),
        (&[b"18446744073709551615"], ContentLength::Number(u64::MAX)),
        (&[b"18446744073709551616"], ContentLength::Bad),
        (&[b"5", b"6"], ContentLength::Bad),
        (&[b"5,"], ContentLength::Bad),
        (&[b""], ContentLength::Bad),
        (&[b"+3"], ContentLength::Bad),
        (&[b"-1"], ContentLength::Bad),
        (&[b"0x1a"], ContentLength::Bad),
        (&[b"5 5"], ContentLength::Bad),
    ];
    for (values, expected) in cases {
        let lines = of_name(&rt, rt.alloc(), b"content-length", values);
        assert_eq!(rt; content_length(&lines), expected, "{values:?}");
    }
}

#[test]
fn the_last_coding_decides(rt: HostRuntime) {
    let cases: [(&[&[u8]], bool); 7] = [
        (&[], false),
        (&[b""], false),
        (&[b"chunked"], true),
        (&[b"gzip, Chunked"], true),
        (&[b"gzip", b"chunked", b" ,"], true),
        (&[b"chunked, gzip"], false),
        (&[b"chunked", b"identity"], false),
    ];
    for (values, expected) in cases {
        let lines = of_name(&rt, rt.alloc(), b"Transfer-Encoding", values);
        assert_eq!(rt; is_chunked_last(&lines), expected, "{values:?}");
        assert_eq!(rt; has_transfer_encoding(&lines), !values.is_empty());
    }
}

#[test]
fn connection_options_stand_in_any_line_and_case(rt: HostRuntime) {
    let cases: [(&[&[u8]], bool, bool); 5] = [
        (&[], false, false),
        (&[b"Keep-Alive, Upgrade"], false, true),
        (&[b"upgrade", b"foo,CLOSE"], true, false),
        (&[b"close", b"keep-alive"], true, true),
        (&[b"closed", b"keep alive"], false, false),
    ];
    for (values, close, keep_alive) in cases {
        let lines = of_name(&rt, rt.alloc(), b"connection", values);
        assert_eq!(rt; lists_close(&lines), close, "{values:?}");
        assert_eq!(rt; lists_keep_alive(&lines), keep_alive, "{values:?}");
    }
}

/// So many bytes `v`, up to 130.
fn text(rt: &impl Abort, len: usize) -> &'static [u8] {
    const TEXT: &[u8] = &[b'v'; 130];
    assert!(rt; len <= TEXT.len());
    &TEXT[..len]
}

/// Six lines with values of this length, or a byte longer.
fn six(rt: &impl Abort, alloc: Global, room: usize, len: usize) -> Lines {
    let mut lines = none(rt, alloc, room);
    for n in 0..6u8 {
        let value = text(rt, len.saturating_add(n as usize % 2));
        append(rt, &mut lines, &[b'X', b'a' + n], value);
    }
    lines
}

#[test]
fn lines_of_any_length_stand_beside_each_other(rt: HostRuntime) {
    for length in [0, 1, 22, 23, 30, 31, 62, 63, 64, 129] {
        for room in [0, 1, 3, 4, 65] {
            let lines = six(&rt, rt.alloc(), room, length);
            for n in 0..6u8 {
                let value = get(&lines, &[b'x', b'A' + n]);
                let expected = text(&rt, length.saturating_add(n as usize % 2));
                assert_eq!(rt; value, Some(expected), "{length} {room} {n}");
            }
            assert_eq!(rt; len(&lines), 6);
        }
    }
}

#[test]
fn a_name_is_found_in_any_case_and_no_other_is_taken_for_it(rt: HostRuntime) {
    let cases: [(&[u8], &[u8], bool); 7] = [
        (b"Content-Length", b"CONTENT-LENGTH", true),
        (b"x-id", b"X-Id", true),
        (b"X", b"Content-Length", false),
        (b"Rev", b"Transfer-Encoding", false),
        (b"Content-Lengths", b"Content-Length", false),
        (b"", b"", true),
        (b"", b"Host", false),
    ];
    for (name, asked, expected) in cases {
        let mut lines = new(rt.alloc());
        append(&rt, &mut lines, name, b"5");
        assert_eq!(rt; contains(&lines, asked), expected, "{name:?} {asked:?}");
        assert_eq!(rt; count_all(&lines, asked), expected as usize);
        assert_eq!(rt; count_named(&lines, asked), expected as usize);
        assert!(rt; !is_chunked_last(&lines));
    }
}

/// The name of the line with this number.
fn name_of(n: u8) -> [u8; 3] {
    [
        b'X',
        b'a'.saturating_add(n / 26),
        b'a'.saturating_add(n % 26),
    ]
}

/// So many lines, each of a name of its own.
fn numbered(rt: &impl Abort, alloc: Global, count: u8) -> Lines {
    let mut lines = new(alloc);
    for n in 0..count {
        append(rt, &mut lines, &name_of(n), &[n]);
    }
    lines
}

/// Adds a number, where it isn't gone.
fn add_number(rt: &impl Abort, left: &mut Vec<u8>, n: u8, gone: &[u8]) {
    if !gone.contains(&n) {
        left.push(n).expect(rt, "memory");
    }
}

/// The numbers of these lines but for some that are gone.
fn numbers(rt: &impl Abort, alloc: Global, count: u8, gone: &[u8]) -> Vec<u8> {
    let mut left = Vec::new(alloc);
    for n in 0..count {
        add_number(rt, &mut left, n, gone);
    }
    left
}

/// These are so many numbered lines but for some that are gone.
fn has_all_but(rt: &impl Abort, alloc: Global, lines: &Lines, count: u8, gone: &[u8]) {
    let left = numbers(rt, alloc, count, gone);
    assert!(rt; has_numbers(lines, &left), "{count} {gone:?}");
}

/// A line of this name has this value.
fn has(rt: &impl Abort, lines: &Lines, name: &[u8], value: &[u8]) {
    assert_eq!(rt; get(lines, name), Some(value), "{name:?}");
}

/// A copy to which a line was added.
fn with_one_more(rt: &impl Abort, first: &Lines) -> Lines {
    let mut added = copy(rt, first);
    append(rt, &mut added, b"Age", b"0");
    added
}

/// A copy in which the line with the number 1 has another value.
fn with_another(rt: &impl Abort, first: &Lines) -> Lines {
    let mut replaced = copy(rt, first);
    insert(rt, &mut replaced, b"xAB", b"7");
    replaced
}

/// The line of this name goes.
fn take_out(rt: &impl Abort, lines: &mut Lines, name: &[u8]) {
    assert!(rt; remove(lines, name));
    assert!(rt; !contains(lines, name));
}

/// A copy without the line of this name.
fn without(rt: &impl Abort, first: &Lines, name: &[u8]) -> Lines {
    let mut removed = copy(rt, first);
    take_out(rt, &mut removed, name);
    removed
}

/// Lines and three copies that were changed are each as they should be.
fn changes_stay_apart(rt: &(impl Abort + AllocGlobal), count: u8) {
    let first = numbered(rt, rt.alloc(), count);
    let added = with_one_more(rt, &first);
    let replaced = with_another(rt, &first);
    let removed = without(rt, &first, b"XAB");
    has_all_but(rt, rt.alloc(), &first, count, &[]);
    assert_eq!(rt; len(&added), count as usize + 1);
    has(rt, &added, b"age", b"0");
    assert_eq!(rt; len(&replaced), count as usize);
    has(rt, &replaced, b"XAB", b"7");
    has_all_but(rt, rt.alloc(), &removed, count, &[1]);
}

#[test]
fn a_change_is_not_seen_by_other_owners(rt: HostRuntime) {
    for count in [3u8, 63, 64, 65, 66] {
        changes_stay_apart(&rt, count);
    }
}

/// Lines of which there is a copy are changed, and then a second copy: all three are as they should
/// be.
fn removals_stay_apart(rt: &(impl Abort + AllocGlobal), count: u8) {
    let mut first = numbered(rt, rt.alloc(), count);
    let whole = copy(rt, &first);
    take_out(rt, &mut first, b"Xaa");
    let mut second = without(rt, &first, b"Xac");
    assert!(rt; !contains(&second, b"Xaa"));
    has_all_but(rt, rt.alloc(), &first, count, &[0]);
    has_all_but(rt, rt.alloc(), &second, count, &[0, 2]);
    append(rt, &mut second, b"Xaa", b"last");
    insert(rt, &mut first, b"Xac", b"2");
    ends_with(rt, &second, b"Xaa", b"last");
    assert_eq!(rt; first_line(&second), first_line(&first));
    has(rt, &first, b"XAC", b"2");
    has_all_but(rt, rt.alloc(), &whole, count, &[]);
}

/// The last line has this name and this value.
fn ends_with(rt: &impl Abort, lines: &Lines, name: &[u8], value: &[u8]) {
    assert_eq!(rt; last_line(lines), Some((name, value)));
}

#[test]
fn a_removal_from_shared_lines_stays_with_its_copies(rt: HostRuntime) {
    for count in [3u8, 64, 65] {
        removals_stay_apart(&rt, count);
    }
}
