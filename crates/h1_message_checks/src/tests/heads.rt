//! Heads by example.
use super::replies::{
    append, append_length, bytes_of, clear, count_bytes, count_lines, date_at, first_date, insert,
    into_bytes, is_of_http_11, lines_of, nothing, phrase, print, push, pushed, remove, set_length,
    set_phrase, set_status, status_fault, with_lines,
};
use super::requests::{
    Asked, add_host, authority, bare, copy_to, ends_stream, first_line, line_of, method,
    method_fault, of_other_types, roomy, set_ends_stream, set_version, target, wire_of,
};
use super::{replies, requests};
use h1_error::{Error, ErrorType, HeadFault};
use http::Version;
use std::alloc::Global;
use std::process::Abort;

fn refused(fault: HeadFault) -> Error {
    Error::from(ErrorType::InvalidHTTPHeader(fault))
}

/// A request with one line.
fn request(rt: &impl Abort, alloc: Global) -> Asked {
    let mut asked = bare(rt, alloc, b"GET", b"/x");
    add_host(rt, &mut asked, b"a");
    asked
}

#[test]
fn a_request_is_written_with_its_line_and_fields(rt: HostRuntime) {
    let mut asked = request(&rt, rt.alloc());
    let wire = wire_of(&rt, &asked).expect(&rt, "a request line");
    assert_eq!(rt;
        wire.as_slice(),
        b"GET /x HTTP/1.1\r\nHost: a\r\n\r\n".as_slice()
    );
    let copy = requests::copy(&rt, &asked);
    assert_eq!(rt; line_of(&copy, b"host"), Some(b"a".as_slice()));
    set_version(&mut asked, Version::HTTP_3);
    assert!(rt; wire_of(&rt, &asked).is_none());
    let spaced = roomy(&rt, rt.alloc(), b"/a b", 1);
    assert!(rt; wire_of(&rt, &spaced).is_none());
}

#[test]
fn the_flag_is_for_http_2(rt: HostRuntime) {
    let mut asked = bare(&rt, rt.alloc(), b"POST", b"/");
    assert_eq!(rt; ends_stream(&asked), None);
    set_version(&mut asked, Version::HTTP_2);
    assert_eq!(rt; ends_stream(&asked), Some(true));
    set_ends_stream(&mut asked, false);
    assert_eq!(rt; ends_stream(&asked), Some(false));
}

#[test]
fn parts_that_are_none_are_refused(rt: HostRuntime) {
    assert_eq!(rt;
        method_fault(rt.alloc(), b"G T"),
        Some(refused(HeadFault::BadMethod))
    );
    assert_eq!(rt;
        status_fault(rt.alloc(), 99),
        Some(refused(HeadFault::BadStatus))
    );
    let mut head = replies::bare(&rt, rt.alloc(), 200);
    assert_eq!(rt;
        set_status(&mut head, 1000),
        Err(refused(HeadFault::BadStatus))
    );
    assert_eq!(rt;
        append(&mut head, b"a:", b"x\r\ny"),
        Err(refused(HeadFault::BadName))
    );
    assert_eq!(rt;
        insert(&mut head, b"a", b"x\r\ny"),
        Err(refused(HeadFault::BadValue))
    );
    assert_eq!(rt;
        set_phrase(&mut head, b"a\0"),
        Err(refused(HeadFault::BadValue))
    );
    assert_eq!(rt; count_lines(&head), 0);
}

#[test]
fn a_reply_gets_date_and_connection(rt: HostRuntime) {
    let mut head = with_lines(&rt, rt.alloc(), 200, &[(b"date", b"never")]);
    set_length(&rt, &mut head, 5);
    assert!(rt; is_of_http_11(&head));
    let mut printed = nothing(rt.alloc());
    push(&rt, &mut printed, b"!");
    print(&rt, &head, true, &mut printed);
    assert_eq!(rt;
        bytes_of(&printed),
        b"HTTP/1.1 200 OK\r\nDate: Sun, 06 Nov 1994 08:49:37 GMT\r\nContent-Length: 5\r\n\
            Connection: keep-alive\r\n\r\n"
            .as_slice()
    );
    remove(&mut head, b"Date");
    set_status(&mut head, 299).expect(&rt, "a status");
    replies::set_version(&mut head, Version::HTTP_10);
    assert_eq!(rt;
        pushed(&rt, rt.alloc(), &head).as_slice(),
        b"!HTTP/1.0 299 \r\nContent-Length: 5\r\n\r\n".as_slice()
    );
}

#[test]
fn a_date_is_kept_for_its_second_alone(rt: HostRuntime) {
    let mut dated = first_date();
    let dates = [
        (784_111_777_999, b"Sun, 06 Nov 1994 08:49:37 GMT"),
        (784_111_777_000, b"Sun, 06 Nov 1994 08:49:37 GMT"),
        (784_111_778_000, b"Sun, 06 Nov 1994 08:49:38 GMT"),
        (999, b"Thu, 01 Jan 1970 00:00:00 GMT"),
    ];
    for (now, date) in dates {
        assert_eq!(rt; date_at(&rt, &mut dated, now).as_slice(), date.as_slice());
    }
}

/// Lines of the names that a reply gets, and one whose name only begins as one of these.
fn own_lines<'a>() -> &'a [(&'a [u8], &'a [u8])] {
    &[
        (b"connection", b"upgrade"),
        (b"A", b"1"),
        (b"CONNECTION", b"keep-alive"),
        (b"date", b"never"),
        (b"Dates", b"2"),
        (b"Date", b"ever"),
    ]
}

#[test]
fn date_and_connection_stand_once_in_the_first_places(rt: HostRuntime) {
    let head = with_lines(&rt, rt.alloc(), 404, own_lines());
    assert!(rt; is_of_http_11(&head));
    let mut printed = nothing(rt.alloc());
    print(&rt, &head, false, &mut printed);
    assert_eq!(rt;
        bytes_of(&printed),
        b"HTTP/1.1 404 Not Found\r\nConnection: close\r\nA: 1\r\n\
            Date: Sun, 06 Nov 1994 08:49:37 GMT\r\nDates: 2\r\n\r\n"
            .as_slice()
    );
}

#[test]
fn a_phrase_that_is_set_is_written(rt: HostRuntime) {
    let mut head = replies::bare(&rt, rt.alloc(), 404);
    assert_eq!(rt; phrase(&rt, &head), b"Not Found".as_slice());
    set_phrase(&mut head, b"Gone Fishing").expect(&rt, "a phrase");
    let copy = replies::copy(&rt, &head);
    assert_eq!(rt; phrase(&rt, &copy), b"Gone Fishing".as_slice());
    append(&mut head, b"A", b"1").expect(&rt, "a line");
    let lines = lines_of(&rt, rt.alloc(), &head);
    assert_eq!(rt; lines.as_slice(), b"A: 1\r\n".as_slice());
}

#[test]
fn a_head_is_put_in_the_place_of_another(rt: HostRuntime) {
    let mut place = bare(&rt, rt.alloc(), b"POST", b"/old");
    let asked = request(&rt, rt.alloc());
    copy_to(&rt, &asked, &mut place);
    assert_eq!(rt; method(&place), "GET");
    assert_eq!(rt; target(&place), b"/x".as_slice());
    assert_eq!(rt; line_of(&place, b"host"), Some(b"a".as_slice()));
}

#[test]
fn a_length_is_added_at_the_end(rt: HostRuntime) {
    let mut head = with_lines(&rt, rt.alloc(), 200, &[(b"A", b"1")]);
    append_length(&rt, &mut head, u64::MAX);
    let lines = lines_of(&rt, rt.alloc(), &head);
    assert_eq!(rt;
        lines.as_slice(),
        b"A: 1\r\ncontent-length: 18446744073709551615\r\n".as_slice()
    );
}

#[test]
fn a_buffer_grows_and_is_used_again(rt: HostRuntime) {
    let mut printed = nothing(rt.alloc());
    for _ in 0..100 {
        push(&rt, &mut printed, b"0123456789");
    }
    assert_eq!(rt; count_bytes(&printed), 1_000);
    assert_eq!(rt; bytes_of(&printed).last(), Some(&b'9'));
    clear(&mut printed);
    push(&rt, &mut printed, b"A: 1\r\n");
    let bytes = into_bytes(printed);
    assert_eq!(rt; bytes.as_slice(), b"A: 1\r\n".as_slice());
}

#[test]
fn a_head_of_other_types_keeps_its_target_and_authority(rt: HostRuntime) {
    let cases: [(&str, &[u8], Option<&[u8]>); 4] = [
        ("/x?y", b"/x?y", None),
        ("http://a:1/x", b"/x", Some(b"a:1")),
        ("http://a", b"/", Some(b"a")),
        ("a:443", b"a:443", Some(b"a:443")),
    ];
    for (uri, path, host) in cases {
        let asked = of_other_types(&rt, rt.alloc(), uri);
        assert_eq!(rt; target(&asked), path, "{uri}");
        assert_eq!(rt; authority(&asked), host, "{uri}");
        assert_eq!(rt; method(&asked), "GET");
        assert_eq!(rt;
            first_line(&asked),
            Some((b"x-id".as_slice(), b"1".as_slice()))
        );
    }
}
