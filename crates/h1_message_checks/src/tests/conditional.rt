//! Conditional requests (RFC 9110, section 13), dates, and replies that tell an error, by example.
use super::replies::{
    self, Replied, append, bad_gateway, bad_request, count_lines, is_not_modified, lines_of,
    make_304, of_error, status, with_lines,
};
use super::requests::{self, with_line};
use h1_error::{Error, ErrorType, HeadFault};
use std::alloc::Global;
use std::process::Abort;

/// A reply with a tag and the date of RFC 9110, section 5.6.7.
fn replied(rt: &impl Abort, alloc: Global, status: u16) -> Replied {
    with_lines(
        rt,
        alloc,
        status,
        &[
            (b"ETag", b"\"a\""),
            (b"Last-Modified", b"Sun, 06 Nov 1994 08:49:37 GMT"),
        ],
    )
}

/// A method, a status, the name and the value of a line, and whether the reply needn't be sent.
type Asking<'a> = (&'a [u8], u16, &'a [u8], &'a [u8], bool);

fn askings<'a>() -> &'a [Asking<'a>] {
    &ASKINGS
}

static ASKINGS: [(&[u8], u16, &[u8], &[u8], bool); 14] = [
    (b"GET", 200, b"If-None-Match", b"W/\"a\"", true),
    (b"POST", 200, b"If-None-Match", b"W/\"a\"", true),
    (b"GET", 206, b"If-None-Match", b"W/\"a\"", false),
    (b"GET", 200, b"If-None-Match", b"\"b\"", false),
    (b"GET", 200, b"If-None-Match", b"*", true),
    (
        b"GET",
        200,
        b"If-Modified-Since",
        b"Sun, 06 Nov 1994 08:49:37 GMT",
        true,
    ),
    (
        b"HEAD",
        200,
        b"If-Modified-Since",
        b"Sunday, 06-Nov-94 08:49:37 GMT",
        true,
    ),
    (
        b"GET",
        200,
        b"If-Modified-Since",
        b"Sun Nov  6 08:49:37 1994",
        true,
    ),
    (
        b"GET",
        200,
        b"If-Modified-Since",
        b"Sun, 06 Nov 1994 08:49:36 GMT",
        false,
    ),
    (
        b"GET",
        304,
        b"If-Modified-Since",
        b"Sun, 06 Nov 1994 08:49:37 GMT",
        false,
    ),
    (
        b"POST",
        200,
        b"If-Modified-Since",
        b"Sun, 06 Nov 1994 08:49:37 GMT",
        false,
    ),
    (b"GET", 200, b"If-Modified-Since", b"yesterday", false),
    (b"GET", 200, b"If-Match", b"\"a\"", false),
    (
        b"GET",
        200,
        b"If-Unmodified-Since",
        b"Sun, 06 Nov 1994 08:49:37 GMT",
        false,
    ),
];

#[test]
fn a_reply_that_still_stands_needs_no_sending(rt: HostRuntime) {
    for &(method, status, name, value, expected) in askings() {
        let asked = with_line(&rt, rt.alloc(), method, name, value);
        let replied = replied(&rt, rt.alloc(), status);
        let found = is_not_modified(&asked, &replied);
        assert_eq!(rt; found, expected, "{name:?} {value:?} {status}");
    }
}

/// Whether a reply of this date needn't be sent to a request with this one.
fn is_still(rt: &impl Abort, alloc: Global, since: &[u8], last: &[u8]) -> bool {
    let asked = with_line(rt, alloc, b"GET", b"If-Modified-Since", since);
    let replied = with_lines(rt, alloc, 200, &[(b"Last-Modified", last)]);
    is_not_modified(&asked, &replied)
}

#[test]
fn a_later_change_is_sent(rt: HostRuntime) {
    let first = b"Fri, 26 Mar 2010 00:03:00 GMT";
    let later = b"Fri, 26 Mar 2010 00:05:00 GMT";
    assert!(rt; !is_still(&rt, rt.alloc(), first, later));
    assert!(rt; is_still(&rt, rt.alloc(), first, first));
    assert!(rt; is_still(&rt, rt.alloc(), later, first));
}

#[test]
fn a_tag_that_is_asked_for_counts_before_a_date(rt: HostRuntime) {
    let date = b"Sun, 06 Nov 1994 08:49:37 GMT";
    let mut asked = with_line(&rt, rt.alloc(), b"GET", b"If-Modified-Since", date);
    let replied = replied(&rt, rt.alloc(), 200);
    assert!(rt; is_not_modified(&asked, &replied));
    requests::append(&rt, &mut asked, b"If-None-Match", b"\"b\"");
    assert!(rt; !is_not_modified(&asked, &replied));
    requests::append(&rt, &mut asked, b"if-none-match", b"\"c\", W/\"a\"");
    assert!(rt; is_not_modified(&asked, &replied));
}

/// Values, and the seconds from the start of 1970 that they state, where they are dates.
fn dates<'a>() -> &'a [(&'a [u8], Option<u64>)] {
    &DATES
}

static DATES: [(&[u8], Option<u64>); 10] = [
    // The three forms of RFC 9110, section 5.6.7.
    (b"Sun, 06 Nov 1994 08:49:37 GMT", Some(784_111_777)),
    (b"Sunday, 06-Nov-94 08:49:37 GMT", Some(784_111_777)),
    (b"Sun Nov  6 08:49:37 1994", Some(784_111_777)),
    (b"Thu, 01 Jan 1970 00:00:00 GMT", Some(0)),
    (b"Fri, 31 Dec 9999 23:59:59 GMT", Some(253_402_300_799)),
    (b"Tue, 29 Feb 2000 00:00:00 GMT", Some(951_782_400)),
    (b"Mon, 29 Feb 1999 00:00:00 GMT", None),
    (b"Sun, 06 Nov 1994 08:49:37", None),
    (b"x", None),
    (b"", None),
];

/// What reading a date gives where it states this second, or none.
fn told(second: Option<u64>) -> Result<Option<u64>, Error> {
    match second {
        Some(second) => Ok(Some(second)),
        None => Err(Error::from(ErrorType::InvalidHTTPHeader(HeadFault::BadDate))),
    }
}

#[test]
fn a_value_is_a_date_or_is_refused(rt: HostRuntime) {
    for &(value, second) in dates() {
        let asked = with_line(&rt, rt.alloc(), b"GET", b"Date", value);
        assert_eq!(rt;
            requests::second_of(&asked, b"date"),
            told(second),
            "{value:?}"
        );
        assert_eq!(rt; requests::second_of(&asked, b"age"), Ok(None));
        let replied = with_lines(&rt, rt.alloc(), 200, &[(b"DATE", value)]);
        assert_eq!(rt;
            replies::second_of(&replied, b"Date"),
            told(second),
            "{value:?}"
        );
        assert_eq!(rt; replies::second_of(&replied, b"Dates"), Ok(None));
    }
}

#[test]
fn a_reply_that_still_stands_tells_nothing_of_its_body(rt: HostRuntime) {
    let mut head = replied(&rt, rt.alloc(), 200);
    let told: [&[u8]; 5] = [
        b"Content-Length",
        b"content-type",
        b"Transfer-Encoding",
        b"Content-Encoding",
        b"Accept-Ranges",
    ];
    for name in told {
        append(&mut head, name, b"1").expect(&rt, "a line");
    }
    assert_eq!(rt; count_lines(&head), 7);
    make_304(&mut head);
    assert_eq!(rt; status(&head), 304);
    assert_eq!(rt;
        lines_of(&rt, rt.alloc(), &head).as_slice(),
        b"ETag: \"a\"\r\nLast-Modified: Sun, 06 Nov 1994 08:49:37 GMT\r\n".as_slice()
    );
}

#[test]
fn a_reply_that_tells_an_error_is_kept_by_no_cache(rt: HostRuntime) {
    let head = bad_gateway(&rt, rt.alloc());
    assert_eq!(rt; status(&head), 502);
    assert_eq!(rt;
        lines_of(&rt, rt.alloc(), &head).as_slice(),
        b"Server: Pingora\r\nDate: Sun, 06 Nov 1994 08:49:37 GMT\r\nContent-Length: 0\r\n\
            Cache-Control: private, no-store\r\n"
            .as_slice()
    );
    assert_eq!(rt; status(&bad_request(&rt, rt.alloc())), 400);
}

#[test]
fn a_reply_that_tells_an_error_has_a_status_of_three_digits(rt: HostRuntime) {
    let fault = Error::from(ErrorType::InvalidHTTPHeader(HeadFault::BadStatus));
    for (code, expected) in [
        (99, Err(fault)),
        (100, Ok(4)),
        (503, Ok(4)),
        (999, Ok(4)),
        (1_000, Err(fault)),
    ] {
        assert_eq!(rt; of_error(rt.alloc(), code), expected, "{code}");
    }
}
