//! Heads of requests, and what is read of them. Each table is handed out by a function that
//! promises nothing, so that the proof of a test carries none of its rows.
use h1_error::HeadFault;

/// Heads that are accepted: their target as it is read, the number of their fields, and whether
/// Content-Length lines went.
pub(super) fn accepted<'a>() -> &'a [(&'a [u8], &'a [u8], usize, bool)] {
    &ACCEPTED
}

static ACCEPTED: [(&[u8], &[u8], usize, bool); 21] = [
    (b"GET /a HTTP/1.1\r\n\r\n", b"/a", 0, false),
    (b"\r\n\nGET /a HTTP/1.0\n\n", b"/a", 0, false),
    // RFC 9112, sections 3 and 3.2.1 to 3.2.4.
    (
        b"GET /hello.txt HTTP/1.1\r\nUser-Agent: curl/7.64.1\r\nHost: www.example.com\r\n\
          Accept-Language: en, mi\r\n\r\n",
        b"/hello.txt",
        3,
        false,
    ),
    (
        b"GET /where?q=now HTTP/1.1\r\nHost: www.example.org\r\n\r\n",
        b"/where?q=now",
        1,
        false,
    ),
    (
        b"GET http://www.example.org/pub/WWW/TheProject.html HTTP/1.1\r\n\
          Host: www.example.org\r\n\r\n",
        b"http://www.example.org/pub/WWW/TheProject.html",
        1,
        false,
    ),
    (
        b"CONNECT www.example.com:80 HTTP/1.1\r\nHost: www.example.com\r\n\r\n",
        b"www.example.com:80",
        1,
        false,
    ),
    (
        b"OPTIONS * HTTP/1.1\r\nHost: www.example.org:8001\r\n\r\n",
        b"*",
        1,
        false,
    ),
    (
        b"CONNECT [::1]:443 HTTP/1.1\r\nHost: [::1]\r\n\r\n",
        b"[::1]:443",
        1,
        false,
    ),
    (b"CONNECT a:1 HTTP/1.1\r\n\r\n", b"a:1", 0, false),
    // Targets that are escaped.
    (b"GET /a b HTTP/1.1\r\n\r\n", b"/a%20b", 0, false),
    (
        b"GET /\xc3\xa9\"<>\x7f HTTP/1.1\r\n\r\n",
        b"/%C3%A9%22%3C%3E%7F",
        0,
        false,
    ),
    (b"GET /a%20 b HTTP/1.1\r\n\r\n", b"/a%20%20b", 0, false),
    (
        b"GET /a HTTP/1.1 b HTTP/1.1\r\n\r\n",
        b"/a%20HTTP/1.1%20b",
        0,
        false,
    ),
    // Lengths and codings.
    (
        b"POST / HTTP/1.1\r\nContent-Length: 3, 3\r\n\r\n",
        b"/",
        1,
        false,
    ),
    (
        b"POST / HTTP/1.1\r\nContent-Length: 3\r\ncontent-length: 03\r\n\r\n",
        b"/",
        2,
        false,
    ),
    (
        b"POST / HTTP/1.1\r\nContent-Length: 18446744073709551615\r\n\r\n",
        b"/",
        1,
        false,
    ),
    (
        b"POST / HTTP/1.1\r\nTransfer-Encoding: gzip, chunked\r\n\r\n",
        b"/",
        1,
        false,
    ),
    (
        b"POST / HTTP/1.1\r\nTransfer-Encoding: gzip\r\nTransfer-Encoding: , Chunked,\r\n\r\n",
        b"/",
        2,
        false,
    ),
    (
        b"POST / HTTP/1.1\r\nContent-Length: 1, 2\r\nTransfer-Encoding: chunked\r\n\
          Content-Length: x\r\n\r\n",
        b"/",
        1,
        true,
    ),
    // A port of more than 65,535 is none, and the authority parses all the same.
    (
        b"GET http://a:65536/ HTTP/1.1\r\nHost: a:65536\r\n\r\n",
        b"http://a:65536/",
        1,
        false,
    ),
    (b"GET http://a/ HTTP/1.1\r\n\r\n", b"http://a/", 0, false),
];

/// Heads that are refused, each with the first of its faults.
pub(super) fn refused<'a>() -> &'a [(&'a [u8], HeadFault)] {
    &REFUSED
}

static REFUSED: [(&[u8], HeadFault); 25] = [
    (b"\r\nGET /a b HTTP/1.1\r\n\r\n", HeadFault::NotAHead),
    (b"GET  HTTP/1.1\n\n", HeadFault::NotAHead),
    (b"GET /a HTTP/2.0\r\n\r\n", HeadFault::NotAHead),
    (b"GET /a\r\n\r\n", HeadFault::NotAHead),
    (b"GET /a HTTP/1.1\r\nHost : a\r\n\r\n", HeadFault::NotAHead),
    (
        b"GET /a HTTP/1.1\r\n folded: a\r\n\r\n",
        HeadFault::NotAHead,
    ),
    (
        b"GET / HTTP/1.1\nHost: a\nHost: a\nContent-Length: x\n\n",
        HeadFault::DuplicateHost,
    ),
    (b"GET / HTTP/1.1\nHost: u@a\n\n", HeadFault::UserinfoInHost),
    (
        b"GET http://u@a/ HTTP/1.1\nHost: u@a\n\n",
        HeadFault::UserinfoInHost,
    ),
    (b"GET http://u@a/ HTTP/1.1\n\n", HeadFault::UserinfoInTarget),
    (
        b"GET http:/\\/\\other.example/ HTTP/1.1\n\n",
        HeadFault::AmbiguousTarget,
    ),
    (
        b"GET http://a:1:2/x HTTP/1.1\nHost: a:1:2\n\n",
        HeadFault::UnparseableAuthority,
    ),
    (
        b"GET http://a/ HTTP/1.1\nHost: b\n\n",
        HeadFault::HostDiffersFromTarget,
    ),
    (
        b"CONNECT [a[b]:443 HTTP/1.1\nHost: [a[b]:443\n\n",
        HeadFault::AmbiguousConnect,
    ),
    (
        b"CONNECT a:1 HTTP/1.1\nHost: b\n\n",
        HeadFault::ConnectHostDiffers,
    ),
    (
        b"CONNECT https://a.example/ HTTP/1.1\n\n",
        HeadFault::ConnectHostMissing,
    ),
    (b"CONNECT u@a:1 HTTP/1.1\n\n", HeadFault::UserinfoInTarget),
    (
        b"GET / HTTP/1.1\nContent-Length: 1, 2\n\n",
        HeadFault::BadContentLength,
    ),
    (
        b"GET / HTTP/1.1\nContent-Length: 3,\n\n",
        HeadFault::BadContentLength,
    ),
    (
        b"GET / HTTP/1.1\nContent-Length: +3\n\n",
        HeadFault::BadContentLength,
    ),
    (
        b"GET / HTTP/1.1\nContent-Length: 18446744073709551616\n\n",
        HeadFault::BadContentLength,
    ),
    (
        b"GET / HTTP/1.0\nTransfer-Encoding: chunked\n\n",
        HeadFault::CodingOn10,
    ),
    (
        b"GET / HTTP/1.1\nTransfer-Encoding: chunked, gzip\n\n",
        HeadFault::FinalCodingNotChunked,
    ),
    (
        b"GET / HTTP/1.1\nTransfer-Encoding: chunked\nTransfer-Encoding: x\n\n",
        HeadFault::FinalCodingNotChunked,
    ),
    (
        b"GET / HTTP/1.1\nTransfer-Encoding: ,\n\n",
        HeadFault::FinalCodingNotChunked,
    ),
];
