//! Illegal request lines and their escapes.
use crate::escape_head;
use std::alloc::Global;
use std::test::Fail;

/// The escape of the head, or nothing where there is none.
fn escaped(alloc: Global, head: &[u8]) -> Result<Vec<u8>, Fail> {
    match escape_head(alloc, head)? {
        Some(escaped) => Ok(escaped),
        None => Ok(Vec::new(alloc)),
    }
}

#[test]
fn the_illegal_bytes_of_a_target_are_escaped(rt: HostRuntime) -> Result<(), Fail> {
    let cases: [(&[u8], &[u8]); 7] = [
        (b"GET /a b HTTP/1.1\r\n\r\n", b"GET /a%20b HTTP/1.1\r\n\r\n"),
        (
            b"GET /\xff\"<> HTTP/1.1\r\n\r\n",
            b"GET /%FF%22%3C%3E HTTP/1.1\r\n\r\n",
        ),
        (
            b"GET /a HTTP/1.1 HTTP/1.1\n\n",
            b"GET /a%20HTTP/1.1 HTTP/1.1\n\n",
        ),
        (b"GET  /a HTTP/1.1\n\n", b"GET %20/a HTTP/1.1\n\n"),
        (b"GET  HTTP/1.1\n\n", b""),
        (b"GET /a HTTP/1.1\n\n", b""),
        (b"\nGET /a b HTTP/1.1\n\n", b""),
    ];
    for (head, expected) in cases {
        assert_eq!(rt; escaped(rt.alloc(), head)?.as_slice(), expected);
    }
    Ok(())
}
