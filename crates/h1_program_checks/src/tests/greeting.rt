//! What the peer of a connection that greets sees.
use super::{Outcome, outcome_of};
use h1_error::End;
use h1_greeting::{greet, greet_stamped};
use std::process::Abort;

/// Two requests in one piece.
const REQUESTS: &[u8] = b"GET / HTTP/1.1\r\n\r\nGET /again HTTP/1.1\r\n\r\n";

/// What a peer that sends these bytes is greeted with.
fn greeted(rt: &(impl Abort + AllocGlobal), given: &[u8]) -> Outcome {
    outcome_of(rt, greet(rt.alloc(), given).expect(rt, "memory"))
}

/// The same where each reply is stamped.
fn greeted_stamped(rt: &(impl Abort + AllocGlobal), given: &[u8]) -> Outcome {
    outcome_of(rt, greet_stamped(rt.alloc(), given).expect(rt, "memory"))
}

#[test]
fn two_requests_in_one_piece_are_greeted(rt: HostRuntime) {
    let outcome = greeted(&rt, REQUESTS);
    assert_eq!(rt; outcome.end, Some(End::Finished));
    assert_eq!(rt; outcome.exchanges, 2);
    assert_eq!(rt;
        outcome.written.as_slice(),
        b"HTTP/1.1 200 OK\r\ncontent-length: 6\r\nDate: Thu, 01 Jan 1970 00:00:00 GMT\r\n\
            Connection: keep-alive\r\n\r\nhello\n\
            HTTP/1.1 200 OK\r\ncontent-length: 6\r\nDate: Thu, 01 Jan 1970 00:00:00 GMT\r\n\
            Connection: keep-alive\r\n\r\nhello\n"
            .as_slice()
    );
}

#[test]
fn each_header_is_stamped(rt: HostRuntime) {
    let outcome = greeted_stamped(&rt, REQUESTS);
    assert_eq!(rt; outcome.end, Some(End::Finished));
    assert_eq!(rt; outcome.exchanges, 2);
    assert_eq!(rt;
        outcome.written.as_slice(),
        b"HTTP/1.1 200 OK\r\ncontent-length: 6\r\nx-served-by: greeting\r\n\
            Date: Thu, 01 Jan 1970 00:00:00 GMT\r\nConnection: keep-alive\r\n\r\nhello\n\
            HTTP/1.1 200 OK\r\ncontent-length: 6\r\nx-served-by: greeting\r\n\
            Date: Thu, 01 Jan 1970 00:00:00 GMT\r\nConnection: keep-alive\r\n\r\nhello\n"
            .as_slice()
    );
}
