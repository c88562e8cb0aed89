//! What the peer of a connection behind the gate sees.
use super::{Outcome, outcome_of};
use h1_error::{End, ErrorType};
use h1_hello::say_hello;
use std::process::Abort;

/// What a peer that sends these bytes sees.
fn said(rt: &(impl Abort + AllocGlobal), given: &[u8]) -> Outcome {
    outcome_of(rt, say_hello(rt.alloc(), given).expect(rt, "memory"))
}

#[test]
fn hello_is_said_behind_the_gate(rt: HostRuntime) {
    let outcome = said(
        &rt,
        b"GET / HTTP/1.1\r\n\r\nGET /private HTTP/1.1\r\nAuthorization: me\r\n\r\n",
    );
    assert_eq!(rt; outcome.end, Some(End::Finished));
    assert_eq!(rt;
        outcome.written.as_slice(),
        b"HTTP/1.1 200 OK\r\ncontent-length: 6\r\nx-gate: passed\r\n\
            Date: Thu, 01 Jan 1970 00:00:00 GMT\r\nConnection: keep-alive\r\n\r\nhello\n\
            HTTP/1.1 404 Not Found\r\ncontent-length: 9\r\nx-gate: passed\r\n\
            Date: Thu, 01 Jan 1970 00:00:00 GMT\r\nConnection: keep-alive\r\n\r\nnot here\n"
            .as_slice()
    );
}

#[test]
fn the_gate_refuses_a_request_without_a_key(rt: HostRuntime) {
    let outcome = said(&rt, b"GET /private HTTP/1.1\r\n\r\n");
    let Some(End::Failed(error)) = outcome.end else {
        panic!(rt; "not refused");
    };
    assert_eq!(rt; error.kind, ErrorType::ModuleFailed(401));
}
