//! Connections over a link in memory, as their caller meets them. None of the functions that call
//! one promises anything: the proof of a test carries nothing from call to call, and an expectation
//! that isn't met ends the test.
mod acts;
mod applications;
mod failing;
mod gathering;
mod generated;
mod links;
mod modules;
mod play;
mod reuse;
mod served;
mod servers;
mod serving;
mod waiting;

const REQUEST: &[u8] = b"GET /a HTTP/1.1\r\n\r\n";

/// The reply of `EchoApp` to `REQUEST`. 99 bytes of it are its head.
const REPLY: &[u8] =
    b"HTTP/1.1 200 OK\r\ncontent-length: 7\r\nDate: Thu, 01 Jan 1970 00:00:00 GMT\r\n\
        Connection: keep-alive\r\n\r\nGET /a\n";

/// The reply without a body to a request that is refused, behind which the connection is closed.
const REFUSED: &[u8] =
    b"HTTP/1.1 400 Bad Request\r\ncontent-length: 0\r\nDate: Thu, 01 Jan 1970 00:00:00 GMT\r\n\
        Connection: close\r\n\r\n";

/// A request whose body lacks a byte.
const CUT_BODY: &[u8] = b"POST /p HTTP/1.1\r\nContent-Length: 3\r\n\r\nab";
