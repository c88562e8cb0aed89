//! Modules in a connection: what becomes of a request and of its reply.
use crate::tests::acts::{ACTS, Acts, BODY, HEADER, REQUEST};
use crate::tests::play::Step::*;
use crate::tests::play::{Row, play};
use crate::tests::served::{ECHO, Server};
use h1_app::{End, Error, ErrorType};
use std::process::Abort;

/// A connection behind these modules whose peer sends these bytes and no more ends so, and its peer
/// was sent these.
fn expect<'a>(
    rt: &(impl Abort + AllocGlobal),
    shows: &'a str,
    modules: &'a [Acts],
    given: &'a [u8],
    (end, sent): (End, &'a [u8]),
) {
    let row = Row {
        shows,
        server: Server { modules, ..ECHO },
        steps: &[Give(given), NoMore, Ends(end), Wrote(sent)],
    };
    play(rt, &row);
}

const TWO: &[u8] = b"GET /a HTTP/1.1\r\n\r\nGET /b HTTP/1.1\r\n\r\n";

const SECOND: Acts = Acts { key: 2, ..ACTS };

const THIRD: Acts = Acts { key: 3, ..ACTS };

const IN_REQUEST: Acts = Acts {
    key: 7,
    refuses_at: REQUEST,
    ..ACTS
};

const IN_HEADER: Acts = Acts {
    key: 7,
    refuses_at: HEADER,
    ..ACTS
};

const IN_BODY: Acts = Acts {
    key: 7,
    refuses_at: BODY,
    ..ACTS
};

const REFUSED: End = End::Failed(Error {
    kind: ErrorType::ModuleFailed(7),
    retry: false,
});

/// What the peer was sent before a refusal in the filter of a body.
const HEAD: &[u8] =
    b"HTTP/1.1 200 OK\r\ncontent-length: 7\r\nx-acts: more\r\nx-acts: more\r\nx-acts: more\r\n\
        Date: Thu, 01 Jan 1970 00:00:00 GMT\r\nConnection: keep-alive\r\n\r\n";

/// Three modules of which one refuses, and what the peer was sent before.
const REFUSALS: &[([Acts; 3], &[u8])] = &[
    ([IN_REQUEST, SECOND, THIRD], b""),
    ([ACTS, IN_REQUEST, THIRD], b""),
    ([ACTS, SECOND, IN_REQUEST], b""),
    ([IN_HEADER, SECOND, THIRD], b""),
    ([ACTS, IN_HEADER, THIRD], b""),
    ([ACTS, SECOND, IN_HEADER], b""),
    ([IN_BODY, SECOND, THIRD], HEAD),
    ([ACTS, IN_BODY, THIRD], HEAD),
    ([ACTS, SECOND, IN_BODY], HEAD),
];

#[test]
fn a_refusal_ends_the_connection_where_it_comes(rt: HostRuntime) {
    for (modules, sent) in REFUSALS {
        expect(&rt, "refusals", modules, TWO, (REFUSED, sent));
    }
}

/// Requests, why the connection ended behind them, and what the peer was sent, with one module that
/// puts its line alone.
const TOLD: &[(&[u8], End, &[u8])] = &[
    // Each exchange begins with a new module.
    (
        b"GET /a HTTP/1.1\r\n\r\nGET /b HTTP/1.1\r\n\r\n",
        End::Finished,
        b"HTTP/1.1 200 OK\r\ncontent-length: 7\r\nx-acts: more\r\n\
            Date: Thu, 01 Jan 1970 00:00:00 GMT\r\nConnection: keep-alive\r\n\r\nGET /a\n\
            HTTP/1.1 200 OK\r\ncontent-length: 7\r\nx-acts: more\r\n\
            Date: Thu, 01 Jan 1970 00:00:00 GMT\r\nConnection: keep-alive\r\n\r\nGET /b\n",
    ),
    // The application's body is told of, whatever goes of it.
    (
        b"HEAD /a HTTP/1.1\r\n\r\n",
        End::Finished,
        b"HTTP/1.1 200 OK\r\ncontent-length: 8\r\nx-acts: more\r\n\
            Date: Thu, 01 Jan 1970 00:00:00 GMT\r\nConnection: keep-alive\r\n\r\n",
    ),
    (
        b"POST /p HTTP/1.1\r\nTransfer-Encoding: chunked\r\n\r\nZZ\r\n",
        End::Failed(Error {
            kind: ErrorType::InvalidBody,
            retry: false,
        }),
        b"HTTP/1.1 400 Bad Request\r\ncontent-length: 0\r\nx-acts: end\r\n\
            Date: Thu, 01 Jan 1970 00:00:00 GMT\r\nConnection: close\r\n\r\n",
    ),
];

#[test]
fn a_header_is_filtered_once_and_told_whether_a_body_follows(rt: HostRuntime) {
    for (given, end, sent) in TOLD {
        expect(&rt, "lines", &[ACTS], given, (*end, sent));
    }
}

const BLANKS: Acts = Acts {
    blanks: true,
    ..ACTS
};

/// Requests that are blanked, why the connection ended, and what the peer was sent.
const BLANKED: &[(&[u8], End, &[u8])] = &[
    (
        b"GET /a HTTP/1.1\r\nConnection: close\r\n\r\n",
        End::NotKept,
        b"HTTP/1.1 200 OK\r\ncontent-length: 5\r\nx-acts: more\r\n\
            Date: Thu, 01 Jan 1970 00:00:00 GMT\r\nConnection: close\r\n\r\nGET \n",
    ),
    (
        b"HEAD /a HTTP/1.1\r\n\r\n",
        End::Finished,
        b"HTTP/1.1 200 OK\r\ncontent-length: 5\r\nx-acts: more\r\n\
            Date: Thu, 01 Jan 1970 00:00:00 GMT\r\nConnection: keep-alive\r\n\r\n",
    ),
    (
        b"POST /p HTTP/1.1\r\nContent-Length: 3\r\n\r\nabcGET /a HTTP/1.0\r\n\r\n",
        End::NotKept,
        b"HTTP/1.1 200 OK\r\ncontent-length: 8\r\nx-acts: more\r\n\
            Date: Thu, 01 Jan 1970 00:00:00 GMT\r\nConnection: keep-alive\r\n\r\nGET \nabc\
            HTTP/1.1 200 OK\r\ncontent-length: 5\r\nx-acts: more\r\n\
            Date: Thu, 01 Jan 1970 00:00:00 GMT\r\nConnection: close\r\n\r\nGET \n",
    ),
];

#[test]
fn the_application_is_given_what_filters_made_of_the_head(rt: HostRuntime) {
    for (given, end, sent) in BLANKED {
        expect(&rt, "blanked heads", &[BLANKS], given, (*end, sent));
    }
}

const SHORT: End = End::Failed(Error {
    kind: ErrorType::PrematureBodyEnd,
    retry: false,
});

const EMPTIES: Acts = Acts {
    empties: true,
    ..ACTS
};

const EXCLAIMS: Acts = Acts {
    exclaims: true,
    ..ACTS
};

/// A request, what becomes of the reply's body, why the connection ended, and what the peer was
/// sent.
const CHANGED: &[(&[u8], Acts, End, &[u8])] = &[
    (
        b"GET /a HTTP/1.1\r\n\r\n",
        EMPTIES,
        SHORT,
        b"HTTP/1.1 200 OK\r\ncontent-length: 7\r\nx-acts: more\r\n\
            Date: Thu, 01 Jan 1970 00:00:00 GMT\r\nConnection: keep-alive\r\n\r\n",
    ),
    (
        b"GET /chunk HTTP/1.1\r\n\r\n",
        EMPTIES,
        End::Finished,
        b"HTTP/1.1 200 OK\r\ntransfer-encoding: chunked\r\nx-acts: more\r\n\
            Date: Thu, 01 Jan 1970 00:00:00 GMT\r\nConnection: keep-alive\r\n\r\n0\r\n\r\n",
    ),
    (
        b"GET /a HTTP/1.1\r\n\r\n",
        EXCLAIMS,
        End::Finished,
        b"HTTP/1.1 200 OK\r\ncontent-length: 7\r\nx-acts: more\r\n\
            Date: Thu, 01 Jan 1970 00:00:00 GMT\r\nConnection: keep-alive\r\n\r\nGET /a\n",
    ),
    (
        b"GET /short HTTP/1.1\r\n\r\n",
        EXCLAIMS,
        End::Finished,
        b"HTTP/1.1 200 OK\r\ncontent-length: 12\r\nx-acts: more\r\n\
            Date: Thu, 01 Jan 1970 00:00:00 GMT\r\nConnection: keep-alive\r\n\r\nGET /short\n!",
    ),
    (
        b"GET /chunk HTTP/1.1\r\n\r\n",
        EXCLAIMS,
        End::Finished,
        b"HTTP/1.1 200 OK\r\ntransfer-encoding: chunked\r\nx-acts: more\r\n\
            Date: Thu, 01 Jan 1970 00:00:00 GMT\r\nConnection: keep-alive\r\n\r\n\
            C\r\nGET /chunk\n!\r\n0\r\n\r\n",
    ),
    // Nothing goes of a body that was empty before the filters.
    (
        b"POST /p HTTP/1.1\r\nTransfer-Encoding: chunked\r\n\r\nZZ\r\n",
        EXCLAIMS,
        End::Failed(Error {
            kind: ErrorType::InvalidBody,
            retry: false,
        }),
        b"HTTP/1.1 400 Bad Request\r\ncontent-length: 0\r\nx-acts: end\r\n\
            Date: Thu, 01 Jan 1970 00:00:00 GMT\r\nConnection: close\r\n\r\n",
    ),
];

#[test]
fn what_filters_made_of_a_body_goes_out(rt: HostRuntime) {
    for (given, changes, end, sent) in CHANGED {
        expect(&rt, "changed bodies", &[*changes], given, (*end, sent));
    }
}
