//! An application or a link that isn't ready.
use crate::tests::play::Step::*;
use crate::tests::play::{Row, play_all};
use crate::tests::served::{App, ECHO, Server};
use crate::tests::{REPLY, REQUEST};
use h1_app::{End, Waiting};

/// The reply without a body to a request that is refused, behind which the connection goes on.
const KEPT: &[u8] =
    b"HTTP/1.1 400 Bad Request\r\ncontent-length: 0\r\nDate: Thu, 01 Jan 1970 00:00:00 GMT\r\n\
        Connection: keep-alive\r\n\r\n";

const ROWS: &[Row<'static>] = &[
    Row {
        shows: "an application that waits by itself is polled again",
        server: Server {
            app: App::Refuses(1),
            ..ECHO
        },
        steps: &[
            Give(REQUEST),
            NoMore,
            Waits(Waiting::App),
            Wrote(b""),
            Ends(End::Finished),
            Wrote(KEPT),
        ],
    },
    Row {
        shows: "a reply goes on at each byte that has to wait",
        server: ECHO,
        steps: &[
            Give(REQUEST),
            NoMore,
            Room(0),
            TakeEach(REPLY),
            Ends(End::Finished),
            Wrote(REPLY),
        ],
    },
    // The read and 63 bytes of the reply are the 64 moves of the first poll.
    Row {
        shows: "a reply that is taken byte by byte is whole",
        server: Server {
            trickles: true,
            ..ECHO
        },
        steps: &[
            Give(REQUEST),
            NoMore,
            Waits(Waiting::Budget),
            WroteFirst(REPLY, 63),
            Waits(Waiting::Write),
            Wrote(REPLY),
            Flushed(0),
            Ends(End::Finished),
            Wrote(REPLY),
            Flushed(106),
        ],
    },
];

#[test]
fn what_had_to_wait_goes_on(rt: HostRuntime) {
    play_all(&rt, ROWS);
}
