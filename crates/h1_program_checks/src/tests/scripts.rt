//! The exit statuses as a caller of the program meets them.
use super::status_of;
use h1_link::{MemAcceptor, MemSink, MemSource, SetClock};
use std::marker::Model;
use std::process::Abort;
use std::sync::Wait;
use std::thread::Threads;

/// What the program reads and writes. Contracts see nothing of it: a test would carry what they say
/// from call to call, and needs none of it.
#[derive(Drop)]
pub(crate) struct Streams {
    source: MemSource,
    sink: MemSink,
}

impl Model for Streams {
    ghost Value = { Unit {0} };

    ghost view = { λ _. tt };
}

/// A source of these bytes, and a sink that took nothing.
pub(crate) fn streams_of(rt: &(impl Abort + AllocGlobal), bytes: &[u8]) -> Streams {
    Streams {
        source: MemSource::new(rt.alloc(), bytes).expect(rt, "memory"),
        sink: MemSink::new(rt.alloc()),
    }
}

/// Lets the next read of the source fail.
fn fail_source(streams: &mut Streams) {
    streams.source.fail_next();
}

/// Lets the next write to the sink fail.
fn fail_sink(streams: &mut Streams) {
    streams.sink.fail_next();
}

/// The bytes that the sink took.
pub(crate) fn written(streams: &Streams) -> &[u8] {
    streams.sink.written()
}

/// Whether all of them were flushed.
fn is_flushed(streams: &Streams) -> bool {
    streams.sink.is_flushed()
}

/// The status with which the program ends on these words.
pub(crate) fn ran(
    rt: &(impl Wait + Threads + Abort + AllocGlobal + Sync + Send + Clone + Drop),
    streams: &mut Streams,
    words: &[&str],
) -> u8 {
    let mut net = MemAcceptor::new(rt.alloc());
    let mut clock = SetClock::new(0);
    let Streams { source, sink } = streams;
    status_of(rt, words, source, sink, &mut net, &mut clock)
}

const ONE_REQUEST: &[u8] =
    b"give POST /p HTTP/1.1\\r\\nConnection: close\\r\\nContent-Length: 3\\r\\n\\r\\nabc\nend\npoll 0\n";

const REPORT: &[u8] = b"poll 0: not kept\n\
request POST /p HTTP/1.1\n\
field Connection: close\n\
field Content-Length: 3\n\
body 3 abc\n\
wrote 106 HTTP/1.1 200 OK\\r\\ncontent-length: 11\\r\\nDate: Thu, 01 Jan 1970 00:00:00 GMT\\r\\nConnection: close\\r\\n\\r\\nPOST /p\\nabc\n";

#[test]
fn a_request_is_reported_and_the_status_is_0(rt: HostRuntime) {
    let mut streams = streams_of(&rt, ONE_REQUEST);
    assert_eq!(rt; ran(&rt, &mut streams, &["script"]), 0);
    assert_eq!(rt; written(&streams), REPORT);
    assert!(rt; is_flushed(&streams));
}

#[test]
fn words_that_are_no_task_have_status_2(rt: HostRuntime) {
    let usage = b"usage: h1_serve script | gen N | sub | listen PORT COUNT\n";
    let cases: [&[&str]; 5] = [
        &[],
        &["gen"],
        &["gen", "x"],
        &["gen", "20001"],
        &["gen", "1", "2"],
    ];
    for words in cases {
        let mut streams = streams_of(&rt, ONE_REQUEST);
        assert_eq!(rt; ran(&rt, &mut streams, words), 2);
        assert_eq!(rt; written(&streams), usage.as_slice());
    }
}

#[test]
fn made_requests_are_told_in_numbers_and_the_status_is_0(rt: HostRuntime) {
    let cases: [(&str, &[u8]); 2] = [
        ("3", b"requests 3\nbody bytes 5\nwritten 327\nfinished\n"),
        ("0", b"requests 0\nbody bytes 0\nwritten 0\nfinished\n"),
    ];
    for (number, text) in cases {
        let mut streams = streams_of(&rt, ONE_REQUEST);
        assert_eq!(rt; ran(&rt, &mut streams, &["gen", number]), 0);
        assert_eq!(rt; written(&streams), text);
        assert!(rt; is_flushed(&streams));
    }
}

#[test]
fn a_sink_that_fails_under_gen_has_status_5(rt: HostRuntime) {
    let mut streams = streams_of(&rt, b"");
    fail_sink(&mut streams);
    assert_eq!(rt; ran(&rt, &mut streams, &["gen", "3"]), 5);
}

#[test]
fn a_line_outside_of_the_grammar_has_status_3(rt: HostRuntime) {
    let mut streams = streams_of(&rt, b"poll 5\npoll 4\n");
    assert_eq!(rt; ran(&rt, &mut streams, &["script"]), 3);
    assert_eq!(rt; written(&streams), b"line 2\n".as_slice());
}

#[test]
fn a_source_that_fails_has_status_4_and_a_sink_5(rt: HostRuntime) {
    let mut streams = streams_of(&rt, ONE_REQUEST);
    fail_source(&mut streams);
    assert_eq!(rt; ran(&rt, &mut streams, &["script"]), 4);
    fail_sink(&mut streams);
    assert_eq!(rt; ran(&rt, &mut streams, &["script"]), 5);
}
