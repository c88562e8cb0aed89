//! Sources, sinks, acceptors, dialers and clocks, as their callers use them.
ghost use Rattle.std.specs.Prelude.{◌<◌, length};

use super::{Tried, gives, shut_down};
use h1_link::{
    Acceptor, Clock, DialStep, Dialer, MemAcceptor, MemDialer, MemLink, MemSink, MemSource,
    SetClock, Sink, SinkStep, Source, SourceStep, StdSink, StdSource, SystemClock, TcpAcceptor,
};
use std::marker::Model;
use std::process::Abort;

/// A source. Contracts see nothing of it.
#[derive(Drop)]
struct Reader<S: Source + Drop> {
    source: S,
}

impl<S: Source + Drop> Model for Reader<S> {
    ghost Value = { Unit {0} };

    ghost view = { λ _. tt };
}

/// What a read of the source into this buffer answers.
fn read_source<S: Source + Drop>(reader: &mut Reader<S>, buf: &mut [u8]) -> SourceStep
    requires { 0 < length buf.old }
{
    reader.source.read(buf)
}

/// A sink. Contracts see nothing of it.
#[derive(Drop)]
struct Writer<S: Sink + Drop> {
    sink: S,
}

impl<S: Sink + Drop> Model for Writer<S> {
    ghost Value = { Unit {0} };

    ghost view = { λ _. tt };
}

/// What a write of this piece to the sink answers.
fn write_sink<S: Sink + Drop>(writer: &mut Writer<S>, piece: &[u8]) -> SinkStep {
    writer.sink.write(piece)
}

/// Whether a flush of the sink succeeds.
fn flush_sink<S: Sink + Drop>(writer: &mut Writer<S>) -> bool {
    writer.sink.flush()
}

#[test]
fn a_source_gives_its_bytes_and_ends(rt: HostRuntime) {
    let source = MemSource::new(rt.alloc(), b"poll 0\n").expect(&rt, "memory");
    let mut reader = Reader { source };
    let mut buf = [0u8; 5];
    reader.source.fail_next();
    assert_eq!(rt; read_source(&mut reader, &mut buf), SourceStep::Failed);
    assert_eq!(rt; read_source(&mut reader, &mut buf), SourceStep::Got(5));
    assert_eq!(rt; buf.as_slice(), b"poll ".as_slice());
    assert_eq!(rt; read_source(&mut reader, &mut buf), SourceStep::Got(2));
    assert_eq!(rt; read_source(&mut reader, &mut buf), SourceStep::End);
    reader.source.rule();
}

/// Lets the next write or flush of the sink fail.
fn fail_next(writer: &mut Writer<MemSink>) {
    writer.sink.fail_next();
}

fn is_flushed(writer: &Writer<MemSink>) -> bool {
    writer.sink.is_flushed()
}

fn written(writer: &Writer<MemSink>) -> &[u8] {
    writer.sink.written()
}

#[test]
fn a_sink_keeps_what_it_took(rt: HostRuntime) {
    let mut writer = Writer {
        sink: MemSink::new(rt.alloc()),
    };
    assert!(rt; is_flushed(&writer));
    assert_eq!(rt; write_sink(&mut writer, b"finished"), SinkStep::Took(8));
    fail_next(&mut writer);
    assert_eq!(rt; write_sink(&mut writer, b"\n"), SinkStep::Failed);
    assert_eq!(rt; write_sink(&mut writer, b"\n"), SinkStep::Took(1));
    fail_next(&mut writer);
    assert!(rt; !flush_sink(&mut writer));
    assert!(rt; !is_flushed(&writer));
    assert!(rt; flush_sink(&mut writer));
    assert!(rt; is_flushed(&writer));
    assert_eq!(rt; written(&writer), b"finished\n".as_slice());
}

#[test]
fn the_standard_streams_are_read_and_written(rt: HostRuntime) {
    let mut reader = Reader {
        source: StdSource::new(&rt),
    };
    let mut writer = Writer {
        sink: StdSink::new(rt.clone().expect(&rt, "a runtime")),
    };
    let mut buf = [0u8; 8];
    assert_eq!(rt; read_source(&mut reader, &mut buf), SourceStep::End);
    assert_eq!(rt; write_sink(&mut writer, b"written\n"), SinkStep::Took(8));
    assert!(rt; flush_sink(&mut writer));
}

/// The link of an acceptor that holds a port behind a fault, and has one link that gives these bytes.
fn accepted(rt: &(impl Abort + AllocGlobal), bytes: &[u8]) -> (MemAcceptor, Tried<MemLink>) {
    let mut acceptor = MemAcceptor::new(rt.alloc());
    acceptor.fail_bind();
    assert!(rt; !acceptor.bind(80));
    assert!(rt; acceptor.bind(80));
    let mut link = MemLink::new(rt.alloc());
    link.give(bytes).expect(rt, "memory");
    acceptor.plan(link).expect(rt, "memory");
    let link = acceptor.accept().expect(rt, "a link");
    assert!(rt; acceptor.accept().is_none());
    (acceptor, Tried { link })
}

#[test]
fn an_acceptor_hands_out_its_links_in_order(rt: HostRuntime) {
    let (mut acceptor, mut link) = accepted(&rt, b"GET");
    gives(&rt, &mut link, 8, b"GET");
    shut_down(&mut link);
    acceptor.hand_back(link.link);
}

/// The link of a dial that succeeded.
pub(crate) fn connected<L: Drop>(step: DialStep<L>) -> Option<L> {
    match step {
        DialStep::Connected(link) => Some(link),
        _ => None,
    }
}

#[test]
fn a_dialer_answers_what_was_planned_and_fails_after_it(rt: HostRuntime) {
    let mut dialer = MemDialer::new(rt.alloc());
    dialer.plan(DialStep::NotReady).expect(&rt, "memory");
    dialer
        .plan(DialStep::Connected(MemLink::new(rt.alloc())))
        .expect(&rt, "memory");
    assert!(rt; matches!(dialer.poll_dial(1), DialStep::NotReady));
    assert!(rt; connected(dialer.poll_dial(1)).is_some());
    assert!(rt; matches!(dialer.poll_dial(1), DialStep::Failed));
}

#[test]
fn a_clock_stands_where_it_was_set(rt: HostRuntime) {
    let mut clock = SetClock::new(7);
    assert_eq!(rt; clock.now(), 7);
    clock.set(60_000);
    assert_eq!(rt; clock.now(), 60_000);
}

#[test]
fn the_runtimes_clock_is_past_the_year_2000(rt: HostRuntime) {
    let mut clock = SystemClock::new(rt.clone().expect(&rt, "a runtime"));
    let first = clock.now();
    assert!(rt; first > 946_684_800_000);
    assert!(rt; first <= clock.now());
}

/// What is handed to a thread.
fn sent<T: Send>(value: T) -> T {
    value
}

#[test]
fn an_acceptor_is_sent_to_a_thread(rt: HostRuntime) {
    let mut memory = sent(MemAcceptor::new(rt.alloc()));
    assert!(rt; memory.accept().is_none());
    let mut tcp = sent(TcpAcceptor::new(rt.clone().expect(&rt, "a runtime")));
    assert!(rt; tcp.accept().is_none());
}
