//! gRPC-web by example (gRPC's PROTOCOL-WEB.md). None of the functions here promises anything: an
//! expectation that isn't met ends the test.
use bytes::Bytes;
use h1_head::{Fields, RequestHeader, ResponseHeader};
use h1_modules::{
    GrpcWeb, GrpcWebBridge, GrpcWebCtx, HttpModuleBuilder, HttpModuleCtx, HttpModules,
};
use std::marker::Model;
use std::process::Abort;

/// A request with these content types.
fn request(rt: &(impl Abort + AllocGlobal), types: &[&[u8]]) -> RequestHeader {
    let mut req = RequestHeader::build(rt.alloc(), b"POST", b"/", None).expect(rt, "a request");
    for value in types {
        put_in_request(rt, &mut req, b"Content-Type", value);
    }
    req
}

fn put_in_request(rt: &impl Abort, req: &mut RequestHeader, name: &[u8], value: &[u8]) {
    req.append_header(name, value).expect(rt, "one more line");
}

fn response(rt: &(impl Abort + AllocGlobal), status: u16, content_type: &[u8]) -> ResponseHeader {
    let mut resp = ResponseHeader::build(rt.alloc(), status, None).expect(rt, "a response");
    put_in_response(rt, &mut resp, b"Content-Type", content_type);
    put_in_response(rt, &mut resp, b"Content-Length", b"0");
    resp
}

fn put_in_response(rt: &impl Abort, resp: &mut ResponseHeader, name: &[u8], value: &[u8]) {
    resp.append_header(name, value).expect(rt, "one more line");
}

/// Trailers of these lines.
fn trailers(rt: &(impl Abort + AllocGlobal), lines: &[(&[u8], &[u8])]) -> Fields {
    let mut fields = Fields::new(rt.alloc());
    for (name, value) in lines {
        put_in_trailers(rt, &mut fields, name, value);
    }
    fields
}

fn put_in_trailers(rt: &impl Abort, fields: &mut Fields, name: &[u8], value: &[u8]) {
    fields.append(name, value).expect(rt, "memory for a line");
}

/// A request with these content types, as a context in this state leaves it.
fn filtered_request(
    rt: &(impl Abort + AllocGlobal),
    state: &mut GrpcWebCtx,
    types: &[&[u8]],
) -> RequestHeader {
    let mut req = request(rt, types);
    state
        .request_header_filter(rt.alloc(), &mut req)
        .expect(rt, "memory for the request");
    req
}

/// A response with this content type, as a context in this state leaves it.
fn filtered_response(
    rt: &(impl Abort + AllocGlobal),
    state: &mut GrpcWebCtx,
    status: u16,
    content_type: &[u8],
) -> ResponseHeader {
    let mut resp = response(rt, status, content_type);
    state
        .response_header_filter(rt.alloc(), &mut resp)
        .expect(rt, "memory for the response");
    resp
}

/// What a context in this state gives for the trailers.
fn filtered_trailers(
    rt: &(impl Abort + AllocGlobal),
    state: &mut GrpcWebCtx,
    fields: &mut Fields,
) -> Option<Bytes> {
    state
        .response_trailer_filter(rt.alloc(), fields)
        .expect(rt, "memory for the frame")
}

/// The first value of the name in a request.
fn in_request<'a>(req: &'a RequestHeader, name: &[u8]) -> Option<&'a [u8]> {
    req.get(name)
}

/// The first value of the name in a response.
fn in_response<'a>(resp: &'a ResponseHeader, name: &[u8]) -> Option<&'a [u8]> {
    resp.get(name)
}

/// The first line of the name in a request has this value.
fn request_has(rt: &impl Abort, req: &RequestHeader, name: &[u8], value: &[u8]) {
    assert_eq!(rt; req.get(name).expect(rt, "a line of the name"), value);
}

/// The first line of the name in a response has this value.
fn response_has(rt: &impl Abort, resp: &ResponseHeader, name: &[u8], value: &[u8]) {
    assert_eq!(rt; resp.get(name).expect(rt, "a line of the name"), value);
}

/// The first trailer of the name has this value.
fn trailers_have(rt: &impl Abort, fields: &Fields, name: &[u8], value: &[u8]) {
    assert_eq!(rt; fields.get(name).expect(rt, "a line of the name"), value);
}

/// Content types of gRPC-web, and what they become.
static WEB_REQUESTS: [(&[u8], &[u8]); 7] = [
    (b"application/grpc-web", b"application/grpc"),
    (b"application/gRPC-web+thrift", b"application/grpc+thrift"),
    (b"APPLICATION/GRPC-WEB-text", b"application/grpc-text"),
    (
        b"application/grpc-web; charset=utf-8",
        b"application/grpc; charset=utf-8",
    ),
    (
        b"Application/gRPC-Web+Proto; Charset=UTF-8",
        b"application/grpc+proto; charset=utf-8",
    ),
    (
        b"application/grpc-web; A=application/grpc-web",
        b"application/grpc; a=application/grpc",
    ),
    (b"application/grpc-web\tx~", b"application/grpc\tx~"),
];

fn web_requests<'a>() -> &'a [(&'a [u8], &'a [u8])] {
    &WEB_REQUESTS
}

/// A request of this content type becomes one of that.
fn becomes_grpc(rt: &(impl Abort + AllocGlobal), given: &[u8], expected: &[u8]) {
    let mut state = GrpcWebCtx::Init;
    let req = filtered_request(rt, &mut state, &[given, b"text/plain"]);
    assert_eq!(rt; (state, req.fields().len()), (GrpcWebCtx::Upgrade, 2));
    request_has(rt, &req, b"content-type", expected);
    request_has(rt, &req, b"te", b"trailers");
}

#[test]
fn a_request_of_grpc_web_becomes_one_of_grpc(rt: HostRuntime) {
    for (given, expected) in web_requests() {
        becomes_grpc(&rt, given, expected);
    }
}

/// A request of these content types stays in this state, and the state stays.
fn stays(rt: &(impl Abort + AllocGlobal), before: GrpcWebCtx, types: &[&[u8]]) {
    let mut state = before;
    let req = filtered_request(rt, &mut state, types);
    assert_eq!(rt; (state, req.fields().len()), (before, types.len()));
    assert_eq!(rt; in_request(&req, b"content-type"), types.first().copied());
}

/// Content types of requests that aren't of gRPC-web.
const OTHER_REQUESTS: [&[&[u8]]; 8] = [
    &[],
    &[b""],
    &[b"application/grpc"],
    &[b"application/grpc-we"],
    &[b" application/grpc-web"],
    &[b"application/grpc-web\xc3\xa9"],
    &[b"application/grpc-web\x7f"],
    &[b"text/plain", b"application/grpc-web"],
];

fn other_requests<'a>() -> &'a [&'a [&'a [u8]]] {
    &OTHER_REQUESTS
}

#[test]
fn other_requests_stay(rt: HostRuntime) {
    for types in other_requests() {
        stays(&rt, GrpcWebCtx::Init, types);
    }
}

/// The states in which a request isn't looked at.
fn states_behind_init<'a>() -> &'a [GrpcWebCtx] {
    &[
        GrpcWebCtx::Disabled,
        GrpcWebCtx::Upgrade,
        GrpcWebCtx::Trailers,
        GrpcWebCtx::Done,
    ]
}

#[test]
fn a_request_is_looked_at_in_init_alone(rt: HostRuntime) {
    for state in states_behind_init() {
        stays(&rt, *state, &[b"application/grpc-web"]);
    }
}

/// Content types of gRPC, and what they become.
static GRPC_RESPONSES: [(&[u8], &[u8]); 4] = [
    (b"application/grpc", b"application/grpc-web"),
    (b"application/grpc+proto", b"application/grpc-web+proto"),
    (
        b"application/grpc; charset=UTF-8",
        b"application/grpc-web; charset=UTF-8",
    ),
    (
        b"application/grpc;a=application/grpc",
        b"application/grpc-web;a=application/grpc-web",
    ),
];

fn grpc_responses<'a>() -> &'a [(&'a [u8], &'a [u8])] {
    &GRPC_RESPONSES
}

/// A response of this content type becomes one of that, in chunks.
fn becomes_grpc_web(rt: &(impl Abort + AllocGlobal), given: &[u8], expected: &[u8]) {
    let mut state = GrpcWebCtx::Upgrade;
    let resp = filtered_response(rt, &mut state, 200, given);
    assert_eq!(rt; (state, resp.fields().len()), (GrpcWebCtx::Trailers, 2));
    response_has(rt, &resp, b"content-type", expected);
    assert!(rt; in_response(&resp, b"content-length").is_none());
    response_has(rt, &resp, b"transfer-encoding", b"chunked");
}

#[test]
fn a_response_of_grpc_becomes_one_of_grpc_web(rt: HostRuntime) {
    for (given, expected) in grpc_responses() {
        becomes_grpc_web(&rt, given, expected);
    }
}

const GRPC: &[u8; 16] = b"application/grpc";

/// Responses that stay: the state before, the status, the content type, and the state behind.
const OTHER_RESPONSES: [(GrpcWebCtx, u16, &[u8], GrpcWebCtx); 11] = [
    (GrpcWebCtx::Upgrade, 100, GRPC, GrpcWebCtx::Upgrade),
    (GrpcWebCtx::Upgrade, 103, GRPC, GrpcWebCtx::Upgrade),
    (GrpcWebCtx::Upgrade, 199, b"text/plain", GrpcWebCtx::Upgrade),
    (
        GrpcWebCtx::Upgrade,
        200,
        b"text/plain",
        GrpcWebCtx::Disabled,
    ),
    (
        GrpcWebCtx::Upgrade,
        200,
        b"Application/grpc",
        GrpcWebCtx::Disabled,
    ),
    (
        GrpcWebCtx::Upgrade,
        200,
        b"application/grpc\x7f",
        GrpcWebCtx::Disabled,
    ),
    (
        GrpcWebCtx::Upgrade,
        404,
        b"application/grpc\xc3\xa9",
        GrpcWebCtx::Disabled,
    ),
    (GrpcWebCtx::Disabled, 200, GRPC, GrpcWebCtx::Disabled),
    (GrpcWebCtx::Init, 200, GRPC, GrpcWebCtx::Init),
    (GrpcWebCtx::Trailers, 200, GRPC, GrpcWebCtx::Trailers),
    (GrpcWebCtx::Done, 200, GRPC, GrpcWebCtx::Done),
];

fn other_responses<'a>() -> &'a [(GrpcWebCtx, u16, &'a [u8], GrpcWebCtx)] {
    &OTHER_RESPONSES
}

/// A response stays in this state, and the state behind it is that one.
fn response_stays(
    rt: &(impl Abort + AllocGlobal),
    before: GrpcWebCtx,
    status: u16,
    content_type: &[u8],
    after: GrpcWebCtx,
) {
    let mut state = before;
    let resp = filtered_response(rt, &mut state, status, content_type);
    assert_eq!(rt; (state, resp.fields().len()), (after, 2));
    response_has(rt, &resp, b"content-type", content_type);
    response_has(rt, &resp, b"content-length", b"0");
}

#[test]
fn other_responses_stay(rt: HostRuntime) {
    for (before, status, content_type, after) in other_responses() {
        response_stays(&rt, *before, *status, content_type, *after);
    }
}

/// Trailers, and their frame.
type Framed<'a> = (&'a [(&'a [u8], &'a [u8])], &'a [u8]);

static FRAMES: [Framed<'static>; 4] = [
    (
        &[(b"grpc-status", b"0"), (b"grpc-message", b"OK")],
        b"\x80\x00\x00\x00\x20grpc-status:0\r\ngrpc-message:OK\r\n",
    ),
    (
        &[(b"Grpc-STATUS", b"13"), (b"X", b" A:b ")],
        b"\x80\x00\x00\x00\x19grpc-status:13\r\nx: A:b \r\n",
    ),
    (
        &[(b"a", b""), (b"A", b"")],
        b"\x80\x00\x00\x00\x08a:\r\na:\r\n",
    ),
    (&[], b"\x80\x00\x00\x00\x00"),
];

fn frames<'a>() -> &'a [Framed<'a>] {
    &FRAMES
}

/// The buffer is this frame.
fn is_frame(rt: &impl Abort, buffer: Option<Bytes>, expected: &[u8]) {
    let frame = buffer.expect(rt, "a frame");
    assert_eq!(rt; frame.as_slice(), expected);
}

/// These trailers become this frame, and stay.
fn become_frame(rt: &(impl Abort + AllocGlobal), lines: &[(&[u8], &[u8])], expected: &[u8]) {
    let mut state = GrpcWebCtx::Trailers;
    let mut fields = trailers(rt, lines);
    is_frame(rt, filtered_trailers(rt, &mut state, &mut fields), expected);
    assert_eq!(rt; (state, fields.len()), (GrpcWebCtx::Done, lines.len()));
}

#[test]
fn trailers_become_the_last_frame(rt: HostRuntime) {
    for (lines, expected) in frames() {
        become_frame(&rt, lines, expected);
    }
}

/// A trailer `x` with a value of 70,000 bytes.
fn long_trailers(rt: &(impl Abort + AllocGlobal)) -> Fields {
    let value = vec![in rt.alloc(); b'v'; 70_000].expect(rt, "memory for a value");
    trailers(rt, &[(b"x", value.as_slice())])
}

#[test]
fn a_frame_tells_its_length_from_the_highest_byte_on(rt: HostRuntime) {
    let mut state = GrpcWebCtx::Trailers;
    let buffer = filtered_trailers(&rt, &mut state, &mut long_trailers(&rt));
    let frame = buffer.expect(&rt, "a frame");
    // 70,004 bytes behind the front: 1 * 65,536 + 17 * 256 + 116.
    assert_eq!(rt; frame.len(), 70_009);
    assert!(rt; frame.as_slice().starts_with(b"\x80\x00\x01\x11\x74x:vv"));
}

/// The states in which trailers give nothing.
fn states_but_trailers<'a>() -> &'a [GrpcWebCtx] {
    &[
        GrpcWebCtx::Disabled,
        GrpcWebCtx::Init,
        GrpcWebCtx::Upgrade,
        GrpcWebCtx::Done,
    ]
}

/// Trailers give nothing in this state, and stay.
fn give_nothing(rt: &(impl Abort + AllocGlobal), before: GrpcWebCtx) {
    let mut state = before;
    let mut fields = trailers(rt, &[(b"grpc-status", b"0")]);
    assert!(rt; filtered_trailers(rt, &mut state, &mut fields).is_none());
    assert_eq!(rt; state, GrpcWebCtx::Disabled);
    trailers_have(rt, &fields, b"grpc-status", b"0");
}

#[test]
fn in_other_states_trailers_give_nothing(rt: HostRuntime) {
    for before in states_but_trailers() {
        give_nothing(&rt, *before);
    }
}

/// A context with the module alone. Contracts see nothing of it: a test would carry what they say
/// from call to call, and needs none of it.
#[derive(Drop)]
struct Bridged {
    context: HttpModuleCtx<GrpcWebBridge>,
}

impl Model for Bridged {
    ghost Value = { Unit {0} };

    ghost view = { λ _. tt };
}

fn new_bridged(rt: &(impl Abort + AllocGlobal)) -> Bridged {
    let mut modules = HttpModules::new(rt.alloc());
    modules.add_module(GrpcWeb).expect(rt, "a first module");
    let context = modules
        .build_ctx(rt.alloc())
        .expect(rt, "the modules of an exchange");
    Bridged { context }
}

/// The module, found by its key, is in this state.
fn is_in(rt: &impl Abort, bridged: &Bridged, state: GrpcWebCtx) {
    let found = bridged.context.get(1).map(|bridge| **bridge);
    assert_eq!(rt; found, Some(state));
}

/// Has the module look at the next request.
fn begin(rt: &impl Abort, bridged: &mut Bridged) {
    bridged
        .context
        .get_mut(1)
        .expect(rt, "the module has this key")
        .init();
}

/// A request of gRPC-web as the module leaves it.
fn take_request(rt: &(impl Abort + AllocGlobal), bridged: &mut Bridged) -> RequestHeader {
    let mut req = request(rt, &[b"application/grpc-web"]);
    let answer = bridged.context.request_header_filter(rt.alloc(), &mut req);
    answer.expect(rt, "memory for the request");
    req
}

/// A response of gRPC goes through the module.
fn take_response(rt: &(impl Abort + AllocGlobal), bridged: &mut Bridged) {
    let mut resp = response(rt, 200, GRPC);
    let answer = bridged
        .context
        .response_header_filter(rt.alloc(), &mut resp, false);
    answer.expect(rt, "memory for the response");
}

/// Whether the module gives a buffer for these trailers.
fn gives_buffer(
    rt: &(impl Abort + AllocGlobal),
    bridged: &mut Bridged,
    trailers: Option<Fields>,
) -> bool {
    let mut trailers = trailers;
    let buffer = bridged
        .context
        .response_trailer_filter(rt.alloc(), &mut trailers);
    buffer.expect(rt, "memory for the frame").is_some()
}

#[test]
fn the_module_begins_disabled(rt: HostRuntime) {
    let mut bridged = new_bridged(&rt);
    is_in(&rt, &bridged, GrpcWebCtx::Disabled);
    assert!(rt; in_request(&take_request(&rt, &mut bridged), b"te").is_none());
    is_in(&rt, &bridged, GrpcWebCtx::Disabled);
}

#[test]
fn the_module_waits_for_trailers(rt: HostRuntime) {
    let mut bridged = new_bridged(&rt);
    begin(&rt, &mut bridged);
    take_request(&rt, &mut bridged);
    take_response(&rt, &mut bridged);
    assert!(rt; !gives_buffer(&rt, &mut bridged, None));
    is_in(&rt, &bridged, GrpcWebCtx::Trailers);
    assert!(rt; gives_buffer(&rt, &mut bridged, Some(Fields::new(rt.alloc()))));
    is_in(&rt, &bridged, GrpcWebCtx::Done);
}

#[test]
fn a_context_is_disabled_until_it_is_begun(rt: HostRuntime) {
    assert_eq!(rt; GrpcWebCtx::default(), GrpcWebCtx::Disabled);
    assert_eq!(rt; *GrpcWebBridge::default(), GrpcWebCtx::Disabled);
    assert_eq!(rt; (GrpcWeb.key(), GrpcWeb.order()), (1, 0));
}
