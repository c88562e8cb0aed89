//! Modules that note, as the tests meet them: a list of them, those of an exchange, and what each
//! filter leaves.
use super::noting::{
    NEVER, Note, Noting, REQUEST_BODY, REQUEST_HEADER, RESPONSE_BODY, RESPONSE_HEADER,
    RESPONSE_TRAILER,
};
use bytes::Bytes;
use h1_error::{Error, ErrorType};
use h1_head::{Fields, RequestHeader, ResponseHeader};
use h1_modules::{HttpModuleCtx, HttpModules};
use std::marker::Model;
use std::process::Abort;

/// A list of modules that note. Contracts see nothing of it: a test would carry what they say from
/// call to call, and needs none of it.
#[derive(Drop)]
pub(crate) struct Notings {
    pub(crate) modules: HttpModules<Noting>,
}

impl Model for Notings {
    ghost Value = { Unit {0} };

    ghost view = { λ _. tt };
}

/// The modules of an exchange. Contracts see nothing of them either.
#[derive(Drop)]
pub(crate) struct Notes {
    pub(crate) context: HttpModuleCtx<Note>,
}

impl Model for Notes {
    ghost Value = { Unit {0} };

    ghost view = { λ _. tt };
}

/// What the answer is to one more module.
pub(crate) fn add(listed: &mut Notings, added: Noting) -> Option<Error> {
    listed.modules.add_module(added).err()
}

pub(crate) fn nothing_listed(rt: &impl AllocGlobal) -> Notings {
    let modules = HttpModules::new(rt.alloc());
    Notings { modules }
}

/// Modules of these orders and names, added so.
pub(crate) fn listed(rt: &(impl Abort + AllocGlobal), orders: &[i16], names: &[u8]) -> Notings {
    let mut listed = nothing_listed(rt);
    for (order, name) in orders.iter().zip(names) {
        assert_eq!(rt; add(&mut listed, Noting::new(*order, *name, NEVER)), None);
    }
    listed
}

/// The modules of an exchange that begins.
pub(crate) fn begun(rt: &(impl Abort + AllocGlobal), listed: &Notings) -> Notes {
    let context = listed
        .modules
        .build_ctx(rt.alloc())
        .expect(rt, "the modules of an exchange");
    Notes { context }
}

/// The names that the modules wrote into a body, and none where there is no body.
pub(crate) fn names_in_piece(rt: &(impl Abort + AllocGlobal), piece: Option<Bytes>) -> Vec<u8> {
    let piece = piece.unwrap_or(Bytes::new());
    let mut names = Vec::new(rt.alloc());
    push_names(rt, &mut names, piece.as_slice());
    names
}

/// The names that the modules wrote into field lines.
fn names_in_lines(rt: &(impl Abort + AllocGlobal), fields: &Fields) -> Vec<u8> {
    let mut names = Vec::new(rt.alloc());
    for value in fields.get_all(b"note") {
        push_names(rt, &mut names, value);
    }
    names
}

fn push_names(rt: &impl Abort, names: &mut Vec<u8>, more: &[u8]) {
    names
        .extend_from_slice(more)
        .expect(rt, "memory for the names");
}

/// The answer of a filter, and the names that the modules left in what went through it.
pub(crate) type Left = (Option<Error>, Vec<u8>);

pub(crate) fn left_in_request(rt: &(impl Abort + AllocGlobal), notes: &mut Notes) -> Left {
    let mut req = request(rt);
    let answer = notes.context.request_header_filter(rt.alloc(), &mut req);
    (answer.err(), names_in_lines(rt, req.fields()))
}

pub(crate) fn left_in_request_body(
    rt: &(impl Abort + AllocGlobal),
    notes: &mut Notes,
    body: Option<Bytes>,
) -> Left {
    let mut body = body;
    let answer = notes
        .context
        .request_body_filter(rt.alloc(), &mut body, false);
    (answer.err(), names_in_piece(rt, body))
}

fn left_in_response(rt: &(impl Abort + AllocGlobal), notes: &mut Notes) -> Left {
    let mut resp = response(rt);
    let answer = notes
        .context
        .response_header_filter(rt.alloc(), &mut resp, true);
    (answer.err(), names_in_lines(rt, resp.fields()))
}

/// A request of no lines.
pub(crate) fn request(rt: &impl AllocGlobal) -> RequestHeader {
    RequestHeader::new(rt.alloc())
}

/// A response of no lines.
pub(crate) fn response(rt: &(impl Abort + AllocGlobal)) -> ResponseHeader {
    ResponseHeader::build(rt.alloc(), 200, None).expect(rt, "a response")
}

fn left_in_response_body(rt: &(impl Abort + AllocGlobal), notes: &mut Notes) -> Left {
    let mut body = Some(Bytes::new());
    let answer = notes
        .context
        .response_body_filter(rt.alloc(), &mut body, false);
    (answer.err(), names_in_piece(rt, body))
}

fn left_in_trailers(rt: &(impl Abort + AllocGlobal), notes: &mut Notes) -> Left {
    let mut trailers = Some(Fields::new(rt.alloc()));
    let answer = notes
        .context
        .response_trailer_filter(rt.alloc(), &mut trailers);
    let lines = trailers.expect(rt, "the trailers stay");
    (answer.err(), names_in_lines(rt, &lines))
}

/// The names of the modules that were told that the response is done.
fn left_at_the_end(rt: &(impl Abort + AllocGlobal), notes: &mut Notes) -> Left {
    let error = end(rt, notes);
    let mut told = Vec::new(rt.alloc());
    for name in b"abc" {
        if is_told(notes, *name) {
            told.push(*name).expect(rt, "memory for the names");
        }
    }
    (error, told)
}

/// What the modules answer as the response is done.
fn end(rt: &impl AllocGlobal, notes: &mut Notes) -> Option<Error> {
    notes.context.response_done_filter(rt.alloc()).err()
}

/// Whether the module was told that the response is done.
fn is_told(notes: &Notes, name: u8) -> bool {
    match notes.context.get(u32::from(name)) {
        Some(note) => note.told,
        None => false,
    }
}

pub(crate) fn left_in(rt: &(impl Abort + AllocGlobal), filter: u8, notes: &mut Notes) -> Left {
    match filter {
        REQUEST_HEADER => left_in_request(rt, notes),
        REQUEST_BODY => left_in_request_body(rt, notes, Some(Bytes::new())),
        RESPONSE_HEADER => left_in_response(rt, notes),
        RESPONSE_BODY => left_in_response_body(rt, notes),
        RESPONSE_TRAILER => left_in_trailers(rt, notes),
        _ => left_at_the_end(rt, notes),
    }
}

pub(crate) fn refusal(name: u8) -> Error {
    Error::from(ErrorType::ModuleFailed(u32::from(name)))
}
