//! Field lines, and the calls of them.
use h1_fields::{ContentLength, Fields};
use std::alloc::Global;
use std::marker::Model;
use std::process::Abort;

pub(super) type Line<'a> = (&'a [u8], &'a [u8]);

/// Field lines, of which contracts see nothing.
#[derive(Drop)]
pub(super) struct Lines {
    fields: Fields,
}

impl Model for Lines {
    ghost Value = { Unit {0} };

    ghost view = { λ _. tt };
}

/// No line, and room for so many.
pub(super) fn none(rt: &impl Abort, alloc: Global, room: usize) -> Lines {
    let fields = Fields::with_capacity(alloc, room).expect(rt, "memory");
    Lines { fields }
}

/// No line.
pub(super) fn new(alloc: Global) -> Lines {
    let fields = Fields::new(alloc);
    Lines { fields }
}

pub(super) fn copy(rt: &impl Abort, lines: &Lines) -> Lines {
    let fields = lines.fields.copy().expect(rt, "memory");
    Lines { fields }
}

pub(super) fn append(rt: &impl Abort, lines: &mut Lines, name: &[u8], value: &[u8]) {
    lines.fields.append(name, value).expect(rt, "memory");
}

pub(super) fn insert(rt: &impl Abort, lines: &mut Lines, name: &[u8], value: &[u8]) {
    lines.fields.insert(name, value).expect(rt, "memory");
}

pub(super) fn remove(lines: &mut Lines, name: &[u8]) -> bool {
    lines.fields.remove(name)
}

pub(super) fn get<'a>(lines: &'a Lines, name: &[u8]) -> Option<&'a [u8]> {
    lines.fields.get(name)
}

pub(super) fn contains(lines: &Lines, name: &[u8]) -> bool {
    lines.fields.contains(name)
}

/// How many lines have this name.
pub(super) fn count_named(lines: &Lines, name: &[u8]) -> usize {
    lines.fields.count_named(name)
}

/// How many values of this name are gone through.
pub(super) fn count_all(lines: &Lines, name: &[u8]) -> usize {
    let mut count = 0usize;
    for _ in lines.fields.get_all(name) {
        count = count.saturating_add(1);
    }
    count
}

/// The last value of this name.
pub(super) fn last_named<'a>(lines: &'a Lines, name: &'a [u8]) -> Option<&'a [u8]> {
    lines.fields.get_all(name).last()
}

pub(super) fn first_line(lines: &Lines) -> Option<Line> {
    lines.fields.iter().next()
}

pub(super) fn last_line(lines: &Lines) -> Option<Line> {
    lines.fields.iter().last()
}

pub(super) fn len(lines: &Lines) -> usize {
    lines.fields.len()
}

pub(super) fn is_empty(lines: &Lines) -> bool {
    lines.fields.is_empty()
}

pub(super) fn content_length(lines: &Lines) -> ContentLength {
    lines.fields.content_length()
}

pub(super) fn is_chunked_last(lines: &Lines) -> bool {
    lines.fields.is_chunked_last()
}

pub(super) fn has_transfer_encoding(lines: &Lines) -> bool {
    lines.fields.has_transfer_encoding()
}

pub(super) fn lists_close(lines: &Lines) -> bool {
    lines.fields.lists_close()
}

pub(super) fn lists_keep_alive(lines: &Lines) -> bool {
    lines.fields.lists_keep_alive()
}

/// Whether these are all the lines.
pub(super) fn has_lines(lines: &Lines, wanted: &[Line]) -> bool {
    len(lines) == wanted.len()
        && lines
            .fields
            .iter()
            .zip(wanted)
            .all(|(have, want)| have == *want)
}

/// Whether the values are these numbers, of a byte each.
pub(super) fn has_numbers(lines: &Lines, numbers: &[u8]) -> bool {
    len(lines) == numbers.len()
        && lines
            .fields
            .iter()
            .zip(numbers)
            .all(|((_, value), number)| value == [*number].as_slice())
}
