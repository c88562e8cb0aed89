//! The places of field lines in one text.
ghost use Rattle.std.specs.Prelude.{◌≡◌, ◌≤◌, ◌++◌, length, drop, take, IfOk, IsOkUnless, MatchOption};
ghost use Rattle.httparse.specs.Spans.{IsHeaderWithin, span_bytes};
ghost use Rattle.h1_error.specs.Memory.{no_memory};
ghost use Rattle.h1_fields.specs.declared.span.TheConstants.{MAX_TEXT};
ghost use Rattle.h1_fields.specs.Lines.{is_named, without};
ghost use Rattle.h1_fields.specs.Search.{HasNone, IsFirstAt};
ghost use Rattle.h1_fields.specs.Spans.{AllFit, Fits, IsPlaceOf, line_of, lines_of};

use crate::name::is_same_name;
use crate::text::Text;
use h1_error::Error;
use httparse::spans::HeaderSpan;
use smallvec::SmallVec;
use std::alloc::AllocError;

/// How many bytes a text has at most that lines lie in. A longer one is refused as one that there
/// is no memory for.
pub(crate) const MAX_TEXT: usize = 0xFFFF_FFFF;

/// How many places a block of lines has in itself.
pub(crate) const FEW_LINES: usize = 4;

/// The places of field lines. Few need no block of memory of their own.
pub(crate) type Places = SmallVec<Span, FEW_LINES>;

/// The place of one line in a text: where its name and its value start and end.
#[derive(Clone, Copy, Debug, Default)]
pub(crate) struct Span {
    name: u32,
    name_end: u32,
    value: u32,
    value_end: u32,
}

impl Span {
    /// The place of a line that the parser found in the text.
    #[inline(always)]
    pub(crate) fn of_header(span: HeaderSpan, text: &[u8]) -> Span
        requires within { IsHeaderWithin (length text.now) span }
        requires short { length text.now ≤ MAX_TEXT }
        ensures { IsPlaceOf text.now (span_bytes text.now span.name)
            (span_bytes text.now span.value) result }
    {
        Span {
            name: span.name.start as u32,
            name_end: span.name.end as u32,
            value: span.value.start as u32,
            value_end: span.value.end as u32,
        }
    }

    /// The place of a line whose name is the front of the text, and whose value stands behind it.
    #[inline(always)]
    pub(crate) fn from_start(middle: usize, end: usize) -> Span
        requires ordered { middle ≤ end }
        requires short { end ≤ MAX_TEXT }
        ensures { result ≡ record { name = 0; name_end = middle; value = middle; value_end = end } }
    {
        Span {
            name: 0,
            name_end: middle as u32,
            value: middle as u32,
            value_end: end as u32,
        }
    }

    /// Copies the line to the end of the text. With an error a part of it may be there.
    #[inline(always)]
    pub(crate) fn write(text: &mut Text, name: &[u8], value: &[u8]) -> Result<Span, Error>
        ensures ok { IfOk result (IsPlaceOf text.new name.now value.now) }
        ensures err { IsOkUnless result no_memory }
        ensures kept { take (length text.old) text.new ≡ text.old }
    {
        let start = text.len();
        text.append(name)?;
        let middle = text.len();
        text.append(value)?;
        let end = text.len();
        if end > MAX_TEXT {
            return Err(Error::from(AllocError));
        }
        Ok(Span {
            name: start as u32,
            name_end: middle as u32,
            value: middle as u32,
            value_end: end as u32,
        })
    }

    #[inline(always)]
    pub(crate) fn name<'a>(self, text: &'a [u8]) -> &'a [u8]
        requires { Fits (length text.now) self }
        ensures { result.now ≡ (line_of text.now self).0 }
    {
        &text[self.name as usize..self.name_end as usize]
    }

    #[inline(always)]
    pub(crate) fn value<'a>(self, text: &'a [u8]) -> &'a [u8]
        requires { Fits (length text.now) self }
        ensures { result.now ≡ (line_of text.now self).1 }
    {
        &text[self.value as usize..self.value_end as usize]
    }

    /// Whether the line has this name, in any case.
    #[inline(always)]
    pub(crate) fn is_named(self, text: &[u8], name: &[u8]) -> bool
        requires { Fits (length text.now) self }
        ensures { result ≡ is_named name.now (line_of text.now self) }
    {
        is_same_name(name, self.name(text))
    }
}

/// The place of the first line of that name.
pub(crate) fn first_named(text: &[u8], spans: &[Span], name: &[u8]) -> Option<usize>
    requires { AllFit text.now spans.now }
    ensures { MatchOption result (HasNone name.now (lines_of text.now spans.now))
        (IsFirstAt name.now (lines_of text.now spans.now)) }
{
    for (at, span) in spans.iter().enumerate() {
        if span.is_named(text, name) {
            return Some(at);
        }
    }
    None
}

/// Removes the lines of that name from the place `start` on.
pub(crate) fn remove_named(text: &[u8], spans: &mut Places, start: usize, name: &[u8])
    requires start { start ≤ length spans.old.items }
    requires fit { AllFit text.now spans.old.items }
    ensures lines { lines_of text.now spans.new.items
        ≡ lines_of text.now (take start spans.old.items)
        ++ without name.now (lines_of text.now (drop start spans.old.items)) }
    ensures fit { AllFit text.now spans.new.items }
    ensures front { start ≤ length spans.new.items }
{
    let mut at = start;
    while at < spans.len() {
        if spans.as_slice()[at].is_named(text, name) {
            spans.remove(at);
        } else {
            at += 1;
        }
    }
}
