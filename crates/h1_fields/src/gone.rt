//! Which lines of a shared block are gone from one of its owners.
ghost use Rattle.std.specs.Prelude.{◌≡◌, ◌≤◌, length, option_map};
ghost use Rattle.h1_fields.specs.declared.held.TheConstants.{MAX_SHARED_LINES};
ghost use Rattle.h1_fields.specs.Lines.{first_value, values_of};
ghost use Rattle.h1_fields.specs.Living.{hidden, is_shown, living};
ghost use Rattle.h1_fields.specs.Spans.{AllFit, Fits, line_of, lines_of};

use crate::held::MAX_SHARED_LINES;
use crate::iter::{FieldsIter, ValuesIter};
use crate::span::Span;

/// Whether a line is there, by the lowest bit of `gone`, and has this name.
#[inline(always)]
pub(crate) fn is_shown(span: Span, gone: u64, text: &[u8], name: &[u8]) -> bool
    requires { Fits (length text.now) span }
    ensures { result ≡ is_shown name.now gone (line_of text.now span) }
{
    gone % 2 == 0 && span.is_named(text, name)
}

/// The value of the first line of that name that isn't gone.
#[inline(always)]
pub(crate) fn first_value<'a>(
    text: &'a [u8],
    spans: &'a [Span],
    gone: u64,
    name: &[u8],
) -> Option<&'a [u8]>
    requires { AllFit text.now spans.now }
    ensures { option_map (λ value. value.now) result
        ≡ first_value name.now (living gone (lines_of text.now spans.now)) }
{
    let mut left = spans;
    let mut gone = gone;
    while let Some((first, more)) = left.split_first() {
        if is_shown(*first, gone, text, name) {
            return Some(first.value(text));
        }
        left = more;
        gone /= 2;
    }
    None
}

/// How many lines aren't gone.
pub(crate) fn count_lines(text: &[u8], spans: &[Span], gone: u64) -> usize
    requires { AllFit text.now spans.now }
    ensures { result ≡ length (living gone (lines_of text.now spans.now)) }
{
    FieldsIter::new(text, spans, gone).count()
}

/// How many lines of that name aren't gone.
pub(crate) fn count_values(text: &[u8], spans: &[Span], gone: u64, name: &[u8]) -> usize
    requires { AllFit text.now spans.now }
    ensures { result ≡ length (values_of name.now (living gone (lines_of text.now spans.now))) }
{
    ValuesIter::new(name, text, spans, gone).count()
}

/// What tells that the lines of that name are gone too.
pub(crate) fn hide(text: &[u8], spans: &[Span], gone: u64, name: &[u8]) -> u64
    requires fit { AllFit text.now spans.now }
    requires few { length spans.now ≤ MAX_SHARED_LINES }
    ensures { result ≡ hidden name.now gone (lines_of text.now spans.now) }
{
    let Some((first, more)) = spans.split_first() else {
        return gone;
    };
    let behind = hide(text, more, gone / 2, name);
    let bit = if first.is_named(text, name) {
        1
    } else {
        gone % 2
    };
    2 * behind + bit
}
