//! Lines and their parts (RFC 9112, sections 2.2, 5.1 and 5.2).
ghost use Rattle.std.specs.Prelude.{◌≡◌, ◌<◌, ◌∷◌, IfSome, length, option_map};
ghost use Rattle.h1_cut.specs.Lines.{is_empty};
ghost use Rattle.h1_head.specs.Normal.{is_continuation, parts_at, without_cr};
ghost use Rattle.h1_head.specs.Pieces.{parts_behind};

use h1_fields::is_ows;

/// Whether nothing or one CR stands before the line's LF.
pub(crate) fn is_empty_line(line: &[u8]) -> bool
    ensures { result ≡ is_empty line.now }
{
    match line {
        [] => true,
        [byte] => *byte == b'\r',
        _ => false,
    }
}

/// Whether the line goes on with the one before it.
pub(crate) fn is_continuation(line: &[u8]) -> bool
    ensures { result ≡ is_continuation line.now }
{
    match line.split_first() {
        Some((first, _)) => is_ows(*first),
        None => false,
    }
}

/// The line without the CR of its end.
pub(crate) fn without_cr(line: &[u8]) -> &[u8]
    ensures { result.now ≡ without_cr line.now }
{
    match line.split_last() {
        Some((last, front)) if *last == b'\r' => front,
        _ => line,
    }
}

/// What stands before the first place of a byte, and what stands behind it where there is one.
pub(crate) fn around(bytes: &[u8], byte: u8) -> (&[u8], Option<&[u8]>)
    ensures parts { parts_at byte bytes.now
        ≡ result.0.now ∷ parts_behind byte (option_map (λ behind. behind.now) result.1) }
    ensures behind { IfSome result.1 (λ behind. length behind.now < length bytes.now) }
{
    for (at, other) in bytes.iter().enumerate() {
        if *other == byte {
            return (&bytes[..at], Some(&bytes[at + 1..]));
        }
    }
    (bytes, None)
}
