//! Printable text read as the bytes that it stands for.
ghost use Rattle.std.specs.Prelude.{◌≡◌, ◌++◌, OnOk, IfOk, ◌<◌};
ghost use Rattle.h1_words.specs.ByteText.{unescape_plain, unescape_backslash, hex_byte, unescape, yielded, may_end, bytes_of_text};

use crate::Text;
use crate::escape::is_printable;
use h1_error::Error;
use std::alloc::Global;

/// How far a text is read.
#[derive(Clone, Copy, Debug)]
pub enum Unescaping {
    /// No byte of it is read.
    Start,
    /// The last byte made this byte whole.
    Byte(u8),
    /// The last byte is the `\` of an escape.
    Backslash,
    /// The last byte is the `x` after it.
    Hex,
    /// The last byte is this one, in the place of the first digit after `\x`.
    HexDigit(u8),
    /// No text begins so.
    Broken,
}

/// The bytes that a text stands for, or nothing where it isn't one.
pub(crate) fn bytes_of_text(alloc: Global, text: &[u8]) -> Result<Option<Text>, Error>
    ensures { IfOk result (λ bytes. bytes ≡ bytes_of_text text.now) }
{
    let mut bytes = Text::new(alloc);
    let mut state = Unescaping::Start;
    for byte in text {
        state = unescape(state, *byte);
        push_yielded(&mut bytes, state)?;
    }
    if may_end(state) {
        Ok(Some(bytes))
    } else {
        Ok(None)
    }
}

fn unescape(state: Unescaping, byte: u8) -> Unescaping
    ensures { result ≡ unescape state byte }
{
    match state {
        Unescaping::Start | Unescaping::Byte(_) => unescape_plain(byte),
        Unescaping::Backslash => unescape_backslash(byte),
        Unescaping::Hex => Unescaping::HexDigit(byte),
        Unescaping::HexDigit(high) => hex_byte(high, byte),
        Unescaping::Broken => Unescaping::Broken,
    }
}

fn unescape_plain(byte: u8) -> Unescaping
    ensures { result ≡ unescape_plain byte }
{
    if byte == b'\\' {
        Unescaping::Backslash
    } else if is_printable(byte) {
        Unescaping::Byte(byte)
    } else {
        Unescaping::Broken
    }
}

fn unescape_backslash(byte: u8) -> Unescaping
    ensures { result ≡ unescape_backslash byte }
{
    match byte {
        b'r' => Unescaping::Byte(b'\r'),
        b'n' => Unescaping::Byte(b'\n'),
        b'\\' => Unescaping::Byte(b'\\'),
        b'x' => Unescaping::Hex,
        _ => Unescaping::Broken,
    }
}

fn hex_byte(high: u8, low: u8) -> Unescaping
    ensures { result ≡ hex_byte high low }
{
    match (char::from(high).to_digit(16), char::from(low).to_digit(16)) {
        (Some(high), Some(low)) => Unescaping::Byte((high * 16 + low) as u8),
        _ => Unescaping::Broken,
    }
}

fn push_yielded(bytes: &mut Text, state: Unescaping) -> Result<(), Error>
    ensures { OnOk result (bytes.new ≡ bytes.old ++ yielded state) }
{
    match state {
        Unescaping::Byte(byte) => bytes.push(&[byte]),
        _ => Ok(()),
    }
}

fn may_end(state: Unescaping) -> bool
    ensures { result ≡ may_end state }
{
    matches!(state, Unescaping::Start | Unescaping::Byte(_))
}
