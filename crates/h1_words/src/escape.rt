//! Bytes written as printable text.
ghost use Rattle.std.specs.Prelude.{◌≡◌, ◌<◌, ◌++◌, OnOk, OnErr, IfErr, IfOk, length};
ghost use Rattle.std.specs.Char.{digit_char};
ghost use Rattle.h1_words.specs.ByteText.{is_printable, escape, text_of_bytes};
ghost use Rattle.h1_words.specs.Report.{counted_text};
ghost use Rattle.h1_error.specs.Memory.{no_memory};

use crate::Text;
use h1_error::Error;
use std::alloc::Global;

impl Text {
    /// Adds bytes as printable text: CR, LF and `\` as `\r`, `\n` and `\\`, each other byte
    /// outside of 0x20 to 0x7E as `\xhh` with lower-case digits, and every other byte as it is.
    pub fn push_escaped(&mut self, alloc: Global, bytes: &[u8]) -> Result<(), Error>
        ensures ok { OnOk result (self.new ≡ self.old ++ text_of_bytes bytes.now) }
        ensures err { IfErr result (λ error. error ≡ no_memory) }
        ensures kept { OnErr result (self.new ≡ self.old) }
    {
        let text = escaped(alloc, bytes)?;
        self.push(text.as_slice())
    }

    /// Adds the number of the bytes, and after a space the bytes as printable text, where there
    /// are any.
    pub fn push_counted(&mut self, alloc: Global, bytes: &[u8]) -> Result<(), Error>
        ensures ok { OnOk result (self.new ≡ self.old ++ counted_text bytes.now) }
        ensures err { IfErr result (λ error. error ≡ no_memory) }
        ensures kept { OnErr result (self.new ≡ self.old) }
    {
        let text = counted(alloc, bytes)?;
        self.push(text.as_slice())
    }
}

fn counted(alloc: Global, bytes: &[u8]) -> Result<Text, Error>
    ensures ok { IfOk result (λ text. text ≡ counted_text bytes.now) }
    ensures err { IfErr result (λ error. error ≡ no_memory) }
{
    let mut text = Text::new(alloc);
    text.push_number(alloc, bytes.len() as u64)?;
    if !bytes.is_empty() {
        text.push(b" ")?;
        text.push_escaped(alloc, bytes)?;
    }
    Ok(text)
}

fn escaped(alloc: Global, bytes: &[u8]) -> Result<Text, Error>
    ensures ok { IfOk result (λ text. text ≡ text_of_bytes bytes.now) }
    ensures err { IfErr result (λ error. error ≡ no_memory) }
{
    let mut text = Text::new(alloc);
    for byte in bytes {
        push_escape(&mut text, *byte)?;
    }
    Ok(text)
}

fn push_escape(text: &mut Text, byte: u8) -> Result<(), Error>
    ensures ok { OnOk result (text.new ≡ text.old ++ escape byte) }
    ensures err { IfErr result (λ error. error ≡ no_memory) }
{
    match byte {
        b'\r' => text.push(b"\\r"),
        b'\n' => text.push(b"\\n"),
        b'\\' => text.push(b"\\\\"),
        _ if is_printable(byte) => text.push(&[byte]),
        _ => text.push(&[b'\\', b'x', hex_digit(byte / 16), hex_digit(byte % 16)]),
    }
}

/// Whether the byte is one of space to `~`.
pub(crate) fn is_printable(byte: u8) -> bool
    ensures { result ≡ is_printable byte }
{
    b' ' <= byte && byte <= b'~'
}

fn hex_digit(digit: u8) -> u8
    requires { digit < 16 }
    ensures { result ≡ digit_char digit }
{
    if digit < 10 {
        b'0' + digit
    } else {
        b'a' - 10 + digit
    }
}
