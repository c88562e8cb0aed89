//! The places at which a reader of chunked bodies can stand, and the step from each over one byte
//! (RFC 9112, section 7.1).
ghost use Rattle.std.specs.Prelude.{◌≡◌, ◌<◌};
ghost use Rattle.h1_body.specs.Chunks.{behind_size, with_digit, at_start, in_size, in_extension, at_size_lf, in_data, at_byte};
ghost use Rattle.h1_body.specs.Chunks.{at_line, in_name, in_value, is_text, step, state_of};

use crate::FeedState;
use httparse::{is_header_name_token, parse_hex_digit};

/// The most bytes of a size line, CRLF included.
pub const SIZE_LINE_LIMIT: u16 = 8_192;

/// The largest size of a chunk.
pub const CHUNK_LIMIT: u64 = 9_223_372_036_854_775_807;

/// The most bytes of all trailer lines together, each with its CRLF.
pub const TRAILERS_LIMIT: u32 = 1_048_575;

/// Where a reader stands in a chunked body. Numbers count what may still come, so that each place
/// can be brought to an end within the limits.
#[derive(Clone, Copy, Debug, PartialEq, Eq)]
pub enum Chunking {
    /// Before the first digit of a size line.
    Start,
    /// After a digit of a size: how many digits may follow, and the size so far.
    Size(u8, u64),
    /// In the extension of a size line: how many bytes may follow before CRLF, and the size.
    Extension(u16, u64),
    /// After CR of a size line, with the size.
    SizeLf(u64),
    /// In the data of a chunk: how many bytes follow the next one.
    Data(u64),
    /// After the data of a chunk.
    DataCr,
    /// After CR that follows the data of a chunk.
    DataLf,
    /// Before a trailer line or the empty line: how many bytes all lines that follow may have.
    Trailers(u32),
    /// In the name of a trailer: how many bytes may follow beyond the shortest end of its line.
    Name(u32),
    /// In the value of a trailer: how many bytes may follow before CRLF.
    Value(u32),
    /// After CR of a trailer line: how many bytes all lines that follow may have.
    ValueLf(u32),
    /// After CR of the empty line.
    EndLf,
    /// After the body.
    Done,
    /// The bytes begin no body.
    Broken,
}

/// The state of a body whose reader stands here.
pub fn state_of(chunking: Chunking) -> FeedState
    ensures { result ≡ state_of chunking }
{
    match chunking {
        Chunking::Done => FeedState::Done,
        Chunking::Broken => FeedState::Broken,
        _ => FeedState::More,
    }
}

/// Where the reader stands after one byte more. After the end it stays where it is.
pub fn step(chunking: Chunking, byte: u8) -> Chunking
    ensures { result ≡ step chunking byte }
{
    match chunking {
        Chunking::Start => at_start(byte),
        Chunking::Size(left, size) => in_size(left, size, byte),
        Chunking::Extension(left, size) => in_extension(left, size, byte),
        Chunking::SizeLf(size) => at_size_lf(size, byte),
        Chunking::Data(more) => in_data(more),
        Chunking::DataCr => at_byte(13, Chunking::DataLf, byte),
        Chunking::DataLf => at_byte(10, Chunking::Start, byte),
        Chunking::Trailers(left) => at_line(left, byte),
        Chunking::Name(left) => in_name(left, byte),
        Chunking::Value(left) => in_value(left, byte),
        Chunking::ValueLf(left) => at_byte(10, Chunking::Trailers(left), byte),
        Chunking::EndLf => at_byte(10, Chunking::Done, byte),
        Chunking::Done => Chunking::Done,
        Chunking::Broken => Chunking::Broken,
    }
}

fn at_byte(expected: u8, next: Chunking, byte: u8) -> Chunking
    ensures { result ≡ at_byte expected next byte }
{
    if byte == expected {
        next
    } else {
        Chunking::Broken
    }
}

fn is_text(byte: u8) -> bool
    ensures { result ≡ is_text byte }
{
    byte != 13 && byte != 10 && byte != 0
}

fn at_start(byte: u8) -> Chunking
    ensures { result ≡ at_start byte }
{
    match parse_hex_digit(byte) {
        Some(digit) => Chunking::Size(15, digit),
        None => Chunking::Broken,
    }
}

fn with_digit(left: u8, size: u64, digit: u64) -> Chunking
    requires { digit < 16 }
    ensures { result ≡ with_digit left size digit }
{
    if left > 0 && size <= CHUNK_LIMIT / 16 {
        Chunking::Size(left - 1, size * 16 + digit)
    } else {
        Chunking::Broken
    }
}

fn in_size(left: u8, size: u64, byte: u8) -> Chunking
    ensures { result ≡ in_size left size byte }
{
    if let Some(digit) = parse_hex_digit(byte) {
        return with_digit(left, size, digit);
    }
    if byte == b';' {
        // After 16 - left digits and the semicolon stand the bytes that are counted and CRLF.
        Chunking::Extension(SIZE_LINE_LIMIT - 19 + u16::from(left), size)
    } else {
        at_byte(13, Chunking::SizeLf(size), byte)
    }
}

fn in_extension(left: u16, size: u64, byte: u8) -> Chunking
    ensures { result ≡ in_extension left size byte }
{
    if byte == 13 {
        Chunking::SizeLf(size)
    } else if is_text(byte) && left > 0 {
        Chunking::Extension(left - 1, size)
    } else {
        Chunking::Broken
    }
}

fn at_size_lf(size: u64, byte: u8) -> Chunking
    ensures { result ≡ at_size_lf size byte }
{
    at_byte(10, behind_size(size), byte)
}

fn behind_size(size: u64) -> Chunking
    ensures { result ≡ behind_size size }
{
    if size == 0 {
        Chunking::Trailers(TRAILERS_LIMIT)
    } else {
        Chunking::Data(size - 1)
    }
}

fn in_data(more: u64) -> Chunking
    ensures { result ≡ in_data more }
{
    if more == 0 {
        Chunking::DataCr
    } else {
        Chunking::Data(more - 1)
    }
}

fn at_line(left: u32, byte: u8) -> Chunking
    ensures { result ≡ at_line left byte }
{
    if byte == 13 {
        Chunking::EndLf
    } else if is_header_name_token(byte) && left >= 4 {
        // The shortest line is this byte, a colon and CRLF.
        Chunking::Name(left - 4)
    } else {
        Chunking::Broken
    }
}

fn in_name(left: u32, byte: u8) -> Chunking
    ensures { result ≡ in_name left byte }
{
    if byte == b':' {
        Chunking::Value(left)
    } else if is_header_name_token(byte) && left > 0 {
        Chunking::Name(left - 1)
    } else {
        Chunking::Broken
    }
}

fn in_value(left: u32, byte: u8) -> Chunking
    ensures { result ≡ in_value left byte }
{
    if byte == 13 {
        Chunking::ValueLf(left)
    } else if is_text(byte) && left > 0 {
        Chunking::Value(left - 1)
    } else {
        Chunking::Broken
    }
}
