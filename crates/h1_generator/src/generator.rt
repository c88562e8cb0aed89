//! The requests of `gen N`, one after the other.
ghost use Rattle.std.specs.Prelude.{◌≡◌, ◌+◌, ◌<◌, ◌≤◌, ◌∷◌, [], ◌++◌, ◌%◌, codes, replicate, OnOk, IfOk, IfErr};
ghost use Rattle.std.specs.Fmt.{decimal};
ghost use Rattle.h1_error.specs.Memory.{no_memory};
ghost use Rattle.h1_body.specs.Written.{chunk_bytes};
ghost use Rattle.h1_generator.specs.Generated.{form_of, asked, asked_as, print_asked, generated};

use h1_error::Error;
use h1_words::MOST_GENERATED;
use itoa::Buffer;
use std::alloc::Global;

/// A request has at most so many bytes.
const MOST_BYTES: usize = 80;

/// A request has fewer bytes of body than this.
const SIZES: u32 = 7;

/// How a request states its body (RFC 9112, section 6.3).
#[derive(Clone, Copy, Debug, PartialEq, Eq)]
pub enum Form {
    /// A GET without a body.
    Plain,
    /// A POST whose body has a stated length.
    Counted,
    /// A POST whose body comes in chunks.
    Chunked,
}

/// The bytes of requests 1 to `count`.
pub fn generate(alloc: Global, count: u32) -> Result<Vec<u8>, Error>
    requires { count ≤ MOST_GENERATED }
    ensures ok { IfOk result (λ bytes. bytes.items ≡ generated count) }
    ensures err { IfErr result (λ error. error ≡ no_memory) }
{
    let mut bytes = Vec::with_capacity(alloc, count as usize * MOST_BYTES)?;
    for number in 1..count + 1 {
        push_request(&mut bytes, number)?;
    }
    Ok(bytes)
}

/// Adds the request with this number.
fn push_request(bytes: &mut Vec<u8>, number: u32) -> Result<(), Error>
    ensures ok { OnOk result (bytes.new.items ≡ bytes.old.items ++ print_asked (asked number)) }
    ensures err { IfErr result (λ error. error ≡ no_memory) }
{
    let size = number % SIZES;
    match form_of(number) {
        Form::Plain => push_plain(bytes, number),
        Form::Counted => push_counted(bytes, number, size),
        Form::Chunked => push_chunked(bytes, number, size),
    }
}

fn form_of(number: u32) -> Form
    ensures { result ≡ form_of number }
{
    match number % 3 {
        1 => Form::Plain,
        2 => Form::Counted,
        _ => Form::Chunked,
    }
}

fn push_plain(bytes: &mut Vec<u8>, number: u32) -> Result<(), Error>
    ensures ok { OnOk result (bytes.new.items
        ≡ bytes.old.items ++ print_asked (asked_as Form.Plain number (number % SIZES))) }
    ensures err { IfErr result (λ error. error ≡ no_memory) }
{
    push_line(bytes, b"GET /", number, b" HTTP/1.1\r\n\r\n")
}

/// Adds the front of a head: what stands before this number, the number, and what stands behind it.
#[inline(always)]
fn push_line(bytes: &mut Vec<u8>, front: &[u8], number: u32, behind: &[u8]) -> Result<(), Error>
    ensures ok { OnOk result (bytes.new.items
        ≡ bytes.old.items ++ front.now ++ decimal number ++ behind.now) }
    ensures err { IfErr result (λ error. error ≡ no_memory) }
{
    push(bytes, front)?;
    push_decimal(bytes, number)?;
    push(bytes, behind)
}

fn push_counted(bytes: &mut Vec<u8>, number: u32, size: u32) -> Result<(), Error>
    requires { size < SIZES }
    ensures ok { OnOk result (bytes.new.items
        ≡ bytes.old.items ++ print_asked (asked_as Form.Counted number size)) }
    ensures err { IfErr result (λ error. error ≡ no_memory) }
{
    push_line(bytes, b"POST /", number, b" HTTP/1.1\r\nContent-Length: ")?;
    push_digit(bytes, size)?;
    push(bytes, b"\r\n\r\n")?;
    push_run(bytes, b'a', size)
}

fn push_chunked(bytes: &mut Vec<u8>, number: u32, size: u32) -> Result<(), Error>
    requires { size < SIZES }
    ensures ok { OnOk result (bytes.new.items
        ≡ bytes.old.items ++ print_asked (asked_as Form.Chunked number size)) }
    ensures err { IfErr result (λ error. error ≡ no_memory) }
{
    let behind = b" HTTP/1.1\r\nTransfer-Encoding: chunked\r\n\r\n";
    push_line(bytes, b"POST /", number, behind)?;
    push_chunk(bytes, size)?;
    push(bytes, b"0\r\n\r\n")
}

/// Adds a chunk of so many bytes, and nothing where there are none.
fn push_chunk(bytes: &mut Vec<u8>, size: u32) -> Result<(), Error>
    requires { size < SIZES }
    ensures ok { OnOk result (bytes.new.items
        ≡ bytes.old.items ++ chunk_bytes (replicate size 98)) }
    ensures err { IfErr result (λ error. error ≡ no_memory) }
{
    if size == 0 {
        return Ok(());
    }
    push_digit(bytes, size)?;
    push(bytes, b"\r\n")?;
    push_run(bytes, b'b', size)?;
    push(bytes, b"\r\n")
}

/// Adds so many bytes of one kind.
fn push_run(bytes: &mut Vec<u8>, byte: u8, count: u32) -> Result<(), Error>
    ensures ok { OnOk result (bytes.new.items ≡ bytes.old.items ++ replicate count byte) }
    ensures err { IfErr result (λ error. error ≡ no_memory) }
{
    for _ in 0..count {
        bytes.push(byte)?;
    }
    Ok(())
}

/// Adds a number of one digit in decimal.
fn push_digit(bytes: &mut Vec<u8>, number: u32) -> Result<(), Error>
    requires { number < SIZES }
    ensures ok { OnOk result (bytes.new.items ≡ bytes.old.items ++ decimal number) }
    ensures err { IfErr result (λ error. error ≡ no_memory) }
{
    bytes.push(b'0' + number as u8)?;
    Ok(())
}

/// Adds a number in decimal.
#[inline(always)]
fn push_decimal(bytes: &mut Vec<u8>, number: u32) -> Result<(), Error>
    ensures ok { OnOk result (bytes.new.items ≡ bytes.old.items ++ decimal number) }
    ensures err { IfErr result (λ error. error ≡ no_memory) }
{
    let mut digits = Buffer::new();
    push(bytes, digits.format(number).as_bytes())
}

fn push(bytes: &mut Vec<u8>, piece: &[u8]) -> Result<(), Error>
    ensures ok { OnOk result (bytes.new.items ≡ bytes.old.items ++ piece.now) }
    ensures err { IfErr result (λ error. error ≡ no_memory) }
{
    bytes.extend_from_slice(piece)?;
    Ok(())
}
