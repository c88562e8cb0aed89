//! What may stand in a part of a head (RFC 9110, sections 5.1 and 5.5).
ghost use Rattle.std.specs.Prelude.{◌≡◌, MatchOption, option_map};
ghost use Rattle.h1_head.specs.Faults.{is_text_byte, is_text, line_fault, phrase_fault, refusal};

use h1_error::{Error, ErrorType, HeadFault};
use httparse::is_token;

/// The error that says that a head is refused.
pub(crate) fn refuse(fault: HeadFault) -> Error
    ensures { result ≡ refusal fault }
{
    Error::from(ErrorType::InvalidHTTPHeader(fault))
}

/// Whether a line may have this name and this value. The name is looked at first.
pub(crate) fn check_line(name: &[u8], value: &[u8]) -> Result<(), Error>
    ensures { MatchOption (line_fault name.now value.now) (result ≡ Ok tt)
        (λ fault. result ≡ Err (refusal fault)) }
{
    if !is_token(name) {
        return Err(refuse(HeadFault::BadName));
    }
    if !is_text(value) {
        return Err(refuse(HeadFault::BadValue));
    }
    Ok(())
}

/// Whether a status line may have this phrase.
pub(crate) fn check_phrase(phrase: Option<&[u8]>) -> Result<(), Error>
    ensures { MatchOption (phrase_fault (option_map (λ phrase. phrase.now) phrase.entry))
        (result ≡ Ok tt) (λ fault. result ≡ Err (refusal fault)) }
{
    match phrase {
        Some(phrase) => {
            if is_text(phrase) {
                Ok(())
            } else {
                Err(refuse(HeadFault::BadValue))
            }
        }
        None => Ok(()),
    }
}

/// Whether the bytes have no CR, LF and NUL.
fn is_text(bytes: &[u8]) -> bool
    ensures { result ≡ is_text bytes.now }
{
    bytes.iter().all(|byte| is_text_byte(*byte))
}

fn is_text_byte(byte: u8) -> bool
    ensures { result ≡ is_text_byte byte }
{
    !(byte == b'\r' || byte == b'\n' || byte == 0)
}
