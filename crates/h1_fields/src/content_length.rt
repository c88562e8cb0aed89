//! The length that Content-Length lines state (RFC 9110, section 8.6).
ghost use Rattle.std.specs.Prelude.{◌≡◌};
ghost use Rattle.h1_fields.specs.ContentLength.{number, with_number};

use httparse::parse_hex_digit;

/// What the Content-Length lines of a message say together.
#[derive(Clone, Copy, Debug, PartialEq, Eq, Hash)]
pub enum ContentLength {
    /// There is no such line.
    Absent,
    /// Each part of each line is this number.
    Number(u64),
    /// Some part is no number below 2 ^ 64, or two numbers differ.
    Bad,
}

impl ContentLength {
    /// What is known with one part more.
    pub(crate) fn with_part(self, part: &[u8]) -> ContentLength
        ensures { result ≡ with_number self (number part.now) }
    {
        let next = number_of(part);
        match self {
            ContentLength::Bad => ContentLength::Bad,
            ContentLength::Absent => match next {
                None => ContentLength::Bad,
                Some(n) => ContentLength::Number(n),
            },
            ContentLength::Number(m) => match next {
                None => ContentLength::Bad,
                Some(n) => {
                    if m == n {
                        ContentLength::Number(m)
                    } else {
                        ContentLength::Bad
                    }
                }
            },
        }
    }
}

/// The number below 2 ^ 64 that one or more digits write, if the bytes are such digits.
pub fn number_of(part: &[u8]) -> Option<u64>
    ensures { result ≡ number part.now }
{
    if part.is_empty() {
        return None;
    }
    let mut n = 0u64;
    for byte in part {
        match parse_hex_digit(*byte) {
            Some(digit) if digit < 10 => n = n.checked_mul(10)?.checked_add(digit)?,
            _ => return None,
        }
    }
    Some(n)
}
