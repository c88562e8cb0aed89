//! The size line of a chunk (RFC 9112, section 7.1).
ghost use Rattle.std.specs.Prelude.{◌≡◌, ◌<◌, ◌≤◌, [], drop, length};
ghost use Rattle.h1_body.specs.Written.{size_line, upper_digit};

use std::marker::Model;

/// What is still to be written of a size line, or nothing. Contracts see its bytes.
#[derive(Debug, Drop)]
pub struct SizeLine {
    bytes: [u8; 18],
    at: usize,
}

impl Model for SizeLine {
    ghost use Rattle.std.specs.Prelude.{ℕ, List, drop, ◌≤◌};

    ghost Value = { List ℕ };

    ghost view = { λ line. drop line.at line.bytes };

    ghost invariant = { λ line. line.at ≤ 18 };
}

impl SizeLine {
    /// No bytes.
    pub fn empty() -> Self
        ensures { result ≡ [] }
    {
        SizeLine {
            bytes: [0; 18],
            at: 18,
        }
    }

    /// The size in hexadecimal digits, in upper case and without zeros in front, and CRLF.
    pub fn of(size: u64) -> Self
        ensures { result ≡ size_line size }
    {
        let mut bytes = [0; 18];
        bytes[16] = 13;
        bytes[17] = 10;
        let mut at = 16;
        let mut left = size;
        while left > 0 {
            at -= 1;
            bytes[at] = upper_digit((left % 16) as u8);
            left /= 16;
        }
        SizeLine { bytes, at }
    }

    pub fn as_slice(&self) -> &[u8]
        ensures { result.now ≡ self.now }
    {
        &self.bytes[self.at..]
    }

    pub fn len(&self) -> usize
        ensures len { result ≡ length self.now }
        ensures bound { result ≤ 18 }
    {
        18 - self.at
    }

    /// Leaves out this many bytes in front.
    pub fn advance(&mut self, count: usize)
        requires { count ≤ length self.old }
        ensures { self.new ≡ drop count self.old }
    {
        self.at += count;
    }
}

fn upper_digit(digit: u8) -> u8
    requires { digit < 16 }
    ensures { result ≡ upper_digit digit }
{
    if digit < 10 {
        b'0' + digit
    } else {
        b'A' - 10 + digit
    }
}
