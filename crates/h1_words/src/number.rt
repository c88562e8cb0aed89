//! Numbers of a script and of the command line.
ghost use Rattle.std.specs.Prelude.{◌≡◌, ◌≤◌, IfSome};
ghost use Rattle.h1_words.specs.Number.{with_digit, number_up_to};

/// A number has at most so many digits, leading zeros among them.
pub const MAX_DIGITS: usize = 20;

/// The number that 1 to 20 decimal digits write, if it is at most `most`.
pub fn number_up_to(most: u64, digits: &[u8]) -> Option<u64>
    ensures number { result ≡ number_up_to most digits.now }
    ensures within { IfSome result (λ number. number ≤ most) }
{
    if digits.is_empty() || digits.len() > MAX_DIGITS {
        return None;
    }
    let mut number = 0u64;
    for byte in digits {
        number = with_digit(most, number, *byte)?;
    }
    Some(number)
}

fn with_digit(most: u64, number: u64, byte: u8) -> Option<u64>
    ensures { result ≡ with_digit most number byte }
{
    let digit = char::from(byte).to_digit(10)?;
    let more = number.checked_mul(10)?.checked_add(u64::from(digit))?;
    if more <= most { Some(more) } else { None }
}
