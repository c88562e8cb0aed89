//! White space in field values (RFC 9110, section 5.6.3).
ghost use Rattle.std.specs.Prelude.{◌≡◌, reverse};
ghost use Rattle.httparse.specs.Grammar.{is_ows, skip_ows, trim_ows};

/// The bytes without the spaces and tabs at both ends.
#[tactic(auto, unfolding(httparse::specs::Grammar::trim_ows))]
pub fn trim_ows(bytes: &[u8]) -> &[u8]
    ensures { result.now ≡ trim_ows bytes.now }
{
    trim_ows_end(trim_ows_start(bytes))
}

/// The bytes without the spaces and tabs before them.
pub fn trim_ows_start(bytes: &[u8]) -> &[u8]
    ensures { result.now ≡ skip_ows bytes.now }
{
    let mut left = bytes;
    while let Some((first, more)) = left.split_first() {
        if !is_ows(*first) {
            break;
        }
        left = more;
    }
    left
}

/// The bytes without the spaces and tabs behind them.
pub fn trim_ows_end(bytes: &[u8]) -> &[u8]
    ensures { result.now ≡ reverse (skip_ows (reverse bytes.now)) }
{
    let mut left = bytes;
    while let Some((last, front)) = left.split_last() {
        if !is_ows(*last) {
            break;
        }
        left = front;
    }
    left
}

/// A space or a tab.
pub fn is_ows(byte: u8) -> bool
    ensures { result ≡ is_ows byte }
{
    byte == b' ' || byte == b'\t'
}
