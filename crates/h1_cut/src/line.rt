//! What is known of a line before its LF (RFC 9112, section 2.2).
ghost use Rattle.std.specs.Prelude.{◌≡◌};
ghost use Rattle.h1_cut.specs.Cut.{is_empty_line, line_with};

/// The bytes of a line before its LF, as far as they decide whether the line is empty.
#[derive(Clone, Copy, Debug, PartialEq, Eq)]
pub enum LineSoFar {
    /// No byte.
    Nothing,
    /// One CR.
    Cr,
    /// Anything else.
    Text,
}

impl LineSoFar {
    /// The line with one byte more, which isn't LF.
    pub fn with(self, byte: u8) -> LineSoFar
        ensures { result ≡ line_with self byte }
    {
        match self {
            LineSoFar::Nothing if byte == b'\r' => LineSoFar::Cr,
            _ => LineSoFar::Text,
        }
    }

    /// Whether the line is empty if LF follows.
    pub fn is_empty(self) -> bool
        ensures { result ≡ is_empty_line self }
    {
        !matches!(self, LineSoFar::Text)
    }
}
