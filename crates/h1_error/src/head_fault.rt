//! Why the head of a message is refused (RFC 9112, sections 2 to 6).
ghost use Rattle.std.specs.Prelude.{◌≡◌};
ghost use Rattle.h1_error.specs.Text.{fault_name};

/// Why the head of a message is refused.
#[derive(Clone, Copy, Debug, PartialEq, Eq, Hash, thiserror::Error)]
pub enum HeadFault {
    /// The bytes are no head by the grammar, or have more than 256 fields.
    #[error("the bytes are no head by the grammar, or have too many fields")]
    NotAHead,
    /// No head ends within the limit of 1,048,575 bytes.
    #[error("no head ends within the limit of bytes")]
    TooLong,
    /// More than one Host line (RFC 9112, section 3.2).
    #[error("it has more than one Host line")]
    DuplicateHost,
    /// The Host line has userinfo.
    #[error("the Host line has userinfo")]
    UserinfoInHost,
    /// The URI's authority has userinfo.
    #[error("the authority of the URI has userinfo")]
    UserinfoInUri,
    /// Host and the URI's authority differ.
    #[error("Host and the authority of the URI differ")]
    HostDiffersFromUri,
    /// The target has userinfo (RFC 9110, section 4.2.4).
    #[error("the target has userinfo")]
    UserinfoInTarget,
    /// The target can be read as two authorities.
    #[error("the target can be read as two authorities")]
    AmbiguousTarget,
    /// The target's authority is none by the grammar.
    #[error("the authority of the target is none by the grammar")]
    UnparseableAuthority,
    /// Host differs from the target's authority (RFC 9112, section 3.2.2).
    #[error("Host and the authority of the target differ")]
    HostDiffersFromTarget,
    /// The target of a CONNECT can be read as two authorities.
    #[error("the target of a CONNECT can be read as two authorities")]
    AmbiguousConnect,
    /// A CONNECT whose target has no port needs a Host line.
    #[error("a CONNECT whose target has no port needs a Host line")]
    ConnectHostMissing,
    /// Host differs from the target of a CONNECT (RFC 9112, section 3.2.3).
    #[error("Host and the target of a CONNECT differ")]
    ConnectHostDiffers,
    /// The Content-Length lines don't read as one number (RFC 9110, section 8.6).
    #[error("the Content-Length lines don't read as one number")]
    BadContentLength,
    /// Transfer-Encoding on HTTP/1.0 (RFC 9112, section 6.1).
    #[error("Transfer-Encoding isn't allowed on HTTP/1.0")]
    CodingOn10,
    /// The last transfer coding isn't `chunked` (RFC 9112, section 6.3).
    #[error("the last transfer coding isn't chunked")]
    FinalCodingNotChunked,
    /// A request line can't be written with this target or version.
    #[error("no request line has this target or version")]
    BadRequestLine,
    /// The version is none that HTTP/1 writes.
    #[error("HTTP/1 doesn't write this version")]
    UnsupportedVersion,
    /// A method that is no token (RFC 9110, section 9.1).
    #[error("the method is no token")]
    BadMethod,
    /// A field name that is no token (RFC 9110, section 5.1).
    #[error("a field name is no token")]
    BadName,
    /// A field value with CR, LF or NUL (RFC 9110, section 5.5).
    #[error("a field value has CR, LF or NUL")]
    BadValue,
    /// A status code outside 100 to 999.
    #[error("the status code is outside 100 to 999")]
    BadStatus,
    /// A date that is none of the three formats (RFC 9110, section 5.6.7).
    #[error("a date is in none of the three formats")]
    BadDate,
}

impl HeadFault {
    /// The variant's name.
    pub fn name(&self) -> &'static str
        ensures { result.now ≡ fault_name self.now }
    {
        match self {
            HeadFault::NotAHead => "NotAHead",
            HeadFault::TooLong => "TooLong",
            HeadFault::DuplicateHost => "DuplicateHost",
            HeadFault::UserinfoInHost => "UserinfoInHost",
            HeadFault::UserinfoInUri => "UserinfoInUri",
            HeadFault::HostDiffersFromUri => "HostDiffersFromUri",
            HeadFault::UserinfoInTarget => "UserinfoInTarget",
            HeadFault::AmbiguousTarget => "AmbiguousTarget",
            HeadFault::UnparseableAuthority => "UnparseableAuthority",
            HeadFault::HostDiffersFromTarget => "HostDiffersFromTarget",
            HeadFault::AmbiguousConnect => "AmbiguousConnect",
            HeadFault::ConnectHostMissing => "ConnectHostMissing",
            HeadFault::ConnectHostDiffers => "ConnectHostDiffers",
            HeadFault::BadContentLength => "BadContentLength",
            HeadFault::CodingOn10 => "CodingOn10",
            HeadFault::FinalCodingNotChunked => "FinalCodingNotChunked",
            HeadFault::BadRequestLine => "BadRequestLine",
            HeadFault::UnsupportedVersion => "UnsupportedVersion",
            HeadFault::BadMethod => "BadMethod",
            HeadFault::BadName => "BadName",
            HeadFault::BadValue => "BadValue",
            HeadFault::BadStatus => "BadStatus",
            HeadFault::BadDate => "BadDate",
        }
    }
}
