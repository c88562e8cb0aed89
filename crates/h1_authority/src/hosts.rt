//! The Host lines of a request (RFC 9112, section 3.2).
ghost use Rattle.std.specs.Prelude.{◌≡◌};
ghost use Rattle.std.specs.Option.{option_copied};
ghost use Rattle.h1_authority.specs.AuthorityFault.{hosts_seen, with_host, host_value};

/// The Host lines of a request. A second line decides already, so no further value is kept.
#[derive(Clone, Copy, Debug, PartialEq, Eq)]
pub enum Hosts<'a> {
    /// There is no Host line.
    Absent,
    /// There is one, with this value, which may be empty.
    One(&'a [u8]),
    /// There are two or more.
    Several,
}

impl<'a> Hosts<'a> {
    /// The lines and one more, with this value.
    pub fn and(self, value: &'a [u8]) -> Hosts<'a>
        ensures { hosts_seen result ≡ with_host (hosts_seen self.entry) value.now }
    {
        match self {
            Hosts::Absent => Hosts::One(value),
            Hosts::One(_) | Hosts::Several => Hosts::Several,
        }
    }

    /// The value of the one line, if there is one.
    pub(crate) fn value(self) -> Option<&'a [u8]>
        ensures { option_copied result ≡ host_value (hosts_seen self.entry) }
    {
        match self {
            Hosts::One(value) => Some(value),
            Hosts::Absent | Hosts::Several => None,
        }
    }
}
