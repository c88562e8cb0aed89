//! Where the lines of four names stand, which each message is asked for.
ghost use Rattle.std.specs.Prelude.{◌≡◌, codes};
ghost use Rattle.h1_fields.specs.Names.{same_name};
ghost use Rattle.h1_fields.specs.Kinds.{name_of, place_of, place_with};
ghost use Rattle.h1_fields.specs.declared.kinds.Kind.{Kind};
ghost use Rattle.h1_fields.specs.declared.kinds.Place.TheVariants as at;

use crate::held::MAX_SHARED_LINES;
use crate::name::is_same_name;

/// A name whose lines say how a message is framed or routed, or whether its connection is kept.
#[derive(Clone, Copy, Debug, PartialEq, Eq)]
pub(crate) enum Kind {
    Connection,
    ContentLength,
    Host,
    TransferEncoding,
}

impl Kind {
    #[inline(always)]
    pub(crate) fn name<'a>(self) -> &'a [u8]
        ensures { result.now ≡ name_of self }
    {
        match self {
            Kind::Connection => b"Connection",
            Kind::ContentLength => b"Content-Length",
            Kind::Host => b"Host",
            Kind::TransferEncoding => b"Transfer-Encoding",
        }
    }
}

/// Where the lines of a name stand.
#[derive(Clone, Copy, Debug, PartialEq, Eq)]
pub(crate) enum Place {
    /// There are none.
    Nowhere,
    /// The one line stands at this place.
    At(u8),
    /// A search tells.
    Anywhere,
}

impl Place {
    /// What is known with a line more, which stands at this place. `named` says whether it has the
    /// name.
    #[inline(always)]
    fn with(self, named: bool, at: usize) -> Place
        ensures { result ≡ place_with named self at }
    {
        if !named {
            return self;
        }
        match self {
            Place::Nowhere if at < MAX_SHARED_LINES => Place::At(at as u8),
            _ => Place::Anywhere,
        }
    }
}

/// Where the lines of each kind stand.
#[derive(Clone, Copy, Debug)]
pub(crate) struct Kinds {
    connection: Place,
    content_length: Place,
    host: Place,
    transfer_encoding: Place,
}

impl Kinds {
    /// There are no lines.
    #[inline(always)]
    pub(crate) fn none() -> Kinds
        ensures { (kind : Kind) → place_of kind result ≡ at.Nowhere }
    {
        Kinds::all(Place::Nowhere)
    }

    /// Lines moved, and a search tells where they stand.
    #[inline(always)]
    pub(crate) fn moved() -> Kinds
        ensures { (kind : Kind) → place_of kind result ≡ at.Anywhere }
    {
        Kinds::all(Place::Anywhere)
    }

    #[inline(always)]
    fn all(place: Place) -> Kinds
        ensures { (kind : Kind) → place_of kind result ≡ place }
    {
        Kinds {
            connection: place,
            content_length: place,
            host: place,
            transfer_encoding: place,
        }
    }

    /// Notes a line more, which has this name and stands at this place.
    #[inline(always)]
    pub(crate) fn note(&mut self, name: &[u8], at: usize)
        ensures { (kind : Kind) → place_of kind self.new
            ≡ place_with (same_name (name_of kind) name.now) (place_of kind self.old) at }
    {
        // Names of different lengths are different.
        let len = name.len();
        if len == 4 {
            self.host = self.host.with(is_same_name(b"Host", name), at);
        } else if len == 10 {
            self.connection = self.connection.with(is_same_name(b"Connection", name), at);
        } else if len == 14 {
            let named = is_content_length(name);
            self.content_length = self.content_length.with(named, at);
        } else if len == 17 {
            let named = is_same_name(b"Transfer-Encoding", name);
            self.transfer_encoding = self.transfer_encoding.with(named, at);
        }
    }

    #[inline(always)]
    pub(crate) fn place(self, kind: Kind) -> Place
        ensures { result ≡ place_of kind self }
    {
        match kind {
            Kind::Connection => self.connection,
            Kind::ContentLength => self.content_length,
            Kind::Host => self.host,
            Kind::TransferEncoding => self.transfer_encoding,
        }
    }
}

/// Whether this is the name Content-Length, first in the cases in which most messages have it.
#[inline(always)]
fn is_content_length(name: &[u8]) -> bool
    ensures { result ≡ same_name (codes "Content-Length") name.now }
{
    name == b"Content-Length".as_slice() || is_same_name(b"content-length", name)
}
