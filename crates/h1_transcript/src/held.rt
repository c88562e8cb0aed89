//! Values that contracts see whether memory has them or not.
ghost use Rattle.std.specs.Prelude.{◌≡◌, IfErr, IfSome, OnOk, Some, option_map};
ghost use Rattle.std.specs.Option.{option_copied};
ghost use Rattle.h1_error.specs.Memory.{no_memory};
ghost use Rattle.h1_transcript.specs.Held.{HoldsBy, copy_of, value_of};
ghost use Rattle.h1_transcript.specs.declared.history.History.{History};
ghost use Rattle.h1_transcript.specs.declared.history.History.TheVariants.{Forgotten};

use h1_error::Error;
use h1_head::RequestHeader;
use std::snapshot::Snapshot;

/// A value that was seen. Memory has a copy of it, or none.
#[derive(Drop)]
pub enum Held<T> {
    Copy(T),
    Seen(Snapshot<T>),
}

impl<T: Drop> Held<T> {
    /// This value was seen.
    #[inline(always)]
    pub(crate) fn see(&mut self, value: &T)
        ensures value { value_of self.new ≡ value.now }
        ensures seen { HoldsBy Forgotten self.new }
    {
        match self {
            Held::Seen(seen) => *seen = Snapshot::of(value),
            Held::Copy(_) => *self = Held::Seen(Snapshot::of(value)),
        }
    }

    /// The copy, where memory has one.
    #[inline(always)]
    pub(crate) fn get(&self) -> Option<&T>
        ensures { option_copied result ≡ copy_of self.now }
    {
        match self {
            Held::Copy(copy) => Some(copy),
            Held::Seen(_) => None,
        }
    }
}

impl Held<RequestHeader> {
    /// Puts this head in its place. With an error what stands there has no meaning.
    #[inline(always)]
    pub(crate) fn put(&mut self, head: &RequestHeader) -> Result<(), Error>
        ensures ok { OnOk result (value_of self.new ≡ head.now) }
        ensures held { (history : History) → HoldsBy history self.old → HoldsBy history self.new }
        ensures err { IfErr result (λ error. error ≡ no_memory) }
    {
        match self {
            Held::Copy(place) => head.copy_to(place),
            Held::Seen(seen) => {
                *seen = Snapshot::of(head);
                Ok(())
            }
        }
    }
}

/// This value was seen in its place.
#[inline(always)]
pub(crate) fn see_in<T: Drop>(place: &mut Option<Held<T>>, value: &T)
    ensures value { option_map value_of place.new ≡ Some value.now }
    ensures seen { IfSome place.new (HoldsBy Forgotten) }
{
    match place {
        Some(held) => held.see(value),
        None => *place = Some(Held::Seen(Snapshot::of(value))),
    }
}

/// What memory has a copy of is given back.
#[inline(always)]
pub(crate) fn drop_copy<T: Drop>(place: &mut Option<Held<T>>)
    ensures { IfSome place.new (HoldsBy Forgotten) }
{
    if let Some(Held::Copy(_)) = place {
        *place = None;
    }
}
