//! Heads of messages, as they are found at the front of received bytes (RFC 9112, section 2.2).
ghost use Rattle.std.specs.Prelude.{ℕ, List, IfOk, IsOkUnless};
ghost use Rattle.h1_cut.specs.Search.{HasLooked};
ghost use Rattle.h1_error.specs.Memory.{no_memory};
ghost use Rattle.h1_error.specs.declared.head_fault.HeadFault.{HeadFault};
ghost use Rattle.h1_head.specs.declared.limits.TheConstants.{MAX_HEADER_SIZE};
ghost use Rattle.h1_transfer.specs.Heads.{FoundIn};

use h1_cut::HeadSearch;
use h1_error::{Error, HeadFault};
use h1_head::Room;
use std::alloc::Global;

/// What a search for the head at the front of a stream found.
#[derive(Clone, Copy, Debug, PartialEq, Eq)]
pub enum HeadFound {
    /// A head is there and accepted. It takes so many of the bytes that came.
    Whole(usize),
    Refused(HeadFault),
    /// No head ends in the bytes yet.
    NotYet,
}

/// A kind of head: that of a request, or that of a response.
pub trait Head: Sized + Drop {
    /// The bytes begin with this head, which takes so many of them.
    ghost is_at: { List ℕ → ℕ → Self → Type 0 };
    /// The bytes begin with a head that is refused for this.
    ghost refuses: { List ℕ → HeadFault → Type 0 };
    /// No head ends in the bytes, and one may still end.
    ghost lacks: { List ℕ → Type 0 };

    /// Looks for the head at the front of the bytes, and puts one that is accepted in its place.
    /// The bytes grow from call to call, and the search goes on from the front that it has looked
    /// at. What is kept of the bytes is a copy in the room's memory. Out of memory is the one
    /// error. Where no head is accepted, what stands in the place has no meaning.
    fn search(
        alloc: Global,
        search: &mut HeadSearch,
        bytes: &[u8],
        room: &mut Room,
        found: &mut Self,
    ) -> Result<HeadFound, Error>
        requires looked { HasLooked MAX_HEADER_SIZE search.old bytes.now }
        ensures ok { IfOk result (FoundIn is_at refuses lacks bytes.now found.new) }
        ensures err { IsOkUnless result no_memory }
        ensures looked { HasLooked MAX_HEADER_SIZE search.new bytes.now };
}
