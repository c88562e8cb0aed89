//! What a session leaves for the next one over its link: blocks of memory.
ghost use Rattle.std.specs.Prelude.{IfOk, IsOkUnless};
ghost use Rattle.h1_error.specs.Memory.{no_memory};
ghost use Rattle.h1_transfer.specs.Heads.{FoundIn};
ghost use Rattle.h1_client.specs.Words.{HasLooked, IsWholeAt, MAX_HEADER_SIZE, NotYetAt, RefusedAt};

use h1_error::Error;
use h1_head::{FEW_HEADERS, HeadSearch, ResponseFound, ResponseHead, Room, search_response_head};
use h1_transfer::{HeadFound, Memory};
use httparse::spans::{EMPTY_HEADER_SPAN, HeaderSpan};
use std::alloc::Global;

/// So many bytes has a block at most that the next session takes, and a head whose block it takes.
pub(crate) const MOST_KEPT: usize = 16_384;

/// What a session leaves for the next one over its link. It stands in a block of its own, so that a
/// session and an idle link are moved without it.
#[derive(Drop)]
pub(crate) struct Spare {
    /// The head of the response, whose memory the next one takes.
    pub head: ResponseHead,
    /// Where the lines of the head lie, while it is read.
    pub spans: [HeaderSpan; FEW_HEADERS],
    /// The memory of the transfer, while the link stands idle.
    pub memory: Memory,
}

impl Spare {
    /// Takes no memory. It has no clause: contracts see nothing of what a session leaves.
    #[inline(always)]
    pub fn new(alloc: Global) -> Self {
        Spare {
            head: ResponseHead::new(alloc),
            spans: [EMPTY_HEADER_SPAN; FEW_HEADERS],
            memory: Memory::new(alloc),
        }
    }

    /// Looks for the head at the front of the bytes, and puts one that is accepted in its place.
    #[inline(always)]
    pub fn look(
        &mut self,
        alloc: Global,
        search: &mut HeadSearch,
        bytes: &[u8],
        room: &mut Room,
    ) -> Result<HeadFound, Error>
        requires looked { HasLooked MAX_HEADER_SIZE search.old bytes.now }
        ensures ok { IfOk result (FoundIn IsWholeAt RefusedAt NotYetAt bytes.now self.new.head) }
        ensures err { IsOkUnless result no_memory }
        ensures looked { HasLooked MAX_HEADER_SIZE search.new bytes.now }
    {
        match search_response_head(alloc, search, bytes, room, &mut self.spans, &mut self.head)? {
            ResponseFound::Whole(used) => Ok(HeadFound::Whole(used)),
            ResponseFound::NotYet => Ok(HeadFound::NotYet),
            ResponseFound::Refused(fault) => Ok(HeadFound::Refused(fault)),
        }
    }
}
