//! The request of one exchange, and what reading its head answers.
ghost use Rattle.std.specs.Prelude.{◌≡◌, IfOk, IfSome, IsOkUnless};
ghost use Rattle.h1_error.specs.Memory.{no_memory};
ghost use Rattle.h1_server.specs.RequestMade.{IsFrontRead, IsReadFrom};
ghost use Rattle.h1_fields.specs.ContentLength.{content_length};
ghost use Rattle.h1_body.specs.Framing.{is_head};
ghost use Rattle.h1_server.specs.Words.{framing, wish};

use bytes::Bytes;
use h1_body::{Framing, framing_with, is_head_only};
use h1_error::{Error, HeadFault};
use h1_fields::ContentLength;
use h1_head::{FEW_HEADERS, RequestHeader, Room, Verdict, judge_front, judge_head};
use httparse::spans::HeaderSpan;
use std::alloc::Global;

/// A request as it was read. A filter may change its header; all else tells of the head as it came.
#[derive(Drop)]
pub struct Request {
    pub header: RequestHeader,
    /// Whether Content-Length stood beside Transfer-Encoding and was dropped (RFC 9112, section 6.1).
    pub both: bool,
    /// The head as it was parsed.
    pub raw: Bytes,
    /// Whether the request wishes the connection kept (RFC 9112, section 9.3).
    pub wish: bool,
    pub framing: Framing,
    /// Whether the head of the reply alone is asked for (RFC 9110, section 9.3.2).
    pub head_only: bool,
}

/// What reading a head answers.
#[derive(Clone, Copy, Debug, PartialEq, Eq)]
pub enum ReadRequest {
    /// A head, and its length in bytes as it was parsed.
    Head(usize),
    /// No request comes.
    None(NoRequest),
}

/// Why no request comes.
#[derive(Clone, Copy, Debug, PartialEq, Eq)]
pub enum NoRequest {
    /// The peer closed before the first byte of a head.
    Closed,
    /// No byte of a head came before the deadline.
    IdleTimeout,
}

impl Request {
    /// The place of a request that is to be read. Takes no memory. It promises nothing of what
    /// stands in it, which has no meaning until a head is read into it.
    #[inline(always)]
    pub(crate) fn new(alloc: Global) -> Self {
        Request {
            header: RequestHeader::new(alloc),
            both: false,
            raw: Bytes::new(),
            wish: false,
            framing: Framing::Counted(0),
            head_only: false,
        }
    }

    /// Puts the request that a whole head begins in the place of this one, or tells the fault for
    /// which the head is refused.
    #[inline(always)]
    pub(crate) fn read(
        &mut self,
        alloc: Global,
        head: &[u8],
        room: &mut Room,
    ) -> Result<Option<HeadFault>, Error>
        ensures ok { IfOk result (IsReadFrom head.now self.new) }
        ensures err { IsOkUnless result no_memory }
    {
        match judge_head(alloc, head, room, &mut self.header, &mut self.raw)? {
            Verdict::Accepted { both, length } => {
                self.note(both, length);
                Ok(None)
            }
            Verdict::Refused(fault) => Ok(Some(fault)),
        }
    }

    /// The same for the head at the front of the bytes, where the grammar tells its end. Says how
    /// many of the bytes it takes. What the spans hold has no meaning before and after.
    #[inline(always)]
    pub(crate) fn read_front(
        &mut self,
        bytes: &[u8],
        room: &mut Room,
        spans: &mut [HeaderSpan; FEW_HEADERS],
    ) -> Result<Option<(Option<HeadFault>, usize)>, Error>
        ensures ok { IfOk result (λ found. IfSome found (IsFrontRead bytes.now self.new)) }
        ensures err { IsOkUnless result no_memory }
    {
        let (header, raw) = (&mut self.header, &mut self.raw);
        match judge_front(bytes, room, spans, header, raw)? {
            Some((Verdict::Accepted { both, length }, len)) => {
                self.note(both, length);
                Ok(Some((None, len)))
            }
            Some((Verdict::Refused(fault), len)) => Ok(Some((Some(fault), len))),
            None => Ok(None),
        }
    }

    /// Notes what the header of an accepted head fixes, whose lines state this length.
    #[inline(always)]
    fn note(&mut self, both: bool, length: ContentLength)
        requires { length ≡ content_length self.old.header.fields }
        ensures header { self.new.header ≡ self.old.header }
        ensures raw { self.new.raw ≡ self.old.raw }
        ensures both { self.new.both ≡ both }
        ensures wish { self.new.wish ≡ wish self.old.header both }
        ensures framing { self.new.framing ≡ framing self.old.header }
        ensures head_only { self.new.head_only ≡ is_head self.old.header.method }
    {
        self.both = both;
        self.wish = self.header.wishes_keep_alive(both);
        self.framing = framing_with(&self.header, length);
        self.head_only = is_head_only(self.header.method());
    }
}
