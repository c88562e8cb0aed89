//! Handing the link on to the next request (RFC 9112, section 9.3).
ghost use Rattle.std.specs.Prelude.{◌≡◌, IfSome, is_some, true};
ghost use Rattle.h1_client.specs.Reusing.{is_nothing};

use super::HttpSession;
use crate::Keepalive;
use crate::judging::{is_at_end, is_sent};
use crate::keeping::keep_of;
use crate::response_place::ResponsePlace;
use crate::spare::MOST_KEPT;
use h1_link::Link;

/// So few bytes need no large block.
const FEW_BYTES: usize = 4096;

impl<L: Link + Drop> HttpSession<L> {
    ghost use Rattle.h1_client.specs.Reusing.{is_exchanged, is_on, is_reusable, respected};
    ghost use Rattle.h1_client.specs.Served.{IsServed};

    /// Sets whether the link may serve the next request, by what both sides said of it.
    pub fn respect_keepalive(&mut self)
        ensures { self.new ≡ respected self.old }
    {
        let overread = is_at_end(&self.transfer.body().reader)
            && !is_nothing(self.transfer.received());
        self.keepalive = keep_of(&self.asked.request, &self.answered.last, overread);
    }

    /// Whether the link may serve the next request, as `respect_keepalive` said last.
    pub fn will_keepalive(&self) -> bool
        ensures { result ≡ is_on self.now.keepalive }
    {
        self.keepalive.is_on()
    }

    /// What `respect_keepalive` said last.
    pub fn keepalive(&self) -> Keepalive
        ensures { result ≡ self.now.keepalive }
    {
        self.keepalive
    }

    /// Whether the request is written whole, the final response is read whole, and nothing came
    /// behind it.
    pub fn is_exchanged(&self) -> bool
        ensures { result ≡ is_exchanged self.now }
    {
        self.asked.request.is_some()
            && self.answered.is_final()
            && is_sent(self.transfer.outgoing())
            && is_at_end(&self.transfer.body().reader)
            && is_nothing(self.transfer.received())
    }

    /// Whether the link may serve the next request: keep-alive is on, and the exchange is whole.
    pub fn is_reusable(&self) -> bool
        ensures { result ≡ is_reusable self.now }
    {
        self.keepalive.is_on() && self.is_exchanged()
    }

    /// The link for the next request, exactly where keep-alive is on and the exchange is whole. Any
    /// other link is shut.
    pub fn reuse(self) -> Option<L>
        ensures gives { is_some result ≡ is_reusable self }
        ensures link { IfSome result (λ link. link ≡ self.transfer.link) }
        ensures served { IfSome result (λ link. IsServed (L.state link)) }
    {
        if !self.is_reusable() {
            let mut transfer = self.transfer;
            transfer.shutdown();
            return None;
        }
        Some(self.transfer.into_link())
    }

    /// Puts memory that the next session over the link can use into the place of the response.
    #[inline(always)]
    pub(crate) fn leave(&mut self)
        requires { is_reusable self.old ≡ true }
        ensures { self.new ≡ self.old }
    {
        self.answered.last.swap_memory(&mut self.transfer);
        if !self.is_block_small() {
            self.answered.last.let_go_of_large();
        }
    }

    /// The link, and what is left for the next session over it. Where the link is kept it is that
    /// which `reuse` gives.
    #[inline(always)]
    pub(crate) fn into_parts(self) -> (L, ResponsePlace)
        ensures link { result.0 ≡ self.transfer.link }
        ensures served { is_reusable self ≡ true → IsServed (L.state result.0) }
    {
        let small = self.are_heads_small();
        let mut place = self.answered.last;
        place.leave_small(small);
        (self.transfer.into_link(), place)
    }

    /// Whether the heads of the exchange took little memory.
    #[inline(always)]
    fn are_heads_small(&self) -> bool {
        match self.answered.last.get() {
            Some(last) => self.asked.length <= MOST_KEPT && last.raw.len() <= MOST_KEPT,
            None => false,
        }
    }

    /// Whether no block that bytes were received in can be large, since few bytes were: one head,
    /// and a body of a stated length.
    #[inline(always)]
    fn is_block_small(&self) -> bool {
        match (self.place.get(), self.answered.last.get()) {
            (None, Some(last)) => {
                last.raw.len() <= FEW_BYTES
                    && self.payload_read <= FEW_BYTES as u64
                    && !last.header.fields().has_transfer_encoding()
            }
            _ => false,
        }
    }
}

/// Whether no byte is there.
fn is_nothing(bytes: &[u8]) -> bool
    ensures { result ≡ is_nothing bytes.now }
{
    bytes.is_empty()
}
