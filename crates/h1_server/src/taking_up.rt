//! Taking up the head, a piece and the end of a reply (RFC 9112, sections 4 to 7).
ghost use Rattle.std.specs.Prelude.{◌≡◌, ◌<◌, None, IfNone, IfSome, Ok, option_map};
ghost use Rattle.h1_error.specs.declared.moment.TheConstants.{YEAR_10000};
ghost use Rattle.h1_server.specs.HeaderWrites.{IsHeaderStep, is_passed_over, keep_after};
ghost use Rattle.h1_server.specs.HeadBytes.{IsHeadOf};
ghost use Rattle.h1_server.specs.TakingUp.{TakesUpHeader, head_delivery};

use crate::Request;
use h1_body::{BodyWriter, Framing, reply_framing};
use h1_error::{Error, ErrorType, HeadFault};
use h1_head::{CacheableDate, HeadBuffer, ResponseHeader, is_http_1, print_reply_head};
use h1_link::Link;
use h1_transfer::{Delivery, Transfer};

/// Whether a final header went before the one that is handed in.
pub(crate) fn is_passed_over(header: Option<&ResponseHeader>, headed: bool) -> bool
    ensures { result ≡ is_passed_over (option_map (λ head. head.now) header.entry) headed }
{
    header.is_some() && headed
}

/// The flag that is noted: that of the header that is handed in.
pub(crate) fn keep_after(header: Option<&ResponseHeader>, keep: bool, flag: bool) -> bool
    ensures { result ≡ keep_after (option_map (λ head. head.now) header.entry) keep flag }
{
    if header.is_some() { flag } else { keep }
}

/// Takes up the header that is handed in, with the date of this moment and this flag. Its bytes
/// take the room of the head before. Where it can't be written nothing changes.
#[inline(always)]
pub(crate) fn take_header<L: Link + Drop>(
    transfer: &mut Transfer<L>,
    request: &Request,
    keep: bool,
    header: Option<&ResponseHeader>,
    now: u64,
    dates: &mut CacheableDate,
) -> Result<(), Error>
    requires free { IsHeaderStep (option_map (λ head. head.now) header)
        transfer.old.outgoing.step }
    requires unrefused { transfer.old.outgoing.refused ≡ None }
    requires moment { now < YEAR_10000 }
    ensures goes_on { IfNone (option_map (λ head. head.now) header.entry)
        ((result ≡ Ok tt) × (transfer.new ≡ transfer.old)) }
    ensures takes { IfSome (option_map (λ head. head.now) header.entry)
        (λ view. TakesUpHeader transfer.old transfer.new request.now keep view now result) }
{
    let Some(head) = header else {
        return Ok(());
    };
    let mut bytes = transfer.head_buffer();
    print_head(head, keep, now, dates, &mut bytes)?;
    let framing = reply_framing(request.head_only, head);
    transfer.take_up_head(bytes, framing);
    Ok(())
}

/// Puts a final head, with its date and this flag, in place of what `out` holds.
#[inline(always)]
fn print_head(
    head: &ResponseHeader,
    keep: bool,
    now: u64,
    dates: &mut CacheableDate,
    out: &mut HeadBuffer,
) -> Result<(), Error>
    requires { now < YEAR_10000 }
    ensures { IsHeadOf head.now keep now out.new result }
{
    if !is_http_1(head.version()) {
        return Err(Error::from(ErrorType::InvalidHTTPHeader(HeadFault::UnsupportedVersion)));
    }
    let date = dates.get_date(now);
    print_reply_head(head, &date, keep, out)
}

/// What the head that was taken up asks for.
#[inline(always)]
pub(crate) fn head_delivery(writer: &BodyWriter) -> Delivery
    ensures { result ≡ head_delivery writer.now.framing }
{
    match writer.framing() {
        None => Delivery::Sent,
        Some(Framing::Counted(n)) => {
            if n == 0 {
                Delivery::Flushed
            } else {
                Delivery::Sent
            }
        }
        Some(Framing::Chunked) => Delivery::Flushed,
        Some(Framing::UntilClose) => Delivery::Flushed,
    }
}
