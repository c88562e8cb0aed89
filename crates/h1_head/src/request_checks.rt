//! What a request is refused for whose head has the form of one (RFC 9112, sections 3.2, 6.1 and
//! 6.3; RFC 9110, section 8.6), and whether it wishes the connection kept (RFC 9112, section 9.3).
ghost use Rattle.std.specs.Prelude.{◌≡◌, codes, MatchOption};
ghost use Rattle.h1_fields.specs.Codings.{has_coding_line};
ghost use Rattle.h1_fields.specs.Lines.{values_of};
ghost use Rattle.h1_authority.specs.AuthorityFault.{hosts_seen, hosts_behind, no_host};
ghost use Rattle.h1_head.specs.Faults.{refusal};
ghost use Rattle.h1_head.specs.RequestFault.{coding_fault, fault_of, first_fault_by, host_fault, is_both, length_fault, settled};
ghost use Rattle.h1_head.specs.Wish.{wish};

use crate::RequestHeader;
use crate::syntax::refuse;
use crate::version::{is_http_10, is_http_11};
use h1_authority::{Hosts, check_authority};
use h1_error::{Error, HeadFault};
use h1_fields::{ContentLength, Fields, Lone};

/// Whether the target, the Host lines and the URI's authority name one authority (RFC 9112, section
/// 3.2). The error says the first fault.
pub fn validate_request_authority(req: &RequestHeader) -> Result<(), Error>
    ensures { MatchOption (host_fault req.now) (result ≡ Ok tt)
        (λ fault. result ≡ Err (refusal fault)) }
{
    match req.host_fault() {
        None => Ok(()),
        Some(fault) => Err(refuse(fault)),
    }
}

/// What a request is refused for as it is now: its authority (RFC 9112, section 3.2), its length and
/// its codings (RFC 9112, sections 6.1 and 6.3). A length beside a coding doesn't count. The error
/// says the first fault.
pub fn validate_request(req: &RequestHeader) -> Result<(), Error>
    ensures { MatchOption (fault_of req.now) (result ≡ Ok tt)
        (λ fault. result ≡ Err (refusal fault)) }
{
    let coded = req.fields().has_transfer_encoding();
    let length = if coded {
        ContentLength::Absent
    } else {
        req.fields().content_length()
    };
    match req.first_fault(coded, length) {
        None => Ok(()),
        Some(fault) => Err(refuse(fault)),
    }
}

impl RequestHeader {
    /// Whether the request wishes the connection kept. `both` says whether its head had both
    /// Transfer-Encoding and Content-Length.
    #[inline(always)]
    pub fn wishes_keep_alive(&self, both: bool) -> bool
        ensures { result ≡ wish self.now both }
    {
        if both || self.fields().lists_close() {
            false
        } else {
            is_http_11(self.version()) || self.fields().lists_keep_alive()
        }
    }

    /// Removes the Content-Length lines where Transfer-Encoding stands beside them, and says
    /// whether. `coded` says whether Transfer-Encoding is there.
    #[inline(always)]
    pub(crate) fn settle_length(&mut self, coded: bool) -> bool
        requires { coded ≡ has_coding_line self.old.fields }
        ensures settled { self.new ≡ settled self.old }
        ensures both { result ≡ is_both self.old }
        ensures coded { coded ≡ has_coding_line self.new.fields }
    {
        let both = coded && self.fields().contains(b"Content-Length");
        if both {
            self.remove_header(b"Content-Length");
        }
        both
    }

    /// The first fault of the request. `coded` says whether Transfer-Encoding is there, and `length`
    /// what the Content-Length lines state that count.
    #[inline(always)]
    pub(crate) fn first_fault(&self, coded: bool, length: ContentLength) -> Option<HeadFault>
        requires { coded ≡ has_coding_line self.now.fields }
        ensures { result ≡ first_fault_by self.now length }
    {
        if let Some(fault) = self.host_fault() {
            return Some(fault);
        }
        if let Some(fault) = length_fault(length) {
            return Some(fault);
        }
        self.coding_fault(coded)
    }

    #[inline(always)]
    fn host_fault(&self) -> Option<HeadFault>
        ensures { result ≡ host_fault self.now }
    {
        let hosts = hosts_of(self.fields());
        check_authority(
            self.method().as_str().as_bytes(),
            self.raw_path(),
            hosts,
            self.authority(),
        )
        .err()
    }

    #[inline(always)]
    fn coding_fault(&self, coded: bool) -> Option<HeadFault>
        requires { coded ≡ has_coding_line self.now.fields }
        ensures { result ≡ coding_fault self.now }
    {
        if !coded {
            None
        } else if is_http_10(self.version()) {
            Some(HeadFault::CodingOn10)
        } else if self.fields().is_chunked_last() {
            None
        } else {
            Some(HeadFault::FinalCodingNotChunked)
        }
    }
}

/// The Host lines.
#[inline(always)]
fn hosts_of(fields: &Fields) -> Hosts<'_>
    ensures { hosts_seen result ≡ hosts_behind no_host (values_of (codes "Host") fields.now) }
{
    match fields.lone_host() {
        Lone::Nothing => Hosts::Absent,
        Lone::One(value) => Hosts::Absent.and(value),
        Lone::Unknown => hosts_among(fields),
    }
}

/// The same by a search.
#[inline(never)]
fn hosts_among(fields: &Fields) -> Hosts<'_>
    ensures { hosts_seen result ≡ hosts_behind no_host (values_of (codes "Host") fields.now) }
{
    let mut hosts = Hosts::Absent;
    for value in fields.hosts() {
        hosts = hosts.and(value);
    }
    hosts
}

fn length_fault(length: ContentLength) -> Option<HeadFault>
    ensures { result ≡ length_fault length }
{
    match length {
        ContentLength::Absent | ContentLength::Number(_) => None,
        ContentLength::Bad => Some(HeadFault::BadContentLength),
    }
}
