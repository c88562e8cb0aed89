//! What the head of the request says (RFC 9112, section 3).
ghost use Rattle.std.specs.Prelude.{◌≡◌, [], IfOk, IfSome, IsOkUnless, IsSome, MatchOption, unwrap_or};
ghost use Rattle.std.specs.Option.{option_copied};
ghost use Rattle.h1_error.specs.Memory.{no_memory};
ghost use Rattle.h1_head.specs.Faults.{refusal};
ghost use Rattle.h1_head.specs.RequestFault.{fault_of};

use super::HttpSession;
use bytes::Bytes;
use h1_error::Error;
use h1_head::{ResponseHeader, is_upgrade_req, is_upgrade_resp, validate_request};
use h1_link::Link;

impl<L: Link + Drop, C: Drop> HttpSession<L, C> {
    ghost use Rattle.h1_server.specs.HeadCalls.{header_of, switches, wishes_upgrade};

    /// The value of the first line of that name in the head of the request, once it was read.
    pub fn get_header(&self, name: &[u8]) -> Option<&[u8]>
        ensures { option_copied result ≡ header_of name.now self.now.request }
    {
        match self.asked.get() {
            Some(request) => request.header.get(name),
            None => None,
        }
    }

    /// The same, and no bytes where there is no such line.
    pub fn get_header_bytes(&self, name: &[u8]) -> &[u8]
        ensures { result.now ≡ unwrap_or (header_of name.now self.now.request) [] }
    {
        match self.get_header(name) {
            Some(value) => value,
            None => b"",
        }
    }

    /// The bytes of the head as they were parsed.
    pub fn get_headers_raw_bytes(&self) -> Result<Bytes, Error>
        requires { IsSome self.now.request }
        ensures ok { IfOk result
            (λ raw. IfSome self.now.request (λ request. raw ≡ request.raw)) }
        ensures err { IsOkUnless result no_memory }
    {
        Ok(self.asked.place.request.raw.slice(..)?)
    }

    /// Whether the head as it is now is refused: for its authority, its length or its codings (RFC
    /// 9112, sections 3.2, 6.1 and 6.3). The error says the first fault.
    pub fn validate_request(&self) -> Result<(), Error>
        requires { IsSome self.now.request }
        ensures { IfSome self.now.request (λ request. MatchOption (fault_of request.header)
            (result ≡ Ok tt) (λ fault. result ≡ Err (refusal fault))) }
    {
        validate_request(&self.asked.place.request.header)
    }

    /// Whether the request asks for another protocol (RFC 9110, section 7.8).
    pub fn is_upgrade_req(&self) -> bool
        ensures { result ≡ wishes_upgrade self.now.request }
    {
        match self.asked.get() {
            Some(request) => is_upgrade_req(&request.header),
            None => false,
        }
    }

    /// Whether a response changes the protocol. None where the request doesn't ask for that.
    pub fn is_upgrade(&self, head: &ResponseHeader) -> Option<bool>
        ensures { result ≡ switches self.now.request head.now }
    {
        if self.is_upgrade_req() {
            Some(is_upgrade_resp(head))
        } else {
            None
        }
    }

    /// How many bytes of the reply's body were taken.
    pub fn body_bytes_sent(&self) -> u64
        ensures { result ≡ self.now.reply.writer.written }
    {
        self.transfer.outgoing().writer.written()
    }
}
