//! What the heads of the responses say, and whether the protocol changes (RFC 9110, section 7.8).
ghost use Rattle.std.specs.Prelude.{◌≡◌, [], IfOk, IfSome, IsOkUnless, IsSome, unwrap_or};
ghost use Rattle.std.specs.Option.{option_copied};
ghost use Rattle.h1_error.specs.Memory.{no_memory};
ghost use Rattle.h1_client.specs.Responses.{final_of, is_upgraded, wishes_upgrade};

use super::HttpSession;
use crate::response_place::ResponsePlace;
use bytes::Bytes;
use h1_error::Error;
use h1_head::{RequestHeader, ResponseHeader, is_interim, is_upgrade_req, is_upgrade_resp};
use h1_link::Link;

impl<L: Link + Drop> HttpSession<L> {
    ghost use Rattle.std.specs.Prelude.{option_map};
    ghost use Rattle.h1_client.specs.ClientView.{request_of};
    ghost use Rattle.h1_client.specs.Responses.{header_of};
    ghost use Rattle.h1_client.specs.Upgrading.{was_upgraded};

    /// The head of a response that was read last.
    pub fn resp_header(&self) -> Option<&ResponseHeader>
        ensures { option_copied result ≡ option_map (λ last. last.header) self.now.answered.last }
    {
        match self.answered.last.get() {
            Some(last) => Some(&last.header),
            None => None,
        }
    }

    /// The status of that head.
    pub fn get_status(&self) -> Option<u16>
        ensures { result ≡ option_map (λ last. last.header.status) self.now.answered.last }
    {
        match self.answered.last.get() {
            Some(last) => Some(last.header.status()),
            None => None,
        }
    }

    /// The value of the first line of that name in that head.
    pub fn get_header(&self, name: &[u8]) -> Option<&[u8]>
        ensures { option_copied result ≡ header_of name.now self.now.answered.last }
    {
        match self.answered.last.get() {
            Some(last) => last.header.get(name),
            None => None,
        }
    }

    /// The same, and no bytes where there is no such line.
    pub fn get_header_bytes(&self, name: &[u8]) -> &[u8]
        ensures { result.now ≡ unwrap_or (header_of name.now self.now.answered.last) [] }
    {
        match self.get_header(name) {
            Some(value) => value,
            None => b"",
        }
    }

    /// The bytes of that head as they were received.
    pub fn get_headers_raw_bytes(&self) -> Result<Bytes, Error>
        requires { IsSome self.now.answered.last }
        ensures ok { IfOk result (λ raw. IfSome self.now.answered.last (λ last. raw ≡ last.raw)) }
        ensures err { IsOkUnless result no_memory }
    {
        let Some(last) = self.answered.last.get() else {
            unreachable!()
        };
        Ok(last.raw.slice(..)?)
    }

    /// Whether the request asks for another protocol.
    pub fn is_upgrade_req(&self) -> bool
        ensures { result ≡ wishes_upgrade (request_of self.now) }
    {
        wishes_upgrade(&self.asked.request)
    }

    /// Whether the connection goes on with another protocol.
    pub fn was_upgraded(&self) -> bool
        ensures { result ≡ was_upgraded self.now }
    {
        wishes_upgrade(&self.asked.request) && is_upgraded(&self.answered.last)
    }

    /// How many bytes of the request's body were taken.
    pub fn body_bytes_sent(&self) -> u64
        ensures { result ≡ self.now.transfer.outgoing.writer.written }
    {
        self.transfer.outgoing().writer.written()
    }
}

/// Whether the request that was taken up asks for another protocol.
fn wishes_upgrade(request: &Option<RequestHeader>) -> bool
    ensures { result ≡ wishes_upgrade request.now }
{
    match request {
        Some(request) => is_upgrade_req(request),
        None => false,
    }
}

/// Whether the final response changes the protocol.
fn is_upgraded(last: &ResponsePlace) -> bool
    ensures { result ≡ is_upgraded (final_of last.now) }
{
    let Some(last) = last.get() else {
        return false;
    };
    let said = &last.header;
    !is_interim(said.status()) && is_upgrade_resp(said)
}
