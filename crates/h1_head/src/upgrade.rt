//! The change of a connection's protocol (RFC 9110, section 7.8).
ghost use Rattle.std.specs.Prelude.{◌≡◌};
ghost use Rattle.h1_head.specs.Upgrade.{asks_upgrade, is_switch};

use crate::version::is_http_11;
use crate::{RequestHeader, ResponseHeader};

/// Whether a request asks for another protocol: of version 1.1, and with an Upgrade field.
#[inline(always)]
pub fn is_upgrade_req(request: &RequestHeader) -> bool
    ensures { result ≡ asks_upgrade request.now }
{
    is_http_11(request.version()) && request.fields().contains(b"Upgrade")
}

/// Whether a response changes the protocol: a 101 of version 1.1.
#[inline(always)]
pub fn is_upgrade_resp(response: &ResponseHeader) -> bool
    ensures { result ≡ is_switch response.now }
{
    response.status() == 101 && is_http_11(response.version())
}
