//! The authority that a CONNECT names (RFC 9110, section 9.3.6; RFC 9112, section 3.2.3).
ghost use Rattle.std.specs.Prelude.{◌≡◌};
ghost use Rattle.std.specs.Option.{option_copied, option_map};
ghost use Rattle.std.specs.Result.{result_err};
ghost use Rattle.h1_authority.specs.RawTarget.{class_of, seen_as};
ghost use Rattle.h1_authority.specs.ParsedAuthority.{parsed_as};
ghost use Rattle.h1_authority.specs.AuthorityFault.{connect_host_fault, connect_host_owed, connect_absolute_fault, connect_other_fault, connect_class_fault, connect_fault};

use crate::bytes::{authority_part, has_userinfo};
use crate::{
    ParsedAuthority, RawTargetAuthority, has_ambiguous_port_suffix, parse_authority,
    raw_target_authority,
};
use h1_error::HeadFault;

/// Whether the target of a CONNECT and the value of its Host line name one authority.
pub(crate) fn check_connect(target: &[u8], host: Option<&[u8]>) -> Result<(), HeadFault>
    ensures { result_err result ≡ connect_fault target.now (option_copied host.entry) }
{
    let front = authority_part(target);
    if has_userinfo(front) {
        return Err(HeadFault::UserinfoInTarget);
    }
    if has_ambiguous_port_suffix(front) {
        return Err(HeadFault::AmbiguousConnect);
    }
    let parsed = parse_authority(front);
    match parsed {
        Some(
            ParsedAuthority {
                host: name,
                port: Some(_),
            },
        ) => check_host(front, name, host),
        _ => check_class(raw_target_authority(target), front, parsed, host),
    }
}

fn check_class(
    class: RawTargetAuthority<'_>,
    front: &[u8],
    parsed: Option<ParsedAuthority<'_>>,
    host: Option<&[u8]>,
) -> Result<(), HeadFault>
    ensures { result_err result ≡ connect_class_fault (seen_as class.entry) front.now
        (option_map parsed_as parsed.entry) (option_copied host.entry) }
{
    match class {
        RawTargetAuthority::Absolute { authority, .. } => check_absolute(authority, host),
        RawTargetAuthority::AmbiguousAuthority => Err(HeadFault::AmbiguousConnect),
        RawTargetAuthority::None => check_other(front, parsed, host),
    }
}

fn check_absolute(authority: &[u8], host: Option<&[u8]>) -> Result<(), HeadFault>
    ensures { result_err result ≡ connect_absolute_fault authority.now (option_copied host.entry) }
{
    if has_userinfo(authority) {
        return Err(HeadFault::UserinfoInTarget);
    }
    if has_ambiguous_port_suffix(authority) {
        return Err(HeadFault::AmbiguousConnect);
    }
    match parse_authority(authority) {
        Some(parsed) => require_host(authority, parsed.host, host),
        None => require_host(authority, authority, host),
    }
}

fn check_other(
    front: &[u8],
    parsed: Option<ParsedAuthority<'_>>,
    host: Option<&[u8]>,
) -> Result<(), HeadFault>
    ensures { result_err result ≡ connect_other_fault front.now (option_map parsed_as parsed.entry)
        (option_copied host.entry) }
{
    match parsed {
        None if !front.is_empty() => require_host(front, front, host),
        _ => Ok(()),
    }
}

fn require_host(authority: &[u8], name: &[u8], host: Option<&[u8]>) -> Result<(), HeadFault>
    ensures { result_err result
        ≡ connect_host_owed authority.now name.now (option_copied host.entry) }
{
    if host.is_none() {
        return Err(HeadFault::ConnectHostMissing);
    }
    check_host(authority, name, host)
}

fn check_host(authority: &[u8], name: &[u8], host: Option<&[u8]>) -> Result<(), HeadFault>
    ensures { result_err result
        ≡ connect_host_fault authority.now name.now (option_copied host.entry) }
{
    match host {
        Some(host) if host != authority && host != name => Err(HeadFault::ConnectHostDiffers),
        _ => Ok(()),
    }
}
