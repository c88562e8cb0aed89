//! Whether the parts of a request name one authority (RFC 9112, section 3.2).
ghost use Rattle.std.specs.Prelude.{◌≡◌};
ghost use Rattle.std.specs.Option.{option_copied};
ghost use Rattle.std.specs.Result.{result_err};
ghost use Rattle.h1_authority.specs.RawTarget.{class_of, seen_as};
ghost use Rattle.h1_authority.specs.AuthorityFault.{hosts_seen, duplicate_fault, userinfo_fault, uri_fault, lines_fault, unparseable_fault, differs_fault, target_fault, fault_of_lines};

use crate::bytes::has_userinfo;
use crate::connect::check_connect;
use crate::{
    Hosts, RawTargetAuthority, is_http_family_scheme, parse_authority, raw_target_authority,
};
use h1_error::HeadFault;

/// Whether method, target, Host lines and the authority of the URI name one authority. The first
/// fault is the answer: first what the Host lines and the URI say by themselves, then the target.
pub fn check_authority(
    method: &[u8],
    target: &[u8],
    hosts: Hosts<'_>,
    uri_authority: Option<&[u8]>,
) -> Result<(), HeadFault>
    ensures { result_err result ≡ fault_of_lines method.now target.now (hosts_seen hosts.entry)
        (option_copied uri_authority.entry) }
{
    check_lines(hosts, uri_authority)?;
    if method == b"CONNECT".as_slice() {
        check_connect(target, hosts.value())
    } else {
        check_target(raw_target_authority(target), hosts.value())
    }
}

fn check_lines(hosts: Hosts<'_>, uri_authority: Option<&[u8]>) -> Result<(), HeadFault>
    ensures { result_err result
        ≡ lines_fault (hosts_seen hosts.entry) (option_copied uri_authority.entry) }
{
    check_duplicate(hosts)?;
    check_userinfo(hosts.value(), HeadFault::UserinfoInHost)?;
    check_userinfo(uri_authority, HeadFault::UserinfoInUri)?;
    check_uri(hosts.value(), uri_authority)
}

fn check_duplicate(hosts: Hosts<'_>) -> Result<(), HeadFault>
    ensures { result_err result ≡ duplicate_fault (hosts_seen hosts.entry) }
{
    match hosts {
        Hosts::Several => Err(HeadFault::DuplicateHost),
        Hosts::Absent | Hosts::One(_) => Ok(()),
    }
}

fn check_userinfo(value: Option<&[u8]>, fault: HeadFault) -> Result<(), HeadFault>
    ensures { result_err result ≡ userinfo_fault (option_copied value.entry) fault }
{
    match value {
        Some(value) if has_userinfo(value) => Err(fault),
        _ => Ok(()),
    }
}

fn check_uri(host: Option<&[u8]>, uri_authority: Option<&[u8]>) -> Result<(), HeadFault>
    ensures { result_err result
        ≡ uri_fault (option_copied host.entry) (option_copied uri_authority.entry) }
{
    match (host, uri_authority) {
        (Some(host), Some(authority)) if host != authority => Err(HeadFault::HostDiffersFromUri),
        _ => Ok(()),
    }
}

fn check_target(class: RawTargetAuthority<'_>, host: Option<&[u8]>) -> Result<(), HeadFault>
    ensures { result_err result ≡ target_fault (seen_as class.entry) (option_copied host.entry) }
{
    match class {
        RawTargetAuthority::None => Ok(()),
        RawTargetAuthority::AmbiguousAuthority => Err(HeadFault::AmbiguousTarget),
        RawTargetAuthority::Absolute { scheme, authority } => {
            check_parses(scheme, authority)?;
            check_userinfo(Some(authority), HeadFault::UserinfoInTarget)?;
            check_equal(authority, host)
        }
    }
}

fn check_parses(scheme: &[u8], authority: &[u8]) -> Result<(), HeadFault>
    ensures { result_err result ≡ unparseable_fault scheme.now authority.now }
{
    if is_http_family_scheme(scheme) && parse_authority(authority).is_none() {
        Err(HeadFault::UnparseableAuthority)
    } else {
        Ok(())
    }
}

fn check_equal(authority: &[u8], host: Option<&[u8]>) -> Result<(), HeadFault>
    ensures { result_err result ≡ differs_fault authority.now (option_copied host.entry) }
{
    match host {
        Some(host) if host != authority => Err(HeadFault::HostDiffersFromTarget),
        _ => Ok(()),
    }
}
