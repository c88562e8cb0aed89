use super::*;
use h1_error::HeadFault::{self, *};

fn check(method: &str, target: &str, host: Option<&str>) -> Result<(), HeadFault> {
    let hosts = match host {
        Some(host) => Hosts::Absent.and(host.as_bytes()),
        None => Hosts::Absent,
    };
    check_authority(method.as_bytes(), target.as_bytes(), hosts, None)
}

/// Targets of CONNECT, the value of Host, and what is answered (RFC 9112, section 3.2.3).
const CONNECT_CASES: [(&str, Option<&str>, Result<(), HeadFault>); 20] = [
    ("example.com:80", Some("example.com"), Ok(())),
    ("example.com:80", Some("example.com:80"), Ok(())),
    ("example.com:80", None, Ok(())),
    (
        "example.com:80",
        Some("example.com:81"),
        Err(ConnectHostDiffers),
    ),
    (
        "example.com:80",
        Some("Example.com"),
        Err(ConnectHostDiffers),
    ),
    (
        "user@example.com:80",
        Some("example.com"),
        Err(UserinfoInTarget),
    ),
    ("[a[b]:443", Some("[a[b]:443"), Err(AmbiguousConnect)),
    ("a%2f.example:443", Some("a%2f.example:443"), Ok(())),
    (
        "a%2f.example:443",
        Some("other.example"),
        Err(ConnectHostDiffers),
    ),
    ("a%2f.example:443", None, Err(ConnectHostMissing)),
    ("[::1]", Some("other.example"), Ok(())),
    ("[::1]:443", Some("[::1]"), Ok(())),
    ("a:", Some("b"), Ok(())),
    ("a:x", Some("b"), Ok(())),
    ("a:65536", Some("b"), Ok(())),
    ("a:65535", Some("b"), Err(ConnectHostDiffers)),
    ("https://a.example/", None, Err(ConnectHostMissing)),
    ("https://a.example:443/", Some("a.example"), Ok(())),
    (
        "http:/\\/\\other.example/",
        Some("a"),
        Err(AmbiguousConnect),
    ),
    ("/unix", Some("a"), Ok(())),
];

#[test]
fn a_connect_names_the_authority_of_its_host(rt: HostRuntime) {
    for (target, host, expected) in CONNECT_CASES {
        assert_eq!(rt; check("CONNECT", target, host), expected, "{target}");
    }
}

#[test]
fn another_method_names_the_authority_of_its_host(rt: HostRuntime) {
    let cases: [(&str, Option<&str>, Result<(), HeadFault>); 14] = [
        ("/where?q=now", Some("www.example.org"), Ok(())),
        ("/x@y", Some("a"), Ok(())),
        ("*", None, Ok(())),
        (
            "http://www.example.org/pub",
            Some("www.example.org"),
            Ok(()),
        ),
        ("http://www.example.org/pub", None, Ok(())),
        (
            "http://www.example.org/pub",
            Some("www.example.com"),
            Err(HostDiffersFromTarget),
        ),
        ("http://A/", Some("a"), Err(HostDiffersFromTarget)),
        ("http://u@a/", Some("a"), Err(UserinfoInTarget)),
        ("http:/\\/\\other.example/", Some("a"), Err(AmbiguousTarget)),
        ("http://a:1:2/x", Some("a:1:2"), Err(UnparseableAuthority)),
        ("ftp://a:1:2/x", Some("a:1:2"), Ok(())),
        ("ftp://a%/x", Some("b"), Err(HostDiffersFromTarget)),
        ("/", Some(""), Ok(())),
        ("/", Some("u@a"), Err(UserinfoInHost)),
    ];
    for (target, host, expected) in cases {
        assert_eq!(rt; check("GET", target, host), expected, "{target}");
    }
}

#[test]
fn host_lines_and_the_uri_are_judged_before_the_target(rt: HostRuntime) {
    let two = Hosts::Absent.and(b"a").and(b"a");
    assert_eq!(rt;
        check_authority(b"GET", b"http:a", two, None),
        Err(DuplicateHost)
    );
    let one = Hosts::One(b"a");
    assert_eq!(rt;
        check_authority(b"GET", b"http:a", one, Some(b"u@a")),
        Err(UserinfoInUri)
    );
    assert_eq!(rt;
        check_authority(b"GET", b"http:a", one, Some(b"b")),
        Err(HostDiffersFromUri)
    );
    assert_eq!(rt; check_authority(b"GET", b"/", one, Some(b"a")), Ok(()));
    assert_eq!(rt; check_authority(b"connect", b"b:1", one, None), Ok(()));
}

#[test]
fn a_port_suffix_is_ambiguous_where_readers_may_differ(rt: HostRuntime) {
    let cases: [(&str, bool); 9] = [
        ("a:1:2", true),
        ("[::1]:80", false),
        ("a:80", false),
        ("[::1", true),
        ("[a[b]:443", true),
        ("[::1]:80:81", true),
        ("[::1]]", true),
        ("a]", true),
        ("", false),
    ];
    for (authority, expected) in cases {
        assert_eq!(rt;
            has_ambiguous_port_suffix(authority.as_bytes()),
            expected,
            "{authority}"
        );
    }
}

#[test]
fn an_authority_has_a_host_and_perhaps_a_port(rt: HostRuntime) {
    let cases: [(&str, Option<(&str, Option<u16>)>); 20] = [
        (
            "www.example.org:8001",
            Some(("www.example.org", Some(8001))),
        ),
        ("192.0.2.16:80", Some(("192.0.2.16", Some(80)))),
        ("[2001:db8::7]", Some(("[2001:db8::7]", None))),
        ("[2001:db8::7]:443", Some(("[2001:db8::7]", Some(443)))),
        ("user:pw@[x]@example.com", Some(("example.com", None))),
        ("@a", Some(("a", None))),
        ("a:+80", Some(("a", Some(80)))),
        ("a:-80", Some(("a", None))),
        ("a:65535", Some(("a", Some(65535)))),
        ("a:65536", Some(("a", None))),
        ("a:000000000000000000000080", Some(("a", Some(80)))),
        ("a:", Some(("a", None))),
        ("a:x", Some(("a", None))),
        (":80", Some(("", Some(80)))),
        ("a:1:2", None),
        ("a%2f", None),
        ("[1:2:3:4:5:6:7:8:9:]", None),
        ("[::1]x", None),
        ("a@", None),
        ("a b", None),
    ];
    for (text, expected) in cases {
        let parsed = parse_authority(text.as_bytes());
        assert_eq!(rt; parsed.is_some(), expected.is_some(), "{text}");
        if let (Some(parsed), Some((host, port))) = (parsed, expected) {
            assert_eq!(rt; parsed.host, host.as_bytes(), "{text}");
            assert_eq!(rt; parsed.port, port, "{text}");
        }
    }
}

#[test]
fn a_target_in_absolute_form_has_a_scheme_and_an_authority(rt: HostRuntime) {
    let target = b"HTTP://example.com:80/a?b".as_slice();
    let expected = RawTargetAuthority::Absolute {
        scheme: b"HTTP",
        authority: b"example.com:80",
    };
    assert_eq!(rt; raw_target_authority(target), expected);
    for target in ["/a", "urn:x", "a/b:c", "ftp:///a", "mailto:a@b", ""] {
        let class = raw_target_authority(target.as_bytes());
        assert_eq!(rt; class, RawTargetAuthority::None, "{target}");
    }
    for target in [
        "http:",
        "http:///a",
        "https://a\\b/",
        "1x://a/",
        "ftp://a\\b",
    ] {
        let class = raw_target_authority(target.as_bytes());
        assert_eq!(rt; class, RawTargetAuthority::AmbiguousAuthority, "{target}");
    }
    assert!(rt; is_http_family_scheme(b"HtTpS") && !is_http_family_scheme(b"ftp"));
}
