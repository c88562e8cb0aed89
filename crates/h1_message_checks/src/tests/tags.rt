//! Lists of entity tags by example.
ghost use Rattle.std.specs.Prelude.{◌<◌};

use h1_head::weak_validate_etag;

/// Lists of tags, targets, and whether one of the list is the target.
static LISTS: [(&[u8], &[u8], bool); 25] = [
    // Any tag is matched by `*`, and by `*` alone.
    (b"*", b"\"a\"", true),
    (b"*", b"", true),
    (b"*, \"b\"", b"\"a\"", false),
    // RFC 9110, section 8.8.3.2: the table of comparisons, whose weak column counts.
    (b"W/\"1\"", b"W/\"1\"", true),
    (b"W/\"1\"", b"W/\"2\"", false),
    (b"W/\"1\"", b"\"1\"", true),
    (b"\"1\"", b"\"1\"", true),
    (b"\"1\"", b"W/\"1\"", true),
    // RFC 9110, section 13.1.2: the examples of If-None-Match.
    (b"\"xyzzy\"", b"\"xyzzy\"", true),
    (
        b"\"xyzzy\", \"r2d2xxxx\", \"c3piozzzz\"",
        b"\"r2d2xxxx\"",
        true,
    ),
    (
        b"W/\"xyzzy\", W/\"r2d2xxxx\", W/\"c3piozzzz\"",
        b"\"c3piozzzz\"",
        true,
    ),
    (b"\"xyzzy\", \"r2d2xxxx\"", b"\"c3piozzzz\"", false),
    (b"a, \"xyzzy\",\"r2d2\"", b"\"xyzzy\"", true),
    // Lists with blanks, with none, and with empty entries.
    (b"\"a\",\"b\"", b"\"b\"", true),
    (b"\"a\" ,\t\"b\" ", b"\"b\"", true),
    (b",, \"a\",, ,W/\"b\",", b"\"b\"", true),
    (b"\"a\",", b"\"b\"", false),
    // A tag without quotes, and one that begins with another.
    (b"abc", b"abc", true),
    (b"abcd", b"abc", false),
    (b"abcd, abc", b"abc", true),
    (b"\"a\"b", b"\"a\"", false),
    // A comma inside a tag with quotes; without them it is taken for the end of an entry.
    (b"\"xyzzy,xyz,x,y\", \"xyzzy\"", b"\"xyz,x\"", false),
    (b"\"xyzzy,xyz,x,y\", \"xyzzy\"", b"xyz,x", true),
    (b"", b"\"a\"", false),
    (b"W/", b"\"a\"", false),
];

#[test]
fn tags_are_compared_weakly(rt: HostRuntime) {
    for i in 0..LISTS.len() {
        assert!(rt; is_as_told(i), "row {i}");
    }
}

/// Whether a list has its target as the row tells.
fn is_as_told(row: usize) -> bool
    requires { row < 25 }
{
    let (list, target, is_match) = LISTS[row];
    weak_validate_etag(list, target) == is_match
}
