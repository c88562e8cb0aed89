//! Names of fields and options, which ignore case (RFC 9110, section 5.1).
ghost use Rattle.std.specs.Prelude.{◌≡◌, length};
ghost use Rattle.h1_fields.specs.Names.{same_name};

/// Whether the two names are the same.
#[inline(always)]
#[tactic(auto, unfolding(crate::specs::Names::same_name))]
pub fn is_same_name(a: &[u8], b: &[u8]) -> bool
    ensures { result ≡ same_name a.now b.now }
{
    if a.len() != b.len() {
        return false;
    }
    // Most names come as they are asked for, and equal bytes need no case.
    a == b || is_same_in_any_case(a, b)
}

// The same of names of one length, byte by byte. Kept apart, since many places call it, and few
// need it.
#[inline(never)]
#[tactic(auto, unfolding(crate::specs::Names::same_name))]
fn is_same_in_any_case(a: &[u8], b: &[u8]) -> bool
    requires { length a.now ≡ length b.now }
    ensures { result ≡ same_name a.now b.now }
{
    for at in 0..a.len() {
        if a[at] != b[at] && !a[at].eq_ignore_ascii_case(&b[at]) {
            return false;
        }
    }
    true
}
