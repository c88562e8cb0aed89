//! What the definitions of an authority mean in the words of its grammar (RFC 3986, section 3.2).
ghost use Rattle.std.specs.Prelude.{◌≡◌, ℕ, List};
ghost use Rattle.h1_authority.specs.ParsedAuthority.{Authority, parse_authority, port_of};
ghost use Rattle.h1_authority.specs.AuthorityGrammar.{IsAuthority, IsPort};

/// An authority is parsed exactly where the bytes follow the grammar, with these parts.
pub fn parsed_authorities_follow_the_grammar()
    ensures only { (bytes : List ℕ) (authority : Authority) →
        parse_authority bytes ≡ Some authority → IsAuthority bytes authority }
    ensures all { (bytes : List ℕ) (authority : Authority) →
        IsAuthority bytes authority → parse_authority bytes ≡ Some authority }
{}

/// A text is a port exactly where it writes this number of at most 65,535 in decimal.
pub fn ports_are_numbers()
    ensures only { (text : List ℕ) (port : ℕ) → port_of text ≡ Some port → IsPort text port }
    ensures all { (text : List ℕ) (port : ℕ) → IsPort text port → port_of text ≡ Some port }
{}
