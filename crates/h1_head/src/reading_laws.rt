//! Laws of the head at the front of a stream: the answer for the same bytes is one, a decided one
//! stays, and a head ends where its grammar does (RFC 9112, section 2.2).
ghost use Rattle.std.specs.Prelude.{◌≡◌, ◌<◌, ◌++◌, ℕ, List, [], Bool, Some, length, take};
ghost use Rattle.httparse.specs.Grammar.{ReadsRequest, RequestHead, print_request};
ghost use Rattle.h1_cut.specs.Cut.{cut};
ghost use Rattle.h1_error.specs.declared.head_fault.HeadFault.{HeadFault};
ghost use Rattle.h1_head.specs.RequestGrammar.{IsReadAs};
ghost use Rattle.h1_head.specs.RequestHead.{HeadAt, NotYetAt, RefusedAt};
ghost use Rattle.h1_head.specs.Views.{RequestView};

/// The same bytes have one answer: two accepted heads are equal, two faults are equal, and no two
/// kinds of answer meet.
pub fn request_heads_are_unique()
    ensures accepted { (bytes : List ℕ) (m n : ℕ) (one other : RequestView) (b c : Bool)
        → HeadAt bytes m one b → HeadAt bytes n other c → (m ≡ n) × (one ≡ other) × (b ≡ c) }
    ensures refused { (bytes : List ℕ) (one other : HeadFault)
        → RefusedAt bytes one → RefusedAt bytes other → one ≡ other }
    ensures raw { (head one other : List ℕ) → IsReadAs head one → IsReadAs head other
        → one ≡ other }
    ensures accepted_or_refused { (bytes : List ℕ) (n : ℕ) (request : RequestView) (both : Bool)
        (fault : HeadFault)
        → HeadAt bytes n request both → RefusedAt bytes fault → ⊥ }
    ensures accepted_or_not_yet { (bytes : List ℕ) (n : ℕ) (request : RequestView) (both : Bool)
        → HeadAt bytes n request both → NotYetAt bytes → ⊥ }
    ensures refused_or_not_yet { (bytes : List ℕ) (fault : HeadFault)
        → RefusedAt bytes fault → NotYetAt bytes → ⊥ }
{}

/// Bytes that come later change no decided answer.
pub fn request_heads_are_stable()
    ensures accepted { (bytes more : List ℕ) (n : ℕ) (request : RequestView) (both : Bool)
        → HeadAt bytes n request both → HeadAt (bytes ++ more) n request both }
    ensures refused { (bytes more : List ℕ) (fault : HeadFault)
        → RefusedAt bytes fault → RefusedAt (bytes ++ more) fault }
{}

/// No front of an accepted head decides anything, and no accepted head is the front of another.
pub fn request_heads_have_no_front()
    ensures fronts { (bytes : List ℕ) (n k : ℕ) (request : RequestView) (both : Bool)
        → HeadAt bytes n request both → k < n → NotYetAt (take k bytes) }
    ensures prefix_free { (head more : List ℕ) (one other : RequestView) (b c : Bool)
        → HeadAt head (length head) one b → HeadAt (head ++ more) (length (head ++ more)) other c
        → more ≡ [] }
{}

/// Bytes that begin with a head of the grammar are cut where it ends: the grammar has an empty line
/// behind the field lines, and no other behind the request line.
pub fn request_heads_end_with_their_grammar()
    ensures { (bytes rest : List ℕ) (head : RequestHead) → ReadsRequest bytes head rest
        → cut bytes ≡ Some (length (print_request head)) }
{}
