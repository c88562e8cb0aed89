//! Laws of the head at the front of a stream: the answer for the same bytes is one, a decided one
//! stays, and a head of the grammar is read as it came (RFC 9112, sections 2.2 and 5).
ghost use Rattle.std.specs.Prelude.{◌≡◌, ◌<◌, ◌++◌, ℕ, List, [], take};
ghost use Rattle.httparse.specs.Grammar.{ReadsResponse, ResponseHead};
ghost use Rattle.h1_error.specs.declared.head_fault.HeadFault.{HeadFault};
ghost use Rattle.h1_head.specs.RequestHead.{NotYetAt};
ghost use Rattle.h1_head.specs.Views.{ResponseView};
ghost use Rattle.h1_head.specs.Normal.{normal};
ghost use Rattle.h1_head.specs.ResponseHead.{RefusedAt, ResponseAt};

/// The same bytes have one answer: two accepted heads are equal, two faults are equal, and no two
/// kinds of answer meet.
pub fn response_heads_are_unique()
    ensures accepted { (bytes : List ℕ) (m n : ℕ) (one other : ResponseView)
        → ResponseAt bytes m one → ResponseAt bytes n other → (m ≡ n) × (one ≡ other) }
    ensures refused { (bytes : List ℕ) (one other : HeadFault)
        → RefusedAt bytes one → RefusedAt bytes other → one ≡ other }
    ensures accepted_or_refused { (bytes : List ℕ) (n : ℕ) (response : ResponseView)
        (fault : HeadFault) → ResponseAt bytes n response → RefusedAt bytes fault → ⊥ }
    ensures accepted_or_not_yet { (bytes : List ℕ) (n : ℕ) (response : ResponseView)
        → ResponseAt bytes n response → NotYetAt bytes → ⊥ }
    ensures refused_or_not_yet { (bytes : List ℕ) (fault : HeadFault)
        → RefusedAt bytes fault → NotYetAt bytes → ⊥ }
{}

/// Bytes that come later change no decided answer, and no front of an accepted head decides
/// anything.
pub fn response_heads_are_stable()
    ensures accepted { (bytes more : List ℕ) (n : ℕ) (response : ResponseView)
        → ResponseAt bytes n response → ResponseAt (bytes ++ more) n response }
    ensures refused { (bytes more : List ℕ) (fault : HeadFault)
        → RefusedAt bytes fault → RefusedAt (bytes ++ more) fault }
    ensures fronts { (bytes : List ℕ) (n k : ℕ) (response : ResponseView)
        → ResponseAt bytes n response → k < n → NotYetAt (take k bytes) }
{}

/// Bytes that are a head of the grammar are read as they came.
pub fn heads_of_the_grammar_are_normal()
    ensures { (bytes : List ℕ) (head : ResponseHead) → ReadsResponse bytes head []
        → normal bytes ≡ bytes }
{}
