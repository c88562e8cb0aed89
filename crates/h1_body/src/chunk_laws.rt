//! Laws of chunked bodies, each the contract of a function that does nothing
//! (RFC 9112, section 7.1).
ghost use Rattle.std.specs.Prelude.{◌≡◌, ◌≢◌, ◌<◌, ◌+◌, ℕ, List, [], ◌++◌, length, take};
ghost use Rattle.h1_body.specs.Body.{whole, unfinished, broken, IsFinal};
ghost use Rattle.h1_body.specs.Chunks.{chunked};
ghost use Rattle.h1_body.specs.ChunkedBody.{ChunkedBody, IsChunkedBody, print_body, content};
ghost use Rattle.h1_body.specs.Reader.{body};
ghost use Rattle.h1_body.specs.declared.chunking.Chunking.TheVariants.{Start};

/// What the reader makes of a chunked body is what the grammar says.
pub fn chunked_is_the_grammar()
    // What is whole is the bytes of a body.
    ensures only { (bytes payload : List ℕ) (n : ℕ) → chunked Start bytes ≡ whole payload n
        → (b : ChunkedBody) × IsChunkedBody b × (take n bytes ≡ print_body b)
        × (n ≡ length (print_body b)) × (payload ≡ content b) }

    // The bytes of a body are whole, whatever follows.
    ensures all { (b : ChunkedBody) (rest : List ℕ) → IsChunkedBody b
        → chunked Start (print_body b ++ rest) ≡ whole (content b) (length (print_body b)) }

    // What is unfinished is the front of a body.
    ensures live { (bytes payload : List ℕ) → chunked Start bytes ≡ unfinished payload
        → (more : List ℕ) × (later : List ℕ)
        × (chunked Start (bytes ++ more) ≡ whole (payload ++ later) (length (bytes ++ more))) }

    // What is broken begins no body, and the bytes before the one that broke it do.
    ensures dead { (bytes more payload : List ℕ) (b : ChunkedBody)
        → chunked Start bytes ≡ broken payload → IsChunkedBody b → bytes ++ more ≢ print_body b }
    ensures edge { (bytes payload : List ℕ) → chunked Start bytes ≡ broken payload
        → (n : ℕ) × (n < length bytes) × (chunked Start (take n bytes) ≡ unfinished payload)
        × (chunked Start (take (n + 1) bytes) ≡ broken payload) }

    // An end stays as it is.
    ensures stable { (bytes more : List ℕ) → IsFinal (chunked Start bytes)
        → chunked Start (bytes ++ more) ≡ chunked Start bytes }
{}

/// No chunked body is the front of another.
pub fn no_chunked_body_begins_another()
    ensures { (a b : ChunkedBody) (more : List ℕ) → IsChunkedBody a → IsChunkedBody b
        → print_body b ≡ print_body a ++ more → (more ≡ []) × (content a ≡ content b) }
{}
