//! The law of written bodies, the contract of a function that does nothing
//! (RFC 9112, section 7.1).
ghost use Rattle.std.specs.Prelude.{◌≡◌, ◌≤◌, ◌+◌, ℕ, List, ◌++◌, length};
ghost use Rattle.std.specs.List.{flat_map, AllByRecursion};
ghost use Rattle.h1_body.specs.Body.{whole};
ghost use Rattle.h1_body.specs.Chunks.{chunked};
ghost use Rattle.h1_body.specs.Writer.{piece_bytes, after_piece, end_bytes, begun, body_bytes};
ghost use Rattle.h1_body.specs.Written.{chunk_bytes, last_chunk};
ghost use Rattle.h1_body.specs.declared.framing.Framing.{Framing};
ghost use Rattle.h1_body.specs.declared.chunking.Chunking.TheVariants.{Start};

use crate::CHUNK_LIMIT;

/// What is written is one body, and is read back.
pub fn written_bodies_are_read_back()
    // One piece and the end.
    ensures one { (framing : Framing) (payload : List ℕ)
        → piece_bytes (begun framing) payload ++ end_bytes (after_piece (begun framing) payload)
        ≡ body_bytes framing payload }

    // The chunks of any pieces and the end, whatever follows.
    ensures pieces { (pieces : List (List ℕ)) (rest : List ℕ)
        → AllByRecursion (λ piece. length piece ≤ CHUNK_LIMIT) pieces
        → chunked Start (flat_map chunk_bytes pieces ++ last_chunk ++ rest)
        ≡ whole (flat_map (λ piece. piece) pieces)
        (length (flat_map chunk_bytes pieces ++ last_chunk)) }
{}
