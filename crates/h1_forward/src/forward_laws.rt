//! Laws of requests that are forwarded, as contracts of functions that do nothing (RFC 9112,
//! sections 2 to 7).
ghost use Rattle.std.specs.Prelude.{◌≡◌, ◌≤◌, ◌++◌, ◌∷◌, [], ℕ, List, Some, length};
ghost use Rattle.h1_body.specs.Framing.{framing};
ghost use Rattle.h1_body.specs.Writer.{begun};
ghost use Rattle.h1_body.specs.declared.chunking.TheConstants.{CHUNK_LIMIT};
ghost use Rattle.h1_client.specs.ClientView.{ClientView};
ghost use Rattle.h1_head.specs.declared.limits.TheConstants.{MAX_HEADER_SIZE};
ghost use Rattle.h1_head.specs.Views.{RequestView};
ghost use Rattle.h1_head.specs.Wire.{request_bytes};
ghost use Rattle.h1_transcript.specs.Stream.{Message, Parses, Tail};
ghost use Rattle.h1_forward.specs.declared.forward.Stage.TheVariants.{Done};
ghost use Rattle.h1_forward.specs.Forwarded.{IsReadFrom, IsShortEnough, IsWrittenAs, message};
ghost use Rattle.h1_forward.specs.Forwarding.{ForwardView, new_forward};
ghost use Rattle.h1_forward.specs.Runs.{IsForwarded, Runs, TookRequest};
ghost use Rattle.h1_forward.specs.WrittenBody.{AreChunks, body_from, payload_of};

use h1_link::Link;

/// A request that a server read with its whole body, and that is written again with the pieces of
/// that body, is read by the next server as the same request with the same payload, in front of
/// what follows it, and in no other way. Whether the head was escaped when it was read, and whether
/// Content-Length stood beside Transfer-Encoding then, doesn't matter.
pub fn forwarded_requests_read_back()
    ensures read { (source bytes more : List ℕ) (request : RequestView) (pieces : List (List ℕ))
        (requests : List Message) (tail : Tail)
        → IsReadFrom source request (payload_of pieces) → AreChunks pieces
        → (written : IsWrittenAs request pieces bytes) → IsShortEnough written
        → Parses more requests tail
        → Parses (bytes ++ more) (message request (payload_of pieces)
        (length (body_from (begun (framing request)) pieces)) ∷ requests) tail }
    ensures alone { (source bytes more : List ℕ) (request : RequestView) (pieces : List (List ℕ))
        (all : List Message) (tail : Tail)
        → IsReadFrom source request (payload_of pieces) → AreChunks pieces
        → (written : IsWrittenAs request pieces bytes) → IsShortEnough written
        → Parses (bytes ++ more) all tail
        → (requests : List Message) × (all ≡ message request (payload_of pieces)
        (length (body_from (begun (framing request)) pieces)) ∷ requests)
        × Parses more requests tail }
{}

/// What a client's session writes step by step is the request, however often a step waits: once all
/// is done, its link took the bytes of the request and no others.
pub fn forwarding_writes_the_request<L: Link + Drop>()
    ensures { (moments : List ℕ) (request : RequestView) (payload front : List ℕ)
        (new : ForwardView) (before behind : ClientView L)
        → before.transfer.outgoing.owed ≡ [] → request_bytes request ≡ Some front
        → Runs L.state L.same_plan moments (new_forward request payload) before new behind
        → new.stage ≡ Done
        → TookRequest (L.state before.transfer.link) (L.state behind.transfer.link) request
        payload }
{}

/// A request that a server read with its whole body, and that a client's session wrote step by step
/// over a link that tells its bytes, is what the next server reads of the bytes that the link took
/// then: one request, of the same method, target, version, fields and payload, and nothing else.
pub fn a_forwarded_request_is_the_same_request<L: Link + Drop>()
    ensures { (source : List ℕ) (moments : List ℕ) (request : RequestView)
        (payload front : List ℕ)
        (new : ForwardView) (before behind : ClientView L) (bytes : List ℕ)
        → IsReadFrom source request payload → length payload ≤ CHUNK_LIMIT
        → request_bytes request ≡ Some front → length front ≤ MAX_HEADER_SIZE
        → before.transfer.outgoing.owed ≡ []
        → (L.state before.transfer.link).written ≡ Some bytes
        → Runs L.state L.same_plan moments (new_forward request payload) before new behind
        → new.stage ≡ Done
        → IsForwarded bytes (L.state behind.transfer.link).written request payload }
{}
