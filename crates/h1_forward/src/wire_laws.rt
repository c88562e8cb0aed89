//! The law of request heads that are written and read, as contracts of functions that do nothing
//! (RFC 9112, sections 2 to 6).
ghost use Rattle.std.specs.Prelude.{◌≡◌, ◌≤◌, ◌++◌, ℕ, List, Bool, Some, None, IsSome, length, false};
ghost use Rattle.h1_head.specs.declared.limits.TheConstants.{MAX_HEADER_SIZE};
ghost use Rattle.h1_head.specs.RequestFault.{first_fault};
ghost use Rattle.h1_head.specs.RequestHead.{HeadAt};
ghost use Rattle.h1_head.specs.Views.{RequestView};
ghost use Rattle.h1_head.specs.Wire.{request_bytes};
ghost use Rattle.h1_forward.specs.Plain.{IsPlain, IsSoundPlain, ReadsBack, on_wire};

/// A request that the head grammar admits as it stands, that no check refuses and whose bytes are
/// within the limit of a head is read back from its bytes: as this request, and as no other.
pub fn written_requests_read_back()
    // It has bytes.
    ensures written { (request : RequestView) → IsPlain request → IsSome (request_bytes request) }
    ensures read { (request : RequestView) (bytes : List ℕ)
        → IsPlain request → first_fault (on_wire request) ≡ None
        → request_bytes request ≡ Some bytes → length bytes ≤ MAX_HEADER_SIZE
        → ReadsBack bytes (on_wire request) }
    ensures alone { (request other : RequestView) (bytes more : List ℕ) (n : ℕ) (both : Bool)
        → ReadsBack bytes request → HeadAt (bytes ++ more) n other both
        → (n ≡ length bytes) × (other ≡ request) × (both ≡ false) }
{}

/// Every request that was read is such a request, whether its head was escaped or not, once its
/// Content-Length lines beside Transfer-Encoding went.
pub fn read_requests_are_plain()
    ensures { (bytes : List ℕ) (n : ℕ) (request : RequestView) (both : Bool)
        → HeadAt bytes n request both → IsSoundPlain request }
{}
