//! A law of the requests that are made, the contract of a function that does nothing.
ghost use Rattle.std.specs.Prelude.{ℕ, ◌≡◌, ◌≤◌, length};
ghost use Rattle.h1_transcript.specs.Complete.{IsValid};
ghost use Rattle.h1_generator.specs.Generated.{generated};
ghost use Rattle.h1_generator.specs.Messages.{messages};

use h1_words::MOST_GENERATED;

/// The bytes that are made are so many requests, each whole, and each wishes the connection to be
/// kept.
pub fn generated_input_is_valid()
    ensures valid { (count : ℕ) → count ≤ MOST_GENERATED
        → IsValid (generated count) (messages count) }
    ensures count { (count : ℕ) → length (messages count) ≡ count }
{}
