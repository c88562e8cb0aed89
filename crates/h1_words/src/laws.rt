//! What the definitions of texts, numbers and scripts mean.
ghost use Rattle.std.specs.Prelude.{◌≡◌, ◌<◌, ◌++◌, ℕ, List, length, Some, IsTrue};
ghost use Rattle.std.specs.List.{AllByRecursion, list_all};
ghost use Rattle.h1_words.specs.Number.{number_up_to, IsNumber};
ghost use Rattle.h1_words.specs.Script.{script_of};
ghost use Rattle.h1_words.specs.ByteText.{is_printable, text_of_bytes, bytes_of_text};

use crate::MAX_SCRIPT;

/// The text that a report writes for bytes is printable, and a script that gives it gives these
/// bytes.
pub fn texts_read_back()
    ensures printable { (bytes : List ℕ) → AllByRecursion (λ b. b < 256) bytes →
        IsTrue (list_all is_printable (text_of_bytes bytes)) }
    ensures same { (bytes : List ℕ) → AllByRecursion (λ b. b < 256) bytes →
        bytes_of_text (text_of_bytes bytes) ≡ Some bytes }
{}

/// A number is read exactly where 1 to 20 digits write it in decimal and it is at most `most`.
pub fn numbers_are_decimal()
    ensures only { (most : ℕ) (digits : List ℕ) (number : ℕ) →
        number_up_to most digits ≡ Some number → IsNumber most digits number }
    ensures all { (most : ℕ) (digits : List ℕ) (number : ℕ) →
        IsNumber most digits number → number_up_to most digits ≡ Some number }
{}

/// A script that is too long is judged by any front of it that is too long.
pub fn long_scripts_are_judged_by_their_front()
    ensures { (front more : List ℕ) → MAX_SCRIPT < length front →
        script_of (front ++ more) ≡ script_of front }
{}
