//! Laws of the numbers of the kinds of error.
ghost use Rattle.std.specs.Prelude.{◌≡◌};
ghost use Rattle.h1_error.specs.Code.{code_of, SameVariant};
ghost use Rattle.h1_error.specs.declared.error.ErrorType.{ErrorType};

/// No two kinds have the same number: where the numbers are the same, the kinds differ at most in
/// the value that they carry.
pub fn kinds_have_their_own_numbers()
    ensures { (a b : ErrorType) → code_of a ≡ code_of b → SameVariant a b }
{}
