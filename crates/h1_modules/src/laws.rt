//! What the order of modules is, in plain words.
ghost use Rattle.std.specs.Prelude.{◌≡◌, ◌++◌, ◌∷◌, [], List, ℤ, filter, if◌then◌else◌};
ghost use Rattle.h1_modules.specs.Builders.{placed, Descends, is_order};

use crate::HttpModuleBuilder;

/// A builder that is added leaves the list in descending order, and stands after those of its own
/// order; the builders of each other order stand as before.
pub fn modules_stand_in_order<B: HttpModuleBuilder>()
    ensures descends { (added : B) (builders : List B)
        → Descends B.order builders → Descends B.order (placed B.order added builders) }
    ensures as_added { (added : B) (builders : List B) (order : ℤ)
        → Descends B.order builders
        → filter (λ b. is_order order (B.order b)) (placed B.order added builders)
        ≡ filter (λ b. is_order order (B.order b)) builders
        ++ (if is_order order (B.order added) then added ∷ [] else []) }
{}
