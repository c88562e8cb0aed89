//! What the definitions say in other words.
ghost use Rattle.std.specs.Prelude.{◌≡◌, ℕ, Bool, List, [], ◌∷◌, false, codes};
ghost use Rattle.h1_fields.specs.Names.{same_name};
ghost use Rattle.h1_fields.specs.Lines.{values_of};
ghost use Rattle.h1_fields.specs.ContentLength.{content_length};
ghost use Rattle.h1_fields.specs.Codings.{codings, has_coding_line};
ghost use Rattle.h1_head.specs.Views.{ResponseView};
ghost use Rattle.h1_head.specs.Date.{IsDateAt};
ghost use Rattle.h1_head.specs.Wire.{reply_head, keep_option};

/// A second has one date text.
pub fn dates_are_unique()
    ensures { (secs : ℕ) (text other : List ℕ) → IsDateAt secs text → IsDateAt secs other
        → text ≡ other }
{}

/// A reply has one Date and one Connection line, and its framing is that of the response.
pub fn replies_keep_their_framing()
    ensures date { (view : ResponseView) (date : List ℕ) (keep : Bool)
        → values_of (codes "Date") (reply_head view date keep).fields ≡ date ∷ [] }
    ensures connection { (view : ResponseView) (date : List ℕ) (keep : Bool)
        → values_of (codes "Connection") (reply_head view date keep).fields
        ≡ keep_option keep ∷ [] }
    ensures others { (view : ResponseView) (date : List ℕ) (keep : Bool) (name : List ℕ)
        → same_name (codes "Date") name ≡ false → same_name (codes "Connection") name ≡ false
        → values_of name (reply_head view date keep).fields ≡ values_of name view.fields }
    ensures length { (view : ResponseView) (date : List ℕ) (keep : Bool)
        → content_length (reply_head view date keep).fields ≡ content_length view.fields }
    ensures codings { (view : ResponseView) (date : List ℕ) (keep : Bool)
        → codings (reply_head view date keep).fields ≡ codings view.fields }
    ensures coded { (view : ResponseView) (date : List ℕ) (keep : Bool)
        → has_coding_line (reply_head view date keep).fields ≡ has_coding_line view.fields }
{}
