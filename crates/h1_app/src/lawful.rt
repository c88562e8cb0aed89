//! Modules under which the replies of an application stay lawful.
ghost use Rattle.std.specs.Prelude.{List};
ghost use Rattle.h1_app.specs.Filtering.{chain_of, rules_with};
ghost use Rattle.h1_app.specs.LawfulHeads.{KeepsLawful};
ghost use Rattle.h1_transcript.specs.Rules.{LawfulRules};

use crate::ServeHttp;
use h1_link::Link;
use h1_modules::{HeadFilter, HeadModule, HttpModuleBuilder, NoModules};

/// Builders of modules for an application of this kind: whatever list of them runs, what it leaves
/// of the header of each of the application's replies is lawful, or a module refuses it.
pub trait LawfulFor<L: Link + Drop, C: Drop, SV: ServeHttp<L, C>>: HttpModuleBuilder {
    ghost lawful: { (app : SV) (builders : List Self) → LawfulRules (rules_with (SV.gives app)
        (chain_of Self.HttpModuleBuilder Self.Module.HttpModule builders)) };
}

impl<L: Link + Drop, C: Drop, SV: ServeHttp<L, C>> LawfulFor<L, C, SV> for NoModules {
    ghost use Rattle.h1_app.specs.NoModulesLaw.{none_lawful};

    ghost lawful = { λ app builders. none_lawful (SV.gives app) (SV.lawful app) builders };
}

/// A filter of heads that leaves a lawful header of a reply lawful, or refuses it. So its modules
/// are [`LawfulFor`] every application.
pub trait LawfulFilter: HeadFilter {
    ghost keeps: { KeepsLawful Self.response };
}

impl<L: Link + Drop, C: Drop, SV: ServeHttp<L, C>, F: LawfulFilter> LawfulFor<L, C, SV>
    for HeadModule<F> {
    ghost use Rattle.h1_app.specs.LawfulHeads.{heads_lawful};

    ghost lawful = { λ app builders.
        heads_lawful F.request F.response F.keeps (SV.gives app) (SV.lawful app) builders };
}
