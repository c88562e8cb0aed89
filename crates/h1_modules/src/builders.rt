//! The modules of a server, in the order in which they run.
ghost use Rattle.std.specs.Prelude.{◌≡◌, ◌≢◌, ℕ, ◌≤◌, [], map, insert, length, IfOk, OnOk, OnErr, Err, IsOkUnless};
ghost use Rattle.std.specs.Bool.{MatchBool};
ghost use Rattle.h1_error.specs.Memory.{no_memory};
ghost use Rattle.h1_modules.specs.Outcome.{duplicate};
ghost use Rattle.h1_modules.specs.Builders.{has_key, placed, Descends};

use crate::{HttpModuleBuilder, HttpModuleCtx};
use h1_error::{Error, ErrorType};
use std::alloc::Global;
use std::marker::Model;

/// Builders of modules in descending order, and those of equal order as they were added. None has
/// the key of another, as `add_module` adds no second one. A contract sees the list of them.
#[derive(Drop)]
pub struct HttpModules<B: HttpModuleBuilder + Drop> {
    builders: Vec<B>,
}

impl<B: HttpModuleBuilder + Drop> Model for HttpModules<B> {
    ghost use Rattle.std.specs.Prelude.{List};
    ghost use Rattle.h1_modules.specs.Builders.{Descends};

    ghost Value = { List B };

    ghost view = { λ m. m.builders.items };

    ghost invariant = { λ m. Descends B.order m.builders.items };
}

impl<B: HttpModuleBuilder + Drop> HttpModules<B> {
    /// No modules. Takes no memory.
    pub fn new(alloc: Global) -> Self
        ensures { result ≡ [] }
    {
        HttpModules {
            builders: Vec::new(alloc),
        }
    }

    /// Whether no builder was added.
    #[inline(always)]
    pub fn is_empty(&self) -> bool
        ensures { MatchBool result (self.now ≡ []) (self.now ≢ []) }
    {
        self.builders.is_empty()
    }

    /// Adds a builder, whose modules run in exchanges that begin from now on. A second one of its
    /// key is refused with `Duplicate`, and dropped.
    pub fn add_module(&mut self, builder: B) -> Result<(), Error>
        ensures ok { OnOk result (self.new ≡ placed B.order builder self.old) }
        ensures refused { MatchBool (has_key B.key (B.key builder) self.old)
            (result ≡ Err duplicate) (IsOkUnless result no_memory) }
        ensures same { OnErr result (self.new ≡ self.old) }
    {
        if has_key(&self.builders, builder.key()) {
            return Err(Error::from(ErrorType::Duplicate));
        }
        let place = place_for(&self.builders, &builder);
        self.builders.insert(place, builder)?;
        Ok(())
    }

    /// The modules of a new exchange, each as its builder begins it.
    pub fn build_ctx(&self, alloc: Global) -> Result<HttpModuleCtx<B::Module>, Error>
        ensures ok { IfOk result (λ made.
            made ≡ record { keys = map B.key self.now; modules = map B.begins self.now }) }
        ensures err { IsOkUnless result no_memory }
        ensures descends { Descends B.order self.now }
    {
        let mut keys = Vec::with_capacity(alloc, self.builders.len())?;
        let mut modules = Vec::with_capacity(alloc, self.builders.len())?;
        for builder in &self.builders {
            keys.push(builder.key())?;
            modules.push(builder.init(alloc)?)?;
        }
        Ok(HttpModuleCtx::of(keys, modules))
    }
}

/// Whether a builder has the key.
fn has_key<B: HttpModuleBuilder>(builders: &[B], key: u32) -> bool
    ensures { result ≡ has_key B.key key builders.now }
{
    for builder in builders {
        if builder.key() == key {
            return true;
        }
    }
    false
}

/// The place before the first builder of a lower order.
fn place_for<B: HttpModuleBuilder>(builders: &[B], added: &B) -> usize
    ensures within { result ≤ length builders.now }
    ensures placed { placed B.order added.now builders.now ≡ insert builders.now result added.now }
{
    let order = added.order();
    for (place, builder) in builders.iter().enumerate() {
        if builder.order() < order {
            return place;
        }
    }
    builders.len()
}
