//! The word by which one end of a ring tells the other that it is closed, and how many items it put.
//! It is 0 while the end is open, and then one more than the number; what it was set to stays.
ghost use Rattle.std.specs.Prelude.{◌≡◌, ◌+◌, ◌^◌, ◌<◌, true, false, [], IfOk, Some, None};
ghost use Rattle.crossbeam_utils.specs.Seq.{cell_view};
ghost use Rattle.h1_rings.specs.CloseWord.{word_view, number, Agrees};

use atomic_table::{Join, Split};
use crossbeam_utils::atomic::seq_cell::{Pass, RuledSeqCell};
use crossbeam_utils::rule::{Outcome, Protocol};
use std::alloc::{AllocError, Global};
use std::sync::Wait;

/// What a pass of a close word knows of it. No value of it is made.
pub struct WordView {
    /// Whether it may set the word.
    pub owns: bool,
    /// The number that it set.
    pub set: Option<u64>,
    /// The number that it saw.
    pub seen: Option<u64>,
}

/// The rule: a word that was set stays set, and only its owner sets it.
pub struct StaysSet;

impl Protocol<[u64; 1], WordView> for StaysSet {
    ghost use Rattle.std.specs.Prelude.{true, None};
    ghost use Rattle.h1_rings.specs.CloseWord.{word_view, KeepsNumber};

    ghost holds = { KeepsNumber };

    ghost first = { word_view true None None };
}

/// The right to set the word stays, and another pass may look at it.
struct Owned;

impl Split<WordView> for Owned {
    ghost use Rattle.std.specs.Prelude.{false, None};
    ghost use Rattle.h1_rings.specs.CloseWord.{word_view};

    ghost left = { λ v. v };

    ghost right = { λ v. word_view false None v.seen };
}

/// The whole view goes to a new pass.
struct Whole;

impl Split<WordView> for Whole {
    ghost use Rattle.std.specs.Prelude.{false, None};
    ghost use Rattle.h1_rings.specs.CloseWord.{word_view};

    ghost left = { λ v. word_view false None None };

    ghost right = { λ v. v };
}

/// The owner hears what another pass saw.
struct Hears;

impl Join<WordView> for Hears {
    ghost use Rattle.std.specs.Prelude.{false, None};
    ghost use Rattle.h1_rings.specs.CloseWord.{word_view};

    ghost both = { λ v w. word_view v.owns v.set w.seen };

    ghost spent = { word_view false None None };
}

/// The owner sets the word.
struct Sets;

impl Outcome<[u64; 1], WordView> for Sets {
    ghost use Rattle.std.specs.Prelude.{◌≡◌, slice_index};
    ghost use Rattle.h1_rings.specs.CloseWord.{word_view, number};

    ghost then = { λ v x y w. w ≡ word_view v.owns (number (slice_index y 0)) v.seen };
}

/// A pass reads the word.
struct Looks;

impl Outcome<[u64; 1], WordView> for Looks {
    ghost use Rattle.h1_rings.specs.CloseWord.{HasLooked};

    ghost then = { λ v x y w. HasLooked v y w };
}

/// The owner reads the word, and compares it with what another pass saw.
struct Compares;

impl Outcome<[u64; 1], WordView> for Compares {
    ghost use Rattle.h1_rings.specs.CloseWord.{Agrees};

    ghost then = { λ v x y w. Agrees v.seen v.set };
}

/// A word under the rule.
pub type CloseWord = RuledSeqCell<[u64; 1], WordView, StaysSet, 1>;

/// A pass of a close word.
pub type CloseWordPass = Pass<[u64; 1], WordView>;

/// A word that isn't set, the pass of its owner, and the pass that reads it.
pub fn open(alloc: Global) -> Result<(CloseWord, CloseWordPass, CloseWordPass), AllocError>
    ensures { IfOk result (λ w. (w.1.table_id ≡ w.0.table.shared.table_id) × (w.2.table_id ≡ w.0.table.shared.table_id)
        × (cell_view w.1 ≡ word_view true None None) × (cell_view w.2 ≡ word_view false None None)) }
{
    let (word, mut owner) = CloseWord::ruled(alloc, [0])?;
    let other = word.split_pass::<Owned>(&mut owner);
    Ok((word, owner, other))
}

/// Sets the word to this number, or again to the number that it has.
pub fn set<W: Wait>(rt: &W, word: &CloseWord, pass: &mut CloseWordPass, put: u64)
    requires pass { pass.old.table_id ≡ word.now.table.shared.table_id }
    requires owns { (cell_view pass.old).owns ≡ true }
    requires number { (put + 1 < 2 ^ 64) × Agrees (cell_view pass.old).set (Some put) }
    ensures pass { pass.new.table_id ≡ pass.old.table_id }
    ensures set { cell_view pass.new ≡ word_view (cell_view pass.old).owns (Some put) (cell_view pass.old).seen }
{
    word.swap_as::<Sets, W>(rt, pass, [put + 1]);
}

/// The number that the word is set to, if it is set.
pub fn look<W: Wait>(rt: &W, word: &CloseWord, pass: &mut CloseWordPass) -> Option<u64>
    requires pass { pass.old.table_id ≡ word.now.table.shared.table_id }
    ensures pass { pass.new.table_id ≡ pass.old.table_id }
    ensures seen { cell_view pass.new ≡ word_view (cell_view pass.old).owns (cell_view pass.old).set result }
    ensures stays { Agrees (cell_view pass.old).seen result }
{
    let bits = word.load_as::<Looks, W>(rt, pass);
    number_of(bits[0])
}

fn number_of(bits: u64) -> Option<u64>
    ensures { result ≡ number bits }
{
    if bits == 0 { None } else { Some(bits - 1) }
}

/// Where the other pass saw a number, the owner set it.
pub fn meet<W: Wait>(rt: &W, word: &CloseWord, mut owner: CloseWordPass, mut other: CloseWordPass)
    requires pass { (owner.table_id ≡ word.now.table.shared.table_id) × (other.table_id ≡ word.now.table.shared.table_id) }
    requires owns { ((cell_view owner).owns ≡ true) × ((cell_view other).owns ≡ false) }
    ensures { Agrees (cell_view other).seen (cell_view owner).set }
{
    let other = word.split_pass::<Whole>(&mut other);
    word.join_pass::<Hears>(&mut owner, other);
    word.load_as::<Compares, W>(rt, &mut owner);
}
