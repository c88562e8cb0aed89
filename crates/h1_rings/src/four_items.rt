//! Room for four items in a struct, for ends that take no memory.
ghost use Rattle.std.specs.Prelude.{◌≡◌, ◌++◌, [], ◌∷◌, false};
ghost use Rattle.h1_rings.specs.PlainEnds.{is_four, front};

use std::marker::Model;

/// At most four items. Contracts see the list of them.
#[derive(Drop)]
pub struct FourItems<T> {
    first: Option<T>,
    second: Option<T>,
    third: Option<T>,
    fourth: Option<T>,
}

impl<T> Model for FourItems<T> {
    ghost use Rattle.std.specs.Prelude.{List};
    ghost use Rattle.h1_rings.specs.PlainEnds.{items_of, InFront};

    ghost Value = { List T };

    ghost view = { λ f. items_of f.first f.second f.third f.fourth };

    ghost invariant = { λ f. InFront f.first f.second f.third f.fourth };
}

impl<T: Drop> FourItems<T> {
    /// No item.
    pub fn new() -> Self
        ensures { result ≡ [] }
    {
        FourItems {
            first: None,
            second: None,
            third: None,
            fourth: None,
        }
    }

    /// Whether four items are there.
    pub fn is_full(&self) -> bool
        ensures { result ≡ is_four self.now }
    {
        self.fourth.is_some()
    }

    /// Puts an item behind the others.
    pub fn push(&mut self, item: T)
        requires { is_four self.old ≡ false }
        ensures { self.new ≡ self.old ++ item ∷ [] }
    {
        if self.first.is_none() {
            self.first = Some(item);
        } else if self.second.is_none() {
            self.second = Some(item);
        } else if self.third.is_none() {
            self.third = Some(item);
        } else {
            self.fourth = Some(item);
        }
    }

    /// Takes the item in front.
    pub fn pop(&mut self) -> Option<T>
        ensures { (result ≡ (front self.old).0) × (self.new ≡ (front self.old).1) }
    {
        let item = self.first.take();
        self.first = self.second.take();
        self.second = self.third.take();
        self.third = self.fourth.take();
        item
    }
}
