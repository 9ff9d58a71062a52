//! A short list whose items rise by a number that each of them bears.
ghost use Rattle.std.specs.Prelude.{◌≡◌, ◌↔◌, [], ◌∷◌, IsTrue, length};
ghost use Rattle.std.specs.Mem.{FitsInMemory};

use crate::few::Few;
use crate::rising::Keyed;
use std::marker::Model;

/// A short list of `T` by rising number, which contracts see as the list of its items.
#[derive(Drop)]
pub struct FewRising<T: Keyed + Drop> {
    few: Few<T>,
}

impl<T: Keyed + Drop> Model for FewRising<T> {
    ghost use Rattle.std.specs.Prelude.{List};
    ghost use Rattle.mdb_base.specs.Rising.{IsRising};

    ghost Value = { List T };

    ghost view = { λ l. l.few };

    ghost invariant = { λ l. IsRising T.key l.few };
}

impl<T: Keyed + Drop> FewRising<T> {
    ghost use Rattle.mdb_base.specs.Rising.{IsRising};

    /// No item.
    pub fn none() -> Self
        ensures { result ≡ [] }
    {
        FewRising { few: Few::none() }
    }

    /// One item.
    pub fn one(item: T) -> Self
        ensures { result ≡ item ∷ [] }
    {
        FewRising {
            few: Few::one(item),
        }
    }

    /// The list of these items, which rise.
    pub fn of(items: Vec<T>) -> Self
        requires { IsRising T.key items.items }
        ensures { result ≡ items.items }
    {
        FewRising {
            few: Few::of(items),
        }
    }

    /// The short list of these items, which rise.
    pub fn of_few(few: Few<T>) -> Self
        requires { IsRising T.key few }
        ensures { result ≡ few }
    {
        FewRising { few }
    }

    /// How many items there are.
    pub fn len(&self) -> usize
        ensures count { result ≡ length self.now }
        ensures rising { IsRising T.key self.now }
    {
        self.few.len()
    }

    /// Whether there is no item.
    pub fn is_empty(&self) -> bool
        ensures { IsTrue result ↔ (self.now ≡ []) }
    {
        self.few.is_empty()
    }

    /// The items in their order.
    pub fn as_slice(&self) -> &[T]
        requires { FitsInMemory T.row }
        ensures items { result.now ≡ self.now }
        ensures rising { IsRising T.key self.now }
    {
        self.few.as_slice()
    }
}
