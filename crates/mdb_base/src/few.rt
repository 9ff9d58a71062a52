//! A list of which most are empty or have one item: such a one takes no memory of its own.
ghost use Rattle.std.specs.Prelude.{◌≡◌, ◌↔◌, [], ◌∷◌, ◌++◌, IsTrue, OnOk, length};
ghost use Rattle.std.specs.Cmp.Lexicographic.{pointwise, lists_per, lists_equiv};
ghost use Rattle.std.specs.Mem.{FitsInMemory};
ghost use Rattle.mdb_base.specs.Few.{held_items};

use crate::names::Memory;
use std::alloc::{AllocError, Global};
use std::marker::Model;
use std::{mem, slice};

/// Where the items lie.
#[derive(Drop)]
pub(crate) enum Held<T: Drop> {
    Nothing,
    One(T),
    Many(Vec<T>),
}

/// A short list of `T`, which contracts see as the list of its items.
#[derive(Drop)]
pub struct Few<T: Drop> {
    held: Held<T>,
}

impl<T: Drop> Model for Few<T> {
    ghost use Rattle.std.specs.Prelude.{List};
    ghost use Rattle.mdb_base.specs.Few.{held_items};

    ghost Value = { List T };

    ghost view = { λ f. held_items f.held };
}

impl<T: Drop> Few<T> {
    /// No item.
    pub fn none() -> Self
        ensures { result ≡ [] }
    {
        Few {
            held: Held::Nothing,
        }
    }

    /// One item.
    pub fn one(item: T) -> Self
        ensures { result ≡ item ∷ [] }
    {
        Few {
            held: Held::One(item),
        }
    }

    /// The list of these items.
    pub fn of(items: Vec<T>) -> Self
        ensures { result ≡ items.items }
    {
        Few {
            held: Held::Many(items),
        }
    }

    /// Takes all items out of a list. The memory of the list goes with them only where there are several.
    pub fn taken(alloc: Global, items: &mut Vec<T>) -> Self
        ensures taken { result ≡ items.old.items }
        ensures none { items.new.items ≡ [] }
    {
        if items.len() > 1 {
            return Few::of(mem::replace(items, Vec::new(alloc)));
        }
        match items.pop() {
            Some(item) => Few::one(item),
            None => Few::none(),
        }
    }

    /// How many items there are.
    pub fn len(&self) -> usize
        ensures { result ≡ length self.now }
    {
        match &self.held {
            Held::Nothing => 0,
            Held::One(_) => 1,
            Held::Many(items) => items.len(),
        }
    }

    /// Whether there is no item.
    pub fn is_empty(&self) -> bool
        ensures { IsTrue result ↔ (self.now ≡ []) }
    {
        self.len() == 0
    }

    /// The items in their order.
    pub fn as_slice(&self) -> &[T]
        requires { FitsInMemory T.row }
        ensures { result.now ≡ self.now }
    {
        match &self.held {
            Held::Nothing => &[],
            Held::One(item) => slice::from_ref(item),
            Held::Many(items) => items.as_slice(),
        }
    }

    /// Adds an item behind the others. After want of memory nothing is said of the list.
    pub fn push(&mut self, alloc: Global, item: T) -> Result<(), Memory>
        ensures { OnOk result (self.new ≡ self.old ++ item ∷ []) }
    {
        match mem::replace(&mut self.held, Held::Nothing) {
            Held::Nothing => {
                self.held = Held::One(item);
                Ok(())
            }
            Held::One(first) => {
                let mut items = Vec::with_capacity(alloc, 4)?;
                items.push(first)?;
                items.push(item)?;
                self.held = Held::Many(items);
                Ok(())
            }
            Held::Many(held) => {
                let mut items = held;
                items.push(item)?;
                self.held = Held::Many(items);
                Ok(())
            }
        }
    }
}

/// The copy is the same list. Up to one item it takes no memory.
impl<T: Copy> Clone for Few<T> {
    ghost is_clone = { λ list copy. copy ≡ list };

    fn clone(&self) -> Result<Self, AllocError> {
        let held = match &self.held {
            Held::Nothing => Held::Nothing,
            Held::One(item) => Held::One(*item),
            Held::Many(items) => {
                Held::Many(Vec::from_slice(*items.allocator(), items.as_slice())?)
            }
        };
        Ok(Few { held })
    }
}

impl<T: PartialEq + Drop> Held<T> {
    /// Whether this item is the only one.
    fn has_only(&self, item: &T) -> bool
        ensures { result ≡ pointwise T.eq (item.now ∷ []) (held_items self.now) }
    {
        match self {
            Held::Nothing => false,
            Held::One(own) => item == own,
            Held::Many(own) => match own.as_slice() {
                [own] => item == own,
                _ => false,
            },
        }
    }

    /// Whether the items are equal to these.
    fn has_all(&self, items: &[T]) -> bool
        ensures { result ≡ pointwise T.eq items.now (held_items self.now) }
    {
        match self {
            Held::Nothing => items.is_empty(),
            Held::One(own) => match items {
                [item] => item == own,
                _ => false,
            },
            Held::Many(own) => items == own.as_slice(),
        }
    }
}

/// Two lists are equal where they have the same length, and the items at each place are.
impl<T: PartialEq + Drop> PartialEq for Few<T> {
    ghost eq = { pointwise T.eq };

    ghost laws = { lists_per T.laws };

    fn eq(&self, other: &Self) -> bool {
        match &self.held {
            Held::Nothing => other.is_empty(),
            Held::One(item) => other.held.has_only(item),
            Held::Many(items) => other.held.has_all(items.as_slice()),
        }
    }
}

impl<T: Eq + Drop> Eq for Few<T> {
    ghost laws = { lists_equiv T.Eq.laws };
}
