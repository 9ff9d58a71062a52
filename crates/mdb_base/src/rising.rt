//! A list whose items rise by a number that each of them bears.
ghost use Rattle.std.specs.Prelude.{◌≡◌, ◌<◌, ℕ, length, slice_get, Some};

use std::alloc::AllocError;
use std::marker::Model;

/// What bears the number by which a rising list is kept.
pub trait Keyed {
    /// The number.
    ghost key: { Self → ℕ };
}

/// A list of `T` by rising number, which contracts see as the list of its items.
#[derive(Drop)]
pub struct Rising<T: Keyed> {
    items: Vec<T>,
}

impl<T: Keyed> Model for Rising<T> {
    ghost use Rattle.std.specs.Prelude.{List};
    ghost use Rattle.mdb_base.specs.Rising.{IsRising};

    ghost Value = { List T };

    ghost view = { λ l. l.items.items };

    ghost invariant = { λ l. IsRising T.key l.items.items };
}

impl<T: Keyed> Rising<T> {
    ghost use Rattle.mdb_base.specs.Rising.{IsRising};

    /// The list of these items, which rise.
    pub fn of(items: Vec<T>) -> Self
        requires { IsRising T.key items.items }
        ensures { result ≡ items.items }
    {
        Rising { items }
    }

    /// How many items there are.
    pub fn len(&self) -> usize
        ensures count { result ≡ length self.now }
        ensures rising { IsRising T.key self.now }
    {
        self.items.len()
    }

    /// The item at this place, counted from 0.
    pub fn at(&self, place: usize) -> &T
        requires { place < length self.now }
        ensures { slice_get self.now place ≡ Some result.now }
    {
        &self.items[place]
    }

    /// The items in their order.
    pub fn as_slice(&self) -> &[T]
        ensures items { result.now ≡ self.now }
        ensures rising { IsRising T.key self.now }
    {
        self.items.as_slice()
    }

    /// The items again, without memory.
    pub fn into_items(self) -> Vec<T>
        ensures items { result.items ≡ self }
        ensures rising { IsRising T.key self }
    {
        let Rising { items } = self;
        items
    }
}

/// The copy is the same list, in memory of its own.
impl<T: Keyed + Copy> Clone for Rising<T> {
    ghost is_clone = { λ list copy. copy ≡ list };

    fn clone(&self) -> Result<Self, AllocError> {
        let alloc = *self.items.allocator();
        Ok(Rising {
            items: Vec::from_slice(alloc, self.items.as_slice())?,
        })
    }
}
