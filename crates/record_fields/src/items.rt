//! Rising lists as bytes.
ghost use Rattle.std.specs.Prelude.{◌≡◌, ◌≤◌, ◌<◌, ◌+◌, ◌*◌, ◌^◌, ◌++◌, ℕ, List, length, All, IfOk};
ghost use Rattle.std.specs.List.{AllByRecursion};
ghost use Rattle.std.specs.Vec.{vec_capacity};
ghost use Rattle.mdb_base.specs.Rising.{IsRising};
ghost use Rattle.record_fields.specs.Field.{Field, IsExact};
ghost use Rattle.record_fields.specs.Items.{Counts, Reads, joined, items_at, rising_at, rises as rises_by};

use byte_numbers::DecodeErr;
use std::alloc::Global;

/// The most bytes that a payload has.
const LONGEST: usize = 65_535;

/// An item of a list that rises by a number of each item.
pub trait Item: Drop {
    /// The number by which the list rises.
    ghost number_of: { Self → ℕ };

    /// How the item is spelled and read.
    ghost field: { Field Self };

    /// What whoever writes an item sees to: its names lie in their ranges, and its lists rise.
    ghost in_range: { Self → Type 0 };

    /// The number by which the list rises.
    fn number(&self) -> u64
        ensures { result ≡ number_of self.now };

    /// How many bytes the item has, or none where these are more than 65,535.
    fn size(&self) -> Option<usize>
        ensures { Counts result (length (field.spelling self.now)) };

    /// Writes the item behind the other bytes, for which there is room.
    fn put(&self, out: &mut Vec<u8>)
        requires in_range { in_range self.now }
        requires small { length (field.spelling self.now) < 2 ^ 16 }
        requires room { length out.old.items + length (field.spelling self.now) ≤ vec_capacity out.old }
        ensures bytes { out.new.items ≡ out.old.items ++ field.spelling self.now }
        ensures room { vec_capacity out.old ≤ vec_capacity out.new }
        ensures fits { field.Fits self.now };

    /// The item at the front, and the bytes behind it.
    fn take(alloc: Global, bytes: &[u8]) -> Result<(Self, &[u8]), DecodeErr>
        ensures { Reads (λ found. (found.0, found.1.now)) result (field.reading bytes.now) };

    /// What is read is spelled so, and what is spelled is read again.
    ghost exact: { IsExact field };
}

/// So many bytes, or none where these are more than 65,535.
pub fn counted(bytes: usize) -> Option<usize>
    ensures { Counts result bytes }
{
    if bytes <= LONGEST { Some(bytes) } else { None }
}

/// The bytes of so many items of the same width, or none where these are more than 65,535.
pub fn counted_items(count: usize, width: usize) -> Option<usize>
    ensures { Counts result (width * count) }
{
    counted(width.checked_mul(count)?)
}

/// The bytes of all these items, or none where these are more than 65,535.
pub fn items_size<T: Item>(items: &[T]) -> Option<usize>
    ensures { Counts result (length (joined T.field.spelling items.now)) }
{
    let mut total = 0;
    for item in items {
        let Some(size) = item.size() else {
            return None;
        };
        total += size;
        if total > LONGEST {
            return None;
        }
    }
    Some(total)
}

// Whether each item's number is less than the next one's.
fn rises<T: Item>(items: &[T]) -> bool
    ensures { result ≡ rises_by T.number_of items.now }
{
    let mut rest = items;
    while let [first, second, ..] = rest {
        if first.number() >= second.number() {
            return false;
        }
        rest = &rest[1..];
    }
    true
}

// So many items from the front, and the bytes behind them.
fn taken<T: Item>(alloc: Global, count: usize, bytes: &[u8]) -> Result<(Vec<T>, &[u8]), DecodeErr>
    ensures { Reads (λ found. (found.0.items, found.1.now)) result (items_at T.field.reading count bytes.now) }
{
    let Ok(mut items) = Vec::with_capacity(alloc, count.min(bytes.len())) else {
        return Err(DecodeErr::Memory);
    };
    let mut rest = bytes;
    for _ in 0..count {
        let (item, after) = match T::take(alloc, rest) {
            Ok(found) => found,
            Err(why) => return Err(why),
        };
        if items.push(item).is_err() {
            return Err(DecodeErr::Memory);
        }
        rest = after;
    }
    Ok((items, rest))
}

/// So many rising items from the front, and the bytes behind them.
pub fn items_of<T: Item>(
    alloc: Global,
    count: usize,
    bytes: &[u8],
) -> Result<(Vec<T>, &[u8]), DecodeErr>
    ensures read { Reads (λ found. (found.0.items, found.1.now)) result (rising_at T.number_of T.field.reading count bytes.now) }
    ensures rising { IfOk result (λ found. IsRising T.number_of found.0.items) }
{
    let (items, rest) = taken(alloc, count, bytes)?;
    if !rises(&items) {
        return Err(DecodeErr::NoValue);
    }
    Ok((items, rest))
}

/// Writes the items behind the other bytes, for which there is room.
pub fn put_items<T: Item>(items: &[T], out: &mut Vec<u8>)
    requires in_range { All T.in_range items.now }
    requires small { length (joined T.field.spelling items.now) < 2 ^ 16 }
    requires room { length out.old.items + length (joined T.field.spelling items.now) ≤ vec_capacity out.old }
    ensures bytes { out.new.items ≡ out.old.items ++ joined T.field.spelling items.now }
    ensures size { length out.new.items ≡ length out.old.items + length (joined T.field.spelling items.now) }
    ensures room { vec_capacity out.old ≤ vec_capacity out.new }
    ensures fits { AllByRecursion T.field.Fits items.now }
{
    for item in items {
        item.put(out);
    }
}
