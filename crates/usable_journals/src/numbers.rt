//! Serial numbers differ.
ghost use Rattle.std.specs.Prelude.{◌≡◌, ◌↔◌, IfOk, IsTrue, [], ◌∷◌, map, reverse};
ghost use Rattle.fed_rules.specs.SiteRecords.{Held as TheHeld};
ghost use Rattle.fed_rules.specs.Usable as usable;
ghost use Rattle.order_laws.specs.Chains.{Distinct};
ghost use Rattle.usable_journals.specs.Numbers.{Puts, all_numbers, numbers_of};

use fed_rules::{DoubtfulSum, SiteRecord};
use mdb_base::Memory;
use std::alloc::Global;
use std::collections::BTreeSet;

/// Takes a number: whether it is new.
pub(crate) fn put(numbers: &mut BTreeSet<u64>, number: u64) -> Result<bool, Memory>
    ensures { IfOk result (Puts numbers.old numbers.new (number ∷ [])) }
{
    Ok(numbers.insert(number)?)
}

/// Takes the number of a record, if it has one: whether it is new.
fn take(numbers: &mut BTreeSet<u64>, entry: &SiteRecord) -> Result<bool, Memory>
    ensures { IfOk result (Puts numbers.old numbers.new (numbers_of entry.now)) }
{
    match entry {
        SiteRecord::Prepared { number, .. } => put(numbers, *number),
        SiteRecord::Local { number, .. } => put(numbers, *number),
        _ => Ok(true),
    }
}

/// Takes the numbers of those that a first Checkpoint has in doubt, the last one first: whether they are new.
fn take_held(numbers: &mut BTreeSet<u64>, doubtful: &[DoubtfulSum]) -> Result<bool, Memory>
    ensures { IfOk result (Puts numbers.old numbers.new (map (λ (held : TheHeld). held.number) doubtful.now)) }
{
    let mut left = doubtful.len();
    while left > 0 {
        left -= 1;
        if !put(numbers, doubtful[left].number)? {
            return Ok(false);
        }
    }
    Ok(true)
}

/// Takes the numbers of the first record.
fn take_first(numbers: &mut BTreeSet<u64>, first: &SiteRecord) -> Result<bool, Memory>
    ensures { IfOk result (Puts numbers.old numbers.new (usable.numbers (first.now ∷ []))) }
{
    match first {
        SiteRecord::Checkpoint(sum) => take_held(numbers, sum.doubtful.as_slice()),
        _ => take(numbers, first),
    }
}

/// Takes the numbers of the next records, the oldest first: whether they are new.
fn take_all(numbers: &mut BTreeSet<u64>, entries: &[SiteRecord]) -> Result<bool, Memory>
    ensures { IfOk result (Puts numbers.old numbers.new (all_numbers (reverse entries.now))) }
{
    for entry in entries {
        if !take(numbers, entry)? {
            return Ok(false);
        }
    }
    Ok(true)
}

/// Whether the numbers of the records, and of those that a first Checkpoint has in doubt, differ.
pub(crate) fn numbers_differ(alloc: Global, records: &[SiteRecord]) -> Result<bool, Memory>
    ensures { IfOk result (λ differ. IsTrue differ ↔ Distinct (usable.numbers (reverse records.now))) }
{
    let Some((first, newer)) = records.split_first() else {
        return Ok(true);
    };
    let mut numbers = BTreeSet::new(alloc);
    if !take_first(&mut numbers, first)? {
        return Ok(false);
    }
    take_all(&mut numbers, newer)
}
