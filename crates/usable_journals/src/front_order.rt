//! Whether those in doubt stand in order and what is committed stands behind them, at every front of a site's journal.
ghost use Rattle.std.specs.Prelude.{ℕ, ◌≡◌, ◌↔◌, IfOk, IsTrue, List, [], None, map, reverse};
ghost use Rattle.std.specs.BTreeMap.{IsOrdered, get, values};
ghost use Rattle.std.specs.Ordering.{nat_cmp};
ghost use Rattle.order_laws.specs.Chains.{Distinct};
ghost use Rattle.fed_rules.specs.SiteRecords.{Held as TheHeld};
ghost use Rattle.usable_journals.specs.Fronts.{AreInOrder, IsByTicket, TakesAll, TakesFirst, TicketsDiffer, held_at, held_read};
ghost use Rattle.usable_journals.specs.WellRecorded.{IsOfSomeSite};

use crate::copies::copy_held;
use crate::fronts::Front;
use fed_rules::{DoubtfulSum, SiteRecord};
use mdb_base::Memory;
use std::alloc::Global;
use std::collections::BTreeMap;

/// Those in doubt by ticket; of several of one ticket the last one.
fn by_ticket(alloc: Global, doubtful: &[DoubtfulSum]) -> Result<BTreeMap<u64, DoubtfulSum>, Memory>
    ensures { IfOk result (λ found. (ticket : ℕ) → get nat_cmp found ticket ≡ held_at doubtful.now ticket None) }
{
    let mut found = BTreeMap::new(alloc);
    for held in doubtful {
        found.insert(held.ticket, copy_held(alloc, held)?)?;
    }
    Ok(found)
}

/// All of them by rising ticket.
fn listed(alloc: Global, found: BTreeMap<u64, DoubtfulSum>) -> Result<Vec<DoubtfulSum>, Memory>
    ensures values { IfOk result (λ list. list.items ≡ values found) }
    ensures ordered { IfOk result (λ list. IsOrdered nat_cmp found) }
{
    let mut list = Vec::with_capacity(alloc, found.len())?;
    for (_, held) in found {
        list.push(held)?;
    }
    Ok(list)
}

/// Those in doubt by rising ticket, if their tickets differ.
fn sorted(alloc: Global, doubtful: &[DoubtfulSum]) -> Result<Vec<DoubtfulSum>, Memory>
    requires { Distinct (map (λ (held : TheHeld). held.ticket) doubtful.now) }
    ensures { IfOk result (λ list. IsByTicket doubtful.now (reverse list.items)) }
{
    let found = by_ticket(alloc, doubtful)?;
    let list = listed(alloc, found)?;
    Ok(list)
}

/// Takes those in doubt as Prepareds, the first one first: whether they may stand here.
fn prepare_all(front: &mut Front, helds: Vec<DoubtfulSum>) -> Result<bool, Memory>
    ensures { IfOk result (TakesAll front.old front.new (map held_read (reverse helds.items))) }
{
    for held in helds {
        if !front.prepare(held)? {
            return Ok(false);
        }
    }
    Ok(true)
}

/// Takes the first record: those that a Checkpoint has in doubt by rising ticket, or the record itself.
fn take_first(front: &mut Front, alloc: Global, first: &SiteRecord) -> Result<bool, Memory>
    requires { TicketsDiffer first.now }
    ensures { IfOk result (TakesFirst front.old front.new first.now) }
{
    match first {
        SiteRecord::Checkpoint(sum) => {
            let helds = sorted(alloc, sum.doubtful.as_slice())?;
            prepare_all(front, helds)
        }
        _ => front.take(alloc, first),
    }
}

/// Whether at every front of the records those in doubt have tickets in the order of their numbers and write no common key, no committed one of a greater
/// number writes a key of theirs, and each Local has a greater number than each committed one before it that writes one of its keys.
pub(crate) fn are_in_order(alloc: Global, records: &[SiteRecord]) -> Result<bool, Memory>
    requires { IsOfSomeSite (reverse records.now) }
    ensures { IfOk result (λ order. IsTrue order ↔ AreInOrder (reverse records.now)) }
{
    let Some((first, newer)) = records.split_first() else {
        unreachable!();
    };
    let mut front = Front::new(alloc);
    if !take_first(&mut front, alloc, first)? {
        return Ok(false);
    }
    front.take_all(alloc, newer)
}
