//! What a site's Checkpoint says of those in doubt fits together.
ghost use Rattle.std.specs.Prelude.{◌≡◌, ◌↔◌, IfOk, IsTrue, map, reverse};
ghost use Rattle.mdb_base.specs.Words.{Each, each_of};
ghost use Rattle.fed_rules.specs.SiteRecords.{Held as TheHeld};
ghost use Rattle.fed_rules.specs.Usable.{AreWithin};
ghost use Rattle.usable_journals.specs.Numbers.{Puts, differ};
ghost use Rattle.usable_journals.specs.SiteTests as tests;

use crate::numbers::put;
use fed_rules::{DoubtfulSum, SiteRecord, SiteSum};
use mdb_base::Memory;
use std::alloc::Global;
use std::collections::BTreeSet;

/// Whether it has a number and a ticket of at most these.
fn is_up_to(counter: u64, published: u64, held: &DoubtfulSum) -> bool
    ensures { result ≡ tests.is_up_to counter published held.now }
{
    held.number <= counter && held.ticket <= published
}

/// Whether each of those in doubt has.
fn are_up_to(counter: u64, published: u64, doubtful: &[DoubtfulSum]) -> bool
    ensures { result ≡ each_of (tests.is_up_to counter published) doubtful.now }
{
    for held in doubtful {
        if !is_up_to(counter, published, held) {
            return false;
        }
    }
    true
}

/// Takes the tickets of those in doubt, the last one first: whether they are new.
fn take_tickets(tickets: &mut BTreeSet<u64>, doubtful: &[DoubtfulSum]) -> Result<bool, Memory>
    ensures { IfOk result (Puts tickets.old tickets.new (map (λ (held : TheHeld). held.ticket) doubtful.now)) }
{
    let mut left = doubtful.len();
    while left > 0 {
        left -= 1;
        if !put(tickets, doubtful[left].ticket)? {
            return Ok(false);
        }
    }
    Ok(true)
}

/// Whether the tickets of those in doubt differ.
fn tickets_differ(alloc: Global, doubtful: &[DoubtfulSum]) -> Result<bool, Memory>
    ensures { IfOk result (λ apart. apart ≡ differ (map (λ (held : TheHeld). held.ticket) doubtful.now)) }
{
    let mut tickets = BTreeSet::new(alloc);
    take_tickets(&mut tickets, doubtful)
}

/// Whether a Checkpoint fits together.
fn is_within(alloc: Global, sum: &SiteSum) -> Result<bool, Memory>
    ensures { IfOk result (λ within. within ≡ tests.sum_is_within sum.now) }
{
    let doubtful = sum.doubtful.as_slice();
    if !are_up_to(sum.counter, sum.published, doubtful) {
        return Ok(false);
    }
    tickets_differ(alloc, doubtful)
}

/// Whether the record does, if it is a Checkpoint.
fn fits(alloc: Global, entry: &SiteRecord) -> Result<bool, Memory>
    ensures { IfOk result (λ within. within ≡ tests.is_within entry.now) }
{
    match entry {
        SiteRecord::Checkpoint(sum) => is_within(alloc, sum),
        _ => Ok(true),
    }
}

/// Whether each of the records does.
fn all_fit(alloc: Global, records: &[SiteRecord]) -> Result<bool, Memory>
    ensures { IfOk result (λ within. within ≡ each_of tests.is_within records.now) }
{
    for entry in records {
        if !fits(alloc, entry)? {
            return Ok(false);
        }
    }
    Ok(true)
}

/// Whether each Checkpoint among the records fits together.
pub(crate) fn are_within(alloc: Global, records: &[SiteRecord]) -> Result<bool, Memory>
    ensures { IfOk result (λ within. IsTrue within ↔ Each AreWithin (reverse records.now)) }
{
    all_fit(alloc, records)
}
