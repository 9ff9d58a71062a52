//! No transaction that the coordinator's records name has a Local at a site.
ghost use Rattle.std.specs.Prelude.{◌≡◌, ◌↔◌, IfOk, OnOk, IsTrue, List, [], ◌∷◌, reverse};
ghost use Rattle.std.specs.BTreeSet.{contains};
ghost use Rattle.mdb_base.specs.declared.names.Tx.{Tx as TheTx};
ghost use Rattle.mdb_base.specs.Words.{some_of};
ghost use Rattle.fed_rules.specs.declared.records.CoordRecord.{CoordRecord as TheRecord};
ghost use Rattle.fed_rules.specs.Usable.{AreUnnamed, coord_read};
ghost use Rattle.usable_journals.specs.Named.{AddsTo, is_attempt_of, is_committed_of, is_named_in, is_open_of};
ghost use Rattle.usable_journals.specs.PartedTold.{is_of};
ghost use Rattle.mdb_base.specs.Names.{tx_cmp};

use crate::parted::local_transactions;
use fed_rules::{CommittedAttempt, CoordRecord, CoordSum, OpenAttempt, SiteRecord};
use mdb_base::{Memory, Tid, Tx};
use std::alloc::Global;
use std::collections::BTreeSet;

/// Adds the transaction of an attempt.
fn add(names: &mut BTreeSet<Tx>, tid: Tid) -> Result<(), Memory>
    ensures { OnOk result (AddsTo (λ tx. is_of tx tid) names.old names.new) }
{
    names.insert(tid.tx)?;
    Ok(())
}

/// Adds those of open attempts.
fn add_open(names: &mut BTreeSet<Tx>, attempts: &[OpenAttempt]) -> Result<(), Memory>
    ensures { OnOk result (AddsTo (λ tx. some_of (is_open_of tx) attempts.now) names.old names.new) }
{
    for attempt in attempts {
        add(names, attempt.tid)?;
    }
    Ok(())
}

/// Adds those of committed attempts.
fn add_committed(names: &mut BTreeSet<Tx>, attempts: &[CommittedAttempt]) -> Result<(), Memory>
    ensures { OnOk result (AddsTo (λ tx. some_of (is_committed_of tx) attempts.now) names.old names.new) }
{
    for attempt in attempts {
        add(names, attempt.tid)?;
    }
    Ok(())
}

/// Adds those that a first Checkpoint names.
fn add_sum(names: &mut BTreeSet<Tx>, sum: &CoordSum) -> Result<(), Memory>
    ensures { OnOk result (AddsTo (λ tx. is_named_in tx sum.now) names.old names.new) }
{
    add_open(names, sum.open_attempts.as_slice())?;
    add_committed(names, sum.committed.as_slice())
}

/// Adds that of a record, unless it is a Checkpoint.
fn add_record(names: &mut BTreeSet<Tx>, entry: &CoordRecord) -> Result<(), Memory>
    ensures { OnOk result (AddsTo (λ tx. is_attempt_of tx entry.now) names.old names.new) }
{
    match entry {
        CoordRecord::Initiation { tid, .. } => add(names, *tid),
        CoordRecord::Commit { tid, .. } => add(names, *tid),
        CoordRecord::Abort { tid, .. } => add(names, *tid),
        CoordRecord::End { tid } => add(names, *tid),
        CoordRecord::Checkpoint(_) => Ok(()),
    }
}

/// Adds those of these records.
fn add_all(names: &mut BTreeSet<Tx>, entries: &[CoordRecord]) -> Result<(), Memory>
    ensures { OnOk result (AddsTo (λ tx. some_of (is_attempt_of tx) entries.now) names.old names.new) }
{
    for entry in entries {
        add_record(names, entry)?;
    }
    Ok(())
}

/// Adds those of the first record, or those that it sums.
fn add_first(names: &mut BTreeSet<Tx>, first: &CoordRecord) -> Result<(), Memory>
    ensures { OnOk result (AddsTo (λ tx. some_of (is_attempt_of tx) (coord_read (first.now ∷ []))) names.old names.new) }
{
    match first {
        CoordRecord::Checkpoint(sum) => add_sum(names, sum),
        _ => add_record(names, first),
    }
}

/// The transactions that the coordinator's records name, a first Checkpoint read as what it sums.
pub(crate) fn names_of(alloc: Global, records: &[CoordRecord]) -> Result<BTreeSet<Tx>, Memory>
    ensures { IfOk result (λ names. (tx : TheTx) → contains tx_cmp names tx ≡ some_of (is_attempt_of tx) (coord_read (reverse records.now))) }
{
    let mut names = BTreeSet::new(alloc);
    let Some((first, newer)) = records.split_first() else {
        return Ok(names);
    };
    add_first(&mut names, first)?;
    add_all(&mut names, newer)?;
    Ok(names)
}

/// Whether none of these transactions, which a coordinator's records name, has a Local in the site's journal.
pub(crate) fn none_is_local(
    alloc: Global,
    names: &BTreeSet<Tx>,
    records: &[SiteRecord],
) -> Result<bool, Memory>
    ensures { IfOk result (λ unnamed. (coordinator : List TheRecord)
        → ((tx : TheTx) → contains tx_cmp names.now tx ≡ some_of (is_attempt_of tx) (coord_read coordinator))
        → IsTrue unnamed ↔ AreUnnamed coordinator (reverse records.now)) }
{
    let locals = local_transactions(alloc, records)?;
    Ok(locals.is_disjoint(names))
}
