//! No transaction that has a Local has a record of a global one.
ghost use Rattle.std.specs.Prelude.{◌≡◌, ◌↔◌, IfOk, OnOk, IsTrue, [], ◌∷◌, reverse};
ghost use Rattle.std.specs.BTreeSet.{contains};
ghost use Rattle.mdb_base.specs.declared.names.Tx.{Tx as TheTx};
ghost use Rattle.mdb_base.specs.Words.{some_of};
ghost use Rattle.fed_rules.specs.Usable.{AreParted, counted};
ghost use Rattle.usable_journals.specs.PartedTold.{Adds, is_global_of, is_held_of, is_of, is_sum_of, none};
ghost use Rattle.mdb_base.specs.Names.{tx_cmp};
ghost use Rattle.usable_journals.specs.SiteTests.{is_local_of};

use fed_rules::{DoubtfulSum, SiteRecord, SiteSum};
use mdb_base::{Memory, Tid, Tx};
use std::alloc::Global;
use std::collections::BTreeSet;

/// The transactions of the records so far.
#[derive(Drop)]
pub(crate) struct Parted {
    locals: BTreeSet<Tx>,
    globals: BTreeSet<Tx>,
}

impl Parted {
    /// A record of a local transaction.
    fn local(&mut self, tid: Tid) -> Result<(), Memory>
        ensures { OnOk result (Adds (λ tx. is_of tx tid) none self.old self.new) }
    {
        self.locals.insert(tid.tx)?;
        Ok(())
    }

    /// A record of a global transaction.
    fn global(&mut self, tid: Tid) -> Result<(), Memory>
        ensures { OnOk result (Adds none (λ tx. is_of tx tid) self.old self.new) }
    {
        self.globals.insert(tid.tx)?;
        Ok(())
    }

    /// The committed local attempts of a first Checkpoint.
    fn all_local(&mut self, locals: &[Tid]) -> Result<(), Memory>
        ensures { OnOk result (Adds (λ tx. some_of (is_of tx) locals.now) none self.old self.new) }
    {
        for tid in locals {
            self.local(*tid)?;
        }
        Ok(())
    }

    /// Those that a Checkpoint has in doubt.
    fn all_global(&mut self, doubtful: &[DoubtfulSum]) -> Result<(), Memory>
        ensures { OnOk result (Adds none (λ tx. some_of (is_held_of tx) doubtful.now) self.old self.new) }
    {
        for held in doubtful {
            self.global(held.tid)?;
        }
        Ok(())
    }

    /// The global ones that a Checkpoint names: those in doubt and the owner.
    fn sum(&mut self, sum: &SiteSum) -> Result<(), Memory>
        ensures { OnOk result (Adds none (λ tx. is_sum_of tx sum.now) self.old self.new) }
    {
        self.all_global(sum.doubtful.as_slice())?;
        match sum.owner {
            Some(owner) => self.global(owner),
            None => Ok(()),
        }
    }

    /// The next record.
    fn take(&mut self, entry: &SiteRecord) -> Result<(), Memory>
        ensures { OnOk result (Adds (λ tx. is_local_of tx entry.now) (λ tx. is_global_of tx entry.now) self.old self.new) }
    {
        match entry {
            SiteRecord::Setup { .. } => Ok(()),
            SiteRecord::Start { .. } => Ok(()),
            SiteRecord::Prepared { tid, .. } => self.global(*tid),
            SiteRecord::Ended { tid, .. } => self.global(*tid),
            SiteRecord::Local { tid, .. } => self.local(*tid),
            SiteRecord::Checkpoint(sum) => self.sum(sum),
        }
    }

    /// The next records.
    fn take_all(&mut self, entries: &[SiteRecord]) -> Result<(), Memory>
        ensures { OnOk result (Adds (λ tx. some_of (is_local_of tx) entries.now) (λ tx. some_of (is_global_of tx) entries.now) self.old self.new) }
    {
        for entry in entries {
            self.take(entry)?;
        }
        Ok(())
    }

    /// What a first Checkpoint counts as.
    fn take_sum(&mut self, sum: &SiteSum) -> Result<(), Memory>
        ensures { OnOk result (Adds (λ tx. some_of (is_of tx) sum.now.locals) (λ tx. is_sum_of tx sum.now) self.old self.new) }
    {
        self.all_local(sum.locals.as_slice())?;
        self.sum(sum)
    }

    /// The first record, with what it counts as.
    fn take_first(&mut self, first: &SiteRecord) -> Result<(), Memory>
        ensures { OnOk result (Adds (λ tx. some_of (is_local_of tx) (counted (first.now ∷ []))) (λ tx. is_global_of tx first.now) self.old self.new) }
    {
        match first {
            SiteRecord::Checkpoint(sum) => self.take_sum(sum),
            _ => self.take(first),
        }
    }
}

/// The local and the global transactions of the records.
fn transactions(alloc: Global, records: &[SiteRecord]) -> Result<Parted, Memory>
    ensures locals { IfOk result (λ parted. (tx : TheTx) → contains tx_cmp parted.locals tx ≡ some_of (is_local_of tx) (counted (reverse records.now))) }
    ensures globals { IfOk result (λ parted. (tx : TheTx) → contains tx_cmp parted.globals tx ≡ some_of (is_global_of tx) (reverse records.now)) }
{
    let mut parted = Parted {
        locals: BTreeSet::new(alloc),
        globals: BTreeSet::new(alloc),
    };
    let Some((first, newer)) = records.split_first() else {
        return Ok(parted);
    };
    parted.take_first(first)?;
    parted.take_all(newer)?;
    Ok(parted)
}

/// The transactions that have a Local, or stand among the locals of a first Checkpoint.
pub(crate) fn local_transactions(
    alloc: Global,
    records: &[SiteRecord],
) -> Result<BTreeSet<Tx>, Memory>
    ensures { IfOk result (λ locals. (tx : TheTx) → contains tx_cmp locals tx ≡ some_of (is_local_of tx) (counted (reverse records.now))) }
{
    let Parted { locals, .. } = transactions(alloc, records)?;
    Ok(locals)
}

/// Whether no transaction that has a Local has a record of a global one.
pub(crate) fn are_parted(alloc: Global, records: &[SiteRecord]) -> Result<bool, Memory>
    ensures { IfOk result (λ parted. IsTrue parted ↔ AreParted (counted (reverse records.now)) (reverse records.now)) }
{
    let parted = transactions(alloc, records)?;
    Ok(parted.locals.is_disjoint(&parted.globals))
}
