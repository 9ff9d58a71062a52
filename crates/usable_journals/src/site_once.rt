//! Each attempt has at most one Prepared and one Ended behind it, and each transaction at most one Local.
ghost use Rattle.std.specs.Prelude.{ℕ, ◌≡◌, ◌↔◌, IfOk, IsTrue, List, [], ◌∷◌, ◌++◌, map, reverse};
ghost use Rattle.mdb_base.specs.declared.rows.Put.{Put};
ghost use Rattle.presumptions.specs.declared.Decision.{Decision};
ghost use Rattle.fed_rules.specs.declared.records.SiteRecord.TheVariants as Rec;
ghost use Rattle.fed_rules.specs.Reopened.{local_read};
ghost use Rattle.fed_rules.specs.SiteSums.{carried};
ghost use Rattle.fed_rules.specs.Usable.{OnceEach, counted};
ghost use Rattle.usable_journals.specs.OnceTold.{IsGood, Takes, TakesAll};

use fed_rules::{DoubtfulSum, SiteRecord, SiteSum};
use mdb_base::{Memory, Tid, Tx};
use std::alloc::Global;
use std::collections::BTreeSet;

/// Who has a record so far.
#[derive(Drop)]
pub(crate) struct Once {
    /// The attempts that have a Prepared.
    prepared: BTreeSet<Tid>,
    /// Those of them that have no Ended behind it.
    in_doubt: BTreeSet<Tid>,
    /// The transactions that have a Local.
    locals: BTreeSet<Tx>,
}

impl Once {
    fn new(alloc: Global) -> Once
        ensures { IsGood result [] }
    {
        Once {
            prepared: BTreeSet::new(alloc),
            in_doubt: BTreeSet::new(alloc),
            locals: BTreeSet::new(alloc),
        }
    }

    /// A Prepared: whether it may stand here.
    fn prepare(&mut self, tid: Tid) -> Result<bool, Memory>
        ensures { IfOk result (λ fits. (epoch number ticket : ℕ) (writes : List Put) → Takes self.old self.new (Rec.Prepared tid epoch number ticket writes) fits) }
    {
        self.in_doubt.insert(tid)?;
        Ok(self.prepared.insert(tid)?)
    }

    /// An Ended: whether it may stand here.
    fn end(&mut self, tid: Tid) -> bool
        ensures { (decision : Decision) → Takes self.old self.new (Rec.Ended tid decision) result }
    {
        let was_in_doubt = self.in_doubt.remove(&tid);
        let was_prepared = self.prepared.contains(&tid);
        was_in_doubt || !was_prepared
    }

    /// A Local: whether it may stand here.
    fn commit(&mut self, tid: Tid) -> Result<bool, Memory>
        ensures { IfOk result (λ fits. (number : ℕ) (writes : List Put) → Takes self.old self.new (Rec.Local tid number writes) fits) }
    {
        Ok(self.locals.insert(tid.tx)?)
    }

    /// The next record: whether it may stand here.
    fn take(&mut self, entry: &SiteRecord) -> Result<bool, Memory>
        ensures { IfOk result (Takes self.old self.new entry.now) }
    {
        match entry {
            SiteRecord::Setup { .. } => Ok(true),
            SiteRecord::Start { .. } => Ok(true),
            SiteRecord::Prepared { tid, .. } => self.prepare(*tid),
            SiteRecord::Ended { tid, .. } => Ok(self.end(*tid)),
            SiteRecord::Local { tid, .. } => self.commit(*tid),
            SiteRecord::Checkpoint(_) => Ok(true),
        }
    }

    /// The next records, the oldest first: whether they may stand here.
    fn take_all(&mut self, entries: &[SiteRecord]) -> Result<bool, Memory>
        ensures { IfOk result (TakesAll self.old self.new (reverse entries.now)) }
    {
        for entry in entries {
            if !self.take(entry)? {
                return Ok(false);
            }
        }
        Ok(true)
    }

    /// The committed local attempts of a first Checkpoint, the last one first, as Locals.
    fn commit_all(&mut self, locals: &[Tid]) -> Result<bool, Memory>
        ensures { IfOk result (λ fits. (counter : ℕ) → TakesAll self.old self.new (map (local_read counter) locals.now) fits) }
    {
        let mut left = locals.len();
        while left > 0 {
            left -= 1;
            let local = &locals[left];
            if !self.commit(*local)? {
                return Ok(false);
            }
        }
        Ok(true)
    }

    /// Those that it has in doubt, the last one first, as Prepareds.
    fn prepare_all(&mut self, doubtful: &[DoubtfulSum]) -> Result<bool, Memory>
        ensures { IfOk result (TakesAll self.old self.new (carried doubtful.now)) }
    {
        let mut left = doubtful.len();
        while left > 0 {
            left -= 1;
            if !self.prepare(doubtful[left].tid)? {
                return Ok(false);
            }
        }
        Ok(true)
    }

    /// A first Checkpoint, as the records that it counts as.
    fn take_sum(&mut self, sum: &SiteSum) -> Result<bool, Memory>
        ensures { IfOk result (TakesAll self.old self.new (carried sum.now.doubtful ++ map (local_read sum.now.counter) sum.now.locals)) }
    {
        let locals = sum.locals.as_slice();
        let doubtful = sum.doubtful.as_slice();
        if !self.commit_all(locals)? {
            return Ok(false);
        }
        self.prepare_all(doubtful)
    }

    /// The first record, or what it counts as.
    fn take_first(&mut self, first: &SiteRecord) -> Result<bool, Memory>
        ensures { IfOk result (TakesAll self.old self.new (counted (first.now ∷ []))) }
    {
        match first {
            SiteRecord::Checkpoint(sum) => self.take_sum(sum),
            _ => self.take(first),
        }
    }
}

/// Whether each attempt is recorded once, those included that a first Checkpoint counts as.
pub(crate) fn are_recorded_once(alloc: Global, records: &[SiteRecord]) -> Result<bool, Memory>
    ensures { IfOk result (λ once. IsTrue once ↔ OnceEach (counted (reverse records.now))) }
{
    let Some((first, newer)) = records.split_first() else {
        return Ok(true);
    };
    let mut once = Once::new(alloc);
    if !once.take_first(first)? {
        return Ok(false);
    }
    once.take_all(newer)
}
