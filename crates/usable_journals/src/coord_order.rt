//! The order of an attempt's records: at most one Initiation, one of Commit and Abort, and one End, in this order; and one Commit of each
//! transaction.
ghost use Rattle.std.specs.Prelude.{◌≡◌, IfOk, List, [], ◌∷◌, map, reverse};
ghost use Rattle.std.specs.BTreeSet.{contains};
ghost use Rattle.mdb_base.specs.declared.names.SiteTicket.{SiteTicket as TheTicket};
ghost use Rattle.mdb_base.specs.declared.names.Tid.{Tid as TheTid};
ghost use Rattle.mdb_base.specs.Names.{same_tid, tid_cmp};
ghost use Rattle.mdb_base.specs.Words.{some_of, those};
ghost use Rattle.presumptions.specs.declared.Participant.{Participant};
ghost use Rattle.fed_rules.specs.declared.records.CoordRecord.TheVariants as Rec;
ghost use Rattle.fed_rules.specs.Reopened.{commit_read, coord_sum_read, end_read, initiation_read};
ghost use Rattle.fed_rules.specs.Usable.{coord_read};
ghost use Rattle.usable_journals.specs.CoordTests.{in_order};
ghost use Rattle.usable_journals.specs.Recorded.{IsGood, Takes, TakesAll, end_unless, not_in};

use fed_rules::{CommittedAttempt, CoordRecord, CoordSum, OpenAttempt};
use mdb_base::{Memory, Tid, Tx};
use std::alloc::Global;
use std::collections::BTreeSet;

/// The attempts that have a record so far.
#[derive(Drop)]
pub(crate) struct Recorded {
    /// Those that have any record.
    named: BTreeSet<Tid>,
    /// Those that have a Commit, an Abort or an End.
    decided: BTreeSet<Tid>,
    /// Those that have an End.
    ended: BTreeSet<Tid>,
    /// The transactions that have a Commit.
    committed: BTreeSet<Tx>,
}

impl Recorded {
    fn new(alloc: Global) -> Recorded
        ensures { IsGood result [] }
    {
        Recorded {
            named: BTreeSet::new(alloc),
            decided: BTreeSet::new(alloc),
            ended: BTreeSet::new(alloc),
            committed: BTreeSet::new(alloc),
        }
    }

    /// An Initiation: whether it may stand here.
    fn begin(&mut self, tid: Tid) -> Result<bool, Memory>
        ensures { IfOk result (λ fits. (participants : List Participant) → Takes self.old self.new (Rec.Initiation tid participants) fits) }
    {
        Ok(self.named.insert(tid)?)
    }

    /// An Abort: whether it may stand here.
    fn abort(&mut self, tid: Tid) -> Result<bool, Memory>
        ensures { IfOk result (λ fits. (participants : List Participant) → Takes self.old self.new (Rec.Abort tid participants) fits) }
    {
        self.named.insert(tid)?;
        Ok(self.decided.insert(tid)?)
    }

    /// A Commit: whether it may stand here.
    fn commit(&mut self, tid: Tid) -> Result<bool, Memory>
        ensures { IfOk result (λ fits. (tickets : List TheTicket) → Takes self.old self.new (Rec.Commit tid tickets) fits) }
    {
        self.named.insert(tid)?;
        let is_new = self.decided.insert(tid)?;
        let is_first = self.committed.insert(tid.tx)?;
        Ok(is_new && is_first)
    }

    /// An End: whether it may stand here.
    fn end(&mut self, tid: Tid) -> Result<bool, Memory>
        ensures { IfOk result (Takes self.old self.new (Rec.End tid)) }
    {
        self.named.insert(tid)?;
        self.decided.insert(tid)?;
        Ok(self.ended.insert(tid)?)
    }

    /// The next record: whether it may stand here.
    fn take(&mut self, entry: &CoordRecord) -> Result<bool, Memory>
        ensures { IfOk result (Takes self.old self.new entry.now) }
    {
        match entry {
            CoordRecord::Initiation { tid, .. } => self.begin(*tid),
            CoordRecord::Commit { tid, .. } => self.commit(*tid),
            CoordRecord::Abort { tid, .. } => self.abort(*tid),
            CoordRecord::End { tid } => self.end(*tid),
            CoordRecord::Checkpoint(_) => Ok(true),
        }
    }

    /// The next records, the oldest first: whether they may stand here.
    fn take_all(&mut self, entries: &[CoordRecord]) -> Result<bool, Memory>
        ensures { IfOk result (TakesAll self.old self.new (reverse entries.now)) }
    {
        for entry in entries {
            if !self.take(entry)? {
                return Ok(false);
            }
        }
        Ok(true)
    }

    /// The open attempts of a first Checkpoint, the last one first, as Initiations.
    fn begin_all(&mut self, attempts: &[OpenAttempt]) -> Result<bool, Memory>
        ensures { IfOk result (TakesAll self.old self.new (map initiation_read attempts.now)) }
    {
        let mut left = attempts.len();
        while left > 0 {
            left -= 1;
            if !self.begin(attempts[left].tid)? {
                return Ok(false);
            }
        }
        Ok(true)
    }

    /// Its committed attempts, the last one first, as Commits.
    fn commit_all(&mut self, committed: &[CommittedAttempt]) -> Result<bool, Memory>
        ensures { IfOk result (TakesAll self.old self.new (map commit_read committed.now)) }
    {
        let mut left = committed.len();
        while left > 0 {
            left -= 1;
            if !self.commit(committed[left].tid)? {
                return Ok(false);
            }
        }
        Ok(true)
    }

    /// The attempt's End, unless it is open: whether it may stand here.
    fn end_unless(&mut self, tids: &BTreeSet<Tid>, tid: Tid) -> Result<bool, Memory>
        ensures { IfOk result (TakesAll self.old self.new (end_unless (contains tid_cmp tids.now tid) tid)) }
    {
        if tids.contains(&tid) {
            return Ok(true);
        }
        self.end(tid)
    }

    /// Those of them that aren't open, the last one first, as Ends.
    fn end_all(
        &mut self,
        tids: &BTreeSet<Tid>,
        committed: &[CommittedAttempt],
    ) -> Result<bool, Memory>
        ensures { IfOk result (TakesAll self.old self.new (map end_read (those (not_in tids.now) committed.now))) }
    {
        let mut left = committed.len();
        while left > 0 {
            left -= 1;
            if !self.end_unless(tids, committed[left].tid)? {
                return Ok(false);
            }
        }
        Ok(true)
    }

    /// A first Checkpoint, as the records that it is read as: whether they may stand here.
    fn take_sum(&mut self, alloc: Global, sum: &CoordSum) -> Result<bool, Memory>
        ensures { IfOk result (TakesAll self.old self.new (coord_sum_read sum.now)) }
    {
        let attempts = sum.open_attempts.as_slice();
        let committed = sum.committed.as_slice();
        let tids = open_tids(alloc, attempts)?;
        if !self.begin_all(attempts)? {
            return Ok(false);
        }
        if !self.commit_all(committed)? {
            return Ok(false);
        }
        self.end_all(&tids, committed)
    }

    /// The first record: whether it, or what it is read as, may stand here.
    fn take_first(&mut self, alloc: Global, first: &CoordRecord) -> Result<bool, Memory>
        ensures { IfOk result (TakesAll self.old self.new (coord_read (first.now ∷ []))) }
    {
        match first {
            CoordRecord::Checkpoint(sum) => self.take_sum(alloc, sum),
            _ => self.take(first),
        }
    }
}

/// The open attempts.
pub(crate) fn open_tids(alloc: Global, attempts: &[OpenAttempt]) -> Result<BTreeSet<Tid>, Memory>
    ensures { IfOk result (λ tids. (tid : TheTid) → contains tid_cmp tids tid ≡ some_of (λ attempt. same_tid attempt.tid tid) attempts.now) }
{
    let mut tids = BTreeSet::new(alloc);
    for attempt in attempts {
        tids.insert(attempt.tid)?;
    }
    Ok(tids)
}

/// Whether the records stand in order, a first Checkpoint read as what it sums.
pub(crate) fn stand_in_order(alloc: Global, records: &[CoordRecord]) -> Result<bool, Memory>
    ensures { IfOk result (λ fits. fits ≡ in_order (coord_read (reverse records.now))) }
{
    let Some((first, newer)) = records.split_first() else {
        return Ok(true);
    };
    let mut recorded = Recorded::new(alloc);
    if !recorded.take_first(alloc, first)? {
        return Ok(false);
    }
    recorded.take_all(newer)
}
