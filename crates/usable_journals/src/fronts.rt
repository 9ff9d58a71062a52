//! At every front of a site's journal those in doubt stand in order and write no common key, commits stand behind them, and local commits on top.
ghost use Rattle.std.specs.Prelude.{◌≡◌, ◌↔◌, IfOk, IsTrue, [], reverse};
ghost use Rattle.mdb_base.specs.Words.{each_of};
ghost use Rattle.fed_rules.specs.declared.records.SiteRecord.TheVariants as Rec;
ghost use Rattle.usable_journals.specs.Fronts as fronts;
ghost use Rattle.usable_journals.specs.Fronts.{CanHold, IsLast, Takes, TakesAll, Tells, held_read};

use crate::copies::copy_rows;
use crate::keys::{free, hold, raise};
use fed_rules::{DoubtfulSum, SiteRecord};
use mdb_base::{Key, Memory, Put, Puts, Tid};
use presumptions::Decision;
use std::alloc::Global;
use std::collections::{BTreeMap, BTreeSet};

/// Those in doubt behind the records so far, and which numbers wrote a key.
#[derive(Drop)]
pub(crate) struct Front {
    /// Those in doubt.
    doubts: BTreeMap<Tid, DoubtfulSum>,
    /// Their numbers.
    numbers: BTreeSet<u64>,
    /// The number of the one in doubt that writes a key.
    held: BTreeMap<Key, u64>,
    /// The greatest number of a committed one that wrote a key.
    committed: BTreeMap<Key, u64>,
}

impl Front {
    pub fn new(alloc: Global) -> Front
        ensures { Tells result [] }
    {
        Front {
            doubts: BTreeMap::new(alloc),
            numbers: BTreeSet::new(alloc),
            held: BTreeMap::new(alloc),
            committed: BTreeMap::new(alloc),
        }
    }

    /// Whether all numbers of those in doubt are smaller.
    fn is_last(&self, number: u64) -> bool
        ensures { IsTrue result ↔ IsLast self.now.numbers number }
    {
        match self.numbers.last() {
            Some(last) => *last < number,
            None => true,
        }
    }

    /// Whether none in doubt writes the key, and no committed one of this or a greater number wrote it.
    fn may_hold(&self, put: Put, number: u64) -> bool
        ensures { result ≡ fronts.may_hold self.now number put }
    {
        if self.held.contains_key(&put.key) {
            return false;
        }
        match self.committed.get(&put.key) {
            Some(last) => *last < number,
            None => true,
        }
    }

    /// Whether so it is of each key that is written.
    fn may_hold_all(&self, writes: &[Put], number: u64) -> bool
        ensures { result ≡ each_of (fronts.may_hold self.now number) writes.now }
    {
        for put in writes {
            if !self.may_hold(*put, number) {
                return false;
            }
        }
        true
    }

    /// Whether no committed one of this or a greater number and none in doubt of this or a smaller one writes the key.
    fn may_write(&self, put: Put, number: u64) -> bool
        ensures { result ≡ fronts.may_write self.now number put }
    {
        let is_under = match self.held.get(&put.key) {
            Some(held) => number < *held,
            None => true,
        };
        if !is_under {
            return false;
        }
        match self.committed.get(&put.key) {
            Some(last) => *last < number,
            None => true,
        }
    }

    /// Whether so it is of each key that is written.
    fn may_write_all(&self, writes: &[Put], number: u64) -> bool
        ensures { result ≡ each_of (fronts.may_write self.now number) writes.now }
    {
        for put in writes {
            if !self.may_write(*put, number) {
                return false;
            }
        }
        true
    }

    /// Whether a Prepared of this number with these writes may stand here.
    fn can_hold(&self, writes: &[Put], number: u64) -> bool
        ensures { IsTrue result ↔ CanHold self.now number writes.now }
    {
        if !self.is_last(number) {
            return false;
        }
        self.may_hold_all(writes, number)
    }

    /// A Prepared: whether it may stand here.
    pub fn prepare(&mut self, held: DoubtfulSum) -> Result<bool, Memory>
        ensures { IfOk result (Takes self.old self.new (held_read held)) }
    {
        if !self.can_hold(held.writes.as_slice(), held.number) {
            return Ok(false);
        }
        hold(&mut self.held, held.writes.as_slice(), held.number)?;
        self.numbers.insert(held.number)?;
        self.doubts.insert(held.tid, held)?;
        Ok(true)
    }

    /// An Ended, which may stand everywhere.
    fn end(&mut self, tid: Tid, decision: Decision) -> Result<bool, Memory>
        ensures { IfOk result (Takes self.old self.new (Rec.Ended tid decision)) }
    {
        let Some(held) = self.doubts.remove(&tid) else {
            return Ok(true);
        };
        self.numbers.remove(&held.number);
        free(&mut self.held, held.writes.as_slice());
        match decision {
            Decision::Commit => {
                raise(&mut self.committed, held.writes.as_slice(), held.number)?;
                Ok(true)
            }
            Decision::Abort => Ok(true),
        }
    }

    /// A Local: whether it may stand here.
    fn commit(&mut self, tid: Tid, number: u64, writes: &Puts) -> Result<bool, Memory>
        ensures { IfOk result (Takes self.old self.new (Rec.Local tid number writes.now)) }
    {
        if !self.may_write_all(writes.as_slice(), number) {
            return Ok(false);
        }
        raise(&mut self.committed, writes.as_slice(), number)?;
        Ok(true)
    }

    /// The next record: whether it may stand here.
    pub fn take(&mut self, alloc: Global, entry: &SiteRecord) -> Result<bool, Memory>
        ensures { IfOk result (Takes self.old self.new entry.now) }
    {
        match entry {
            SiteRecord::Setup { .. } => Ok(true),
            SiteRecord::Start { .. } => Ok(true),
            SiteRecord::Prepared {
                tid,
                epoch,
                number,
                ticket,
                writes,
            } => {
                let held = DoubtfulSum {
                    tid: *tid,
                    epoch: *epoch,
                    number: *number,
                    ticket: *ticket,
                    writes: copy_rows(alloc, writes)?,
                };
                self.prepare(held)
            }
            SiteRecord::Ended { tid, decision } => self.end(*tid, *decision),
            SiteRecord::Local {
                tid,
                number,
                writes,
            } => self.commit(*tid, *number, writes),
            SiteRecord::Checkpoint(_) => Ok(true),
        }
    }

    /// The next records, the oldest first: whether they may stand here.
    pub fn take_all(&mut self, alloc: Global, entries: &[SiteRecord]) -> Result<bool, Memory>
        ensures { IfOk result (TakesAll self.old self.new (reverse entries.now)) }
    {
        for entry in entries {
            if !self.take(alloc, entry)? {
                return Ok(false);
            }
        }
        Ok(true)
    }
}
