//! The unended runs by their ages.
ghost use Rattle.std.specs.Prelude.{◌≡◌, ◌<◌, OnOk, OnErr, IfOk};
ghost use Rattle.std.specs.FinMap.{empty, get, insert, remove};
ghost use Rattle.run_book.specs.Takers.{restored_takers};
ghost use Rattle.multiversion_engine.specs.Unended.{AreWithin};

use fed_rules::Kept;
use mdb_base::{Memory, Tid};
use std::alloc::Global;
use std::collections::BTreeMap;
use std::marker::Model;
use std::ops::Bound;

/// The unended runs, seen as a finite map from their ages to their attempts. No two of them are of one age. Each call takes time by the
/// logarithm of their count.
#[derive(Drop)]
pub struct Unended {
    tids: BTreeMap<u64, Tid>,
}

impl Model for Unended {
    ghost use Rattle.std.specs.FinMap.{from_entries};
    ghost use Rattle.run_book.specs.Takers.{ByAge, by_age_code};

    ghost Value = { ByAge };

    ghost coded = { by_age_code };

    ghost view = { λ u. from_entries u.tids.entries };
}

impl Unended {
    /// No run at all.
    pub fn new(alloc: Global) -> Self
        ensures { result ≡ empty }
    {
        Unended {
            tids: BTreeMap::new(alloc),
        }
    }

    /// The transactions in doubt by their serial numbers, which are their ages.
    pub fn of_doubtful(alloc: Global, doubtful: &[Kept]) -> Result<Self, Memory>
        ensures { IfOk result (λ runs. runs ≡ restored_takers doubtful.now empty) }
    {
        let mut runs = Unended::new(alloc);
        for kept in doubtful {
            runs.add(kept.number, kept.tid)?;
        }
        Ok(runs)
    }

    /// A run of this age begins.
    pub fn add(&mut self, age: u64, tid: Tid) -> Result<(), Memory>
        ensures added { OnOk result (self.new ≡ insert self.old age tid) }
        ensures memory { OnErr result (self.new ≡ self.old) }
    {
        self.tids.insert(age, tid)?;
        Ok(())
    }

    /// The run of this age ends.
    pub fn remove(&mut self, age: u64)
        ensures { self.new ≡ remove self.old age }
    {
        let _ = self.tids.remove(&age);
    }

    /// Whether a run's age is above the first number and not above the second.
    pub fn any_within(&self, from: u64, until: u64) -> bool
        requires { from < until }
        ensures { AreWithin self.now from until result }
    {
        let ages = (Bound::Excluded(from), Bound::Included(until));
        match self.tids.range(ages).next() {
            Some(_) => true,
            None => false,
        }
    }
}
