//! Who holds a key, by rising age.
ghost use Rattle.std.specs.Prelude.{◌≡◌, reverse, not, is_some, cond, None, OnOk, OnErr, IfOk};
ghost use Rattle.std.specs.FinMap.{empty, get, remove};
ghost use Rattle.locking_engine.specs.Places.{Place};
ghost use Rattle.locking_engine.specs.Holders.{place_of, held_by, is_touched, touches, IsOldestOther, with_rows_held, with_restored};

use crate::key_lists::{self, Lists};
use fed_rules::Kept;
use mdb_base::{Key, Memory, Put, Tid};
use run_book::{Granted, HeldRun, Rival};
use std::alloc::Global;
use std::collections::HashMap;
use std::marker::Model;

/// The holders of each key by their ages, seen as a finite map from keys and ages to the runs' names. Each call takes time by the
/// holders of its key alone.
#[derive(Drop)]
pub struct Holders {
    lists: Lists,
}

impl Model for Holders {
    ghost use Rattle.locking_engine.specs.Holders.{Holders as HolderMap, holders_code};
    ghost use Rattle.locking_engine.specs.Lists.{AreInOrder, holders_in};

    ghost Value = { HolderMap };

    ghost coded = { holders_code };

    ghost view = { λ h. holders_in h.lists.entries };

    ghost invariant = { λ h. AreInOrder h.lists.entries };
}

impl Holders {
    /// No holder at all.
    pub fn new(alloc: Global) -> Self
        ensures { result ≡ empty }
    {
        Holders {
            lists: HashMap::new(alloc),
        }
    }

    /// The oldest holder of the key but for the one of this age.
    pub fn oldest_other(&self, key: Key, age: u64) -> Option<Rival>
        ensures { IsOldestOther self.now key age result }
    {
        key_lists::oldest_other(&self.lists, key, age)
    }

    /// Makes a run of this age a holder of the key, and answers whether nobody of this age was one before.
    pub fn hold(&mut self, alloc: Global, key: Key, age: u64, tid: Tid) -> Result<bool, Memory>
        ensures held { OnOk result (self.new ≡ held_by (place_of key age) tid self.old) }
        ensures fresh { IfOk result (λ fresh. fresh ≡ not (is_some (get self.old (place_of key age)))) }
        ensures memory { OnErr result (self.new ≡ self.old) }
    {
        key_lists::hold(alloc, &mut self.lists, key, Rival { tid, rank: age })
    }

    /// Nobody of this age holds the key any more.
    pub fn let_go(&mut self, key: Key, age: u64)
        ensures { self.new ≡ remove self.old (place_of key age) }
    {
        key_lists::let_go(&mut self.lists, key, age);
    }

    /// A run that ends holds none of its keys any more.
    pub fn release(&mut self, run: &HeldRun)
        ensures { (q : Place) → get self.new q ≡ cond (is_touched run.now.run q) None (get self.old q) }
    {
        self.let_go_of(run.accesses(), run.age());
    }

    /// Nobody of this age holds a key of these accesses any more.
    fn let_go_of(&mut self, accesses: &[Granted], age: u64)
        ensures { (q : Place) → get self.new q ≡ cond (touches (reverse accesses.now) age q) None (get self.old q) }
    {
        for access in accesses {
            self.let_go(access.key(), age);
        }
    }
}

/// Makes a run of this age a holder of the keys of these rows.
fn hold_rows(
    alloc: Global,
    holders: &mut Holders,
    rows: &[Put],
    age: u64,
    tid: Tid,
) -> Result<(), Memory>
    ensures { OnOk result (holders.new ≡ with_rows_held tid age rows.now holders.old) }
{
    for row in rows {
        holders.hold(alloc, row.key, age, tid)?;
    }
    Ok(())
}

/// The transactions in doubt as holders of the keys that they wrote, by their serial numbers.
pub fn writers_of(alloc: Global, doubtful: &[Kept]) -> Result<Holders, Memory>
    ensures { IfOk result (λ holders. holders ≡ with_restored doubtful.now empty) }
{
    let mut holders = Holders::new(alloc);
    for kept in doubtful {
        hold_rows(
            alloc,
            &mut holders,
            kept.writes.as_slice(),
            kept.number,
            kept.tid,
        )?;
    }
    Ok(holders)
}
