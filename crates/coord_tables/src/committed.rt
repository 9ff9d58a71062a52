//! The attempts that are committed.
ghost use Rattle.std.specs.Prelude.{◌≡◌, cond, None, Some, map, IfOk, IsSome, OnErr, OnOk};
ghost use Rattle.mdb_base.specs.declared.names.Tx.{Tx as TheTx};
ghost use Rattle.mdb_base.specs.Names.{same_tx};
ghost use Rattle.coord_tables.specs.Attempts.{last_of};
ghost use Rattle.coord_tables.specs.Trees.{committed_in, entry_of};

use fed_rules::CommittedAttempts;
use mdb_base::{Memory, Tid, Tx};
use std::alloc::Global;
use std::collections::BTreeMap;
use std::marker::Model;

/// The committed attempt of each transaction, in a tree by transaction: each call but `restored` takes time by the logarithm of their
/// count. A transaction for which there is room has an entry, of no attempt at first.
#[derive(Drop)]
pub struct Committed {
    tids: BTreeMap<Tx, Option<Tid>>,
}

impl Model for Committed {
    ghost use Rattle.std.specs.Prelude.{Option as OptionOf};
    ghost use Rattle.mdb_base.specs.declared.names.Tid.{Tid as TheTid};
    ghost use Rattle.coord_tables.specs.Trees.{Tree};

    ghost Value = { Tree (OptionOf TheTid) };

    ghost view = { λ c. record { listed = c.tids.entries } };
}

impl Committed {
    /// Nothing is committed.
    pub fn new(alloc: Global) -> Committed
        ensures { (tx : TheTx) → committed_in result.listed tx ≡ None }
    {
        Committed {
            tids: BTreeMap::new(alloc),
        }
    }

    /// These attempts: of each transaction its last one.
    pub fn restored(alloc: Global, committed: &CommittedAttempts) -> Result<Committed, Memory>
        ensures { IfOk result (λ all. (tx : TheTx) → committed_in all.listed tx ≡ last_of tx (map (λ attempt. attempt.tid) committed.now)) }
    {
        let mut tids = BTreeMap::new(alloc);
        for attempt in committed.as_slice() {
            put(&mut tids, attempt.tid.tx, Some(attempt.tid))?;
        }
        Ok(Committed { tids })
    }

    /// Makes room for an attempt of the transaction.
    pub fn reserve(&mut self, tx: Tx) -> Result<(), Memory>
        ensures room { OnOk result (IsSome (entry_of self.new.listed tx)) }
        ensures same { (t : TheTx) → committed_in self.new.listed t ≡ committed_in self.old.listed t }
    {
        match find(&self.tids, tx) {
            Some(_) => Ok(()),
            None => put(&mut self.tids, tx, None),
        }
    }

    /// Notes that the attempt is committed, for which there is room.
    pub fn add(&mut self, tid: Tid)
        requires { IsSome (entry_of self.old.listed tid.tx) }
        ensures { (tx : TheTx) → committed_in self.new.listed tx ≡ cond (same_tx tid.tx tx) (Some tid) (committed_in self.old.listed tx) }
    {
        set(&mut self.tids, tid);
    }

    /// The committed attempt of the transaction.
    pub fn last_of(&self, tx: Tx) -> Option<Tid>
        ensures { result ≡ committed_in self.now.listed tx }
    {
        match find(&self.tids, tx) {
            Some(committed) => committed,
            None => None,
        }
    }
}

/// The entry of the transaction.
fn find(tids: &BTreeMap<Tx, Option<Tid>>, tx: Tx) -> Option<Option<Tid>>
    ensures { result ≡ entry_of tids.now.entries tx }
{
    tids.get(&tx).copied()
}

/// Adds an entry, or puts it in the place of one.
fn put(tids: &mut BTreeMap<Tx, Option<Tid>>, tx: Tx, committed: Option<Tid>) -> Result<(), Memory>
    ensures put { OnOk result ((t : TheTx) → entry_of tids.new.entries t ≡ cond (same_tx tx t) (Some committed) (entry_of tids.old.entries t)) }
    ensures memory { OnErr result (tids.new.entries ≡ tids.old.entries) }
{
    tids.insert(tx, committed)?;
    Ok(())
}

/// Notes the attempt in the entry of its transaction.
fn set(tids: &mut BTreeMap<Tx, Option<Tid>>, tid: Tid)
    requires { IsSome (entry_of tids.old.entries tid.tx) }
    ensures { (t : TheTx) → entry_of tids.new.entries t ≡ cond (same_tx tid.tx t) (Some (Some tid)) (entry_of tids.old.entries t) }
{
    *tids.get_mut(&tid.tx).unwrap() = Some(tid);
}
