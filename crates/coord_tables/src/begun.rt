//! The transactions of which an attempt was begun.
ghost use Rattle.std.specs.Prelude.{◌≡◌, ◌<◌, [], cond, Some, IsSome, OnErr, OnOk};
ghost use Rattle.mdb_base.specs.declared.names.Tx.{Tx as TheTx};
ghost use Rattle.mdb_base.specs.Names.{same_tx};
ghost use Rattle.coord_tables.specs.Found.{with_reached};
ghost use Rattle.coord_tables.specs.Trees.{entry_of, noted};

use mdb_base::{Memory, Tid, Tx};
use std::alloc::Global;
use std::collections::BTreeMap;
use std::marker::Model;

/// How many attempts of a transaction were begun.
#[derive(Clone, Copy)]
pub struct Count {
    pub tx: Tx,
    pub attempts: u8,
}

/// How many attempts of each transaction were begun, in a tree by transaction: each call takes time by the logarithm of their count. A
/// transaction for which there is room has an entry, of no attempt at first.
#[derive(Drop)]
pub struct Begun {
    counts: BTreeMap<Tx, u8>,
}

impl Model for Begun {
    ghost use Rattle.std.specs.Prelude.{ℕ};
    ghost use Rattle.coord_tables.specs.Trees.{Tree};

    ghost Value = { Tree ℕ };

    ghost view = { λ b. record { listed = b.counts.entries } };
}

impl Begun {
    /// Nothing was begun.
    pub fn new(alloc: Global) -> Begun
        ensures { result.listed ≡ [] }
    {
        Begun {
            counts: BTreeMap::new(alloc),
        }
    }

    /// Makes room for the transaction.
    pub fn reserve(&mut self, tx: Tx) -> Result<(), Memory>
        ensures room { OnOk result (IsSome (entry_of self.new.listed tx)) }
        ensures noted { (t : TheTx) → noted self.new.listed t ≡ noted self.old.listed t }
    {
        match find(&self.counts, tx) {
            Some(_) => Ok(()),
            None => put(&mut self.counts, tx),
        }
    }

    /// How many attempts of the transaction were begun.
    pub fn attempts_of(&self, tx: Tx) -> u8
        ensures { result ≡ noted self.now.listed tx }
    {
        find(&self.counts, tx).unwrap_or(0)
    }

    /// Notes how many attempts of the transaction were begun, for which there is room.
    pub fn note(&mut self, count: Count)
        requires { IsSome (entry_of self.old.listed count.tx) }
        ensures { (tx : TheTx) → noted self.new.listed tx ≡ cond (same_tx count.tx tx) count.attempts (noted self.old.listed tx) }
    {
        set(&mut self.counts, count);
    }

    /// Notes that an attempt of 0 to 31 was begun, and those of its transaction before it.
    pub fn reach(&mut self, tid: Tid) -> Result<(), Memory>
        requires { tid.attempt < 32 }
        ensures { OnOk result ((tx : TheTx) → noted self.new.listed tx ≡ with_reached tx (noted self.old.listed tx) tid) }
    {
        self.reserve(tid.tx)?;
        let attempts = self.attempts_of(tid.tx).max(tid.attempt + 1);
        self.note(Count {
            tx: tid.tx,
            attempts,
        });
        Ok(())
    }
}

/// The entry of the transaction.
fn find(counts: &BTreeMap<Tx, u8>, tx: Tx) -> Option<u8>
    ensures { result ≡ entry_of counts.now.entries tx }
{
    counts.get(&tx).copied()
}

/// Adds an entry of no attempt.
fn put(counts: &mut BTreeMap<Tx, u8>, tx: Tx) -> Result<(), Memory>
    ensures put { OnOk result ((t : TheTx) → entry_of counts.new.entries t ≡ cond (same_tx tx t) (Some 0) (entry_of counts.old.entries t)) }
    ensures memory { OnErr result (counts.new.entries ≡ counts.old.entries) }
{
    counts.insert(tx, 0)?;
    Ok(())
}

/// Notes this in the entry of the transaction.
fn set(counts: &mut BTreeMap<Tx, u8>, count: Count)
    requires { IsSome (entry_of counts.old.entries count.tx) }
    ensures { (t : TheTx) → entry_of counts.new.entries t ≡ cond (same_tx count.tx t) (Some count.attempts) (entry_of counts.old.entries t) }
{
    *counts.get_mut(&count.tx).unwrap() = count.attempts;
}
