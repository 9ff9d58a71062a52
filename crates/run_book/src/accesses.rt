//! Who accessed each key.
ghost use Rattle.std.specs.Prelude.{◌≡◌, cond, reverse, None, OnOk, IfOk, IsSome};
ghost use Rattle.std.specs.FinMap.{empty, get};
ghost use Rattle.mdb_base.specs.declared.names.Key.{Key};
ghost use Rattle.mdb_base.specs.Names.{same_key};
ghost use Rattle.mdb_base.specs.Words.{some_of};
ghost use Rattle.fed_rules.specs.Replies.{has_written, writes};
ghost use Rattle.fed_rules.specs.EngineLines.{has_row};
ghost use Rattle.run_book.specs.Ages.{ages_of, no_ages, with_reader, with_writer, settled, unwritten, ended, restored_writer};

use crate::granted::Granted;
use crate::held_run::HeldRun;
use crate::key_ages::{End, KeyAges};
use crate::rival::Rival;
use fed_rules::Kept;
use mdb_base::{Key, Memory, Put};
use std::alloc::Global;
use std::collections::HashMap;
use std::marker::Model;

/// Who accessed each key, seen as a finite map from keys to their ages. An access takes the time of a look-up, which doesn't grow with
/// the count of keys; the end of a run takes that for each of its writes. Memory is taken by `make_room` alone, before an access is
/// granted.
#[derive(Drop)]
pub struct AccessAges {
    keys: HashMap<u16, KeyAges>,
}

impl Model for AccessAges {
    ghost use Rattle.std.specs.FinMap.{from_entries};
    ghost use Rattle.run_book.specs.Ages.{Ages, ages_code};

    ghost Value = { Ages };

    ghost coded = { ages_code };

    ghost view = { λ a. from_entries a.keys.entries };
}

impl AccessAges {
    /// Nobody accessed a key.
    pub fn new(alloc: Global) -> Self
        ensures { result ≡ empty }
    {
        AccessAges {
            keys: HashMap::new(alloc),
        }
    }

    /// What a restart finds: the transactions in doubt are the writers of their keys, by their serial numbers, and nobody else
    /// accessed a key.
    pub fn restored(alloc: Global, doubtful: &[Kept]) -> Result<Self, Memory>
        ensures { IfOk result (λ ages. (key : Key) → ages_of ages key ≡ record no_ages { writer = restored_writer doubtful.now key None }) }
    {
        let mut ages = AccessAges::new(alloc);
        for kept in doubtful {
            let run = Rival {
                tid: kept.tid,
                rank: kept.number,
            };
            ages.write_all(kept.writes.as_slice(), run)?;
        }
        Ok(ages)
    }

    /// A run is the writer of the keys of these rows.
    fn write_all(&mut self, rows: &[Put], run: Rival) -> Result<(), Memory>
        ensures { OnOk result ((q : Key) → ages_of self.new q ≡ cond (has_row q rows.now) (with_writer run (ages_of self.old q)) (ages_of self.old q)) }
    {
        for row in rows {
            self.make_room(row.key)?;
            self.write(row.key, run);
        }
        Ok(())
    }

    /// Who accessed the key.
    pub fn of(&self, key: Key) -> KeyAges
        ensures { result ≡ ages_of self.now key }
    {
        match self.keys.get(&key.0) {
            Some(ages) => *ages,
            None => KeyAges::none(),
        }
    }

    /// Makes room for the accesses of a key.
    pub fn make_room(&mut self, key: Key) -> Result<(), Memory>
        ensures room { OnOk result (IsSome (get self.new key.0)) }
        ensures same { (q : Key) → ages_of self.new q ≡ ages_of self.old q }
    {
        if !self.keys.contains_key(&key.0) {
            self.keys.insert(key.0, KeyAges::none())?;
        }
        Ok(())
    }

    /// Notes that a run was granted a read of the key, for which there is room.
    pub fn read(&mut self, key: Key, run: Rival)
        requires { IsSome (get self.old key.0) }
        ensures { (q : Key) → ages_of self.new q ≡ cond (same_key key q) (with_reader run (ages_of self.old q)) (ages_of self.old q) }
    {
        let place = self.keys.get_mut(&key.0).unwrap();
        *place = place.with_reader(run);
    }

    /// Notes that a run was granted a write of the key, for which there is room.
    pub fn write(&mut self, key: Key, run: Rival)
        requires { IsSome (get self.old key.0) }
        ensures { (q : Key) → ages_of self.new q ≡ cond (same_key key q) (with_writer run (ages_of self.old q)) (ages_of self.old q) }
    {
        let place = self.keys.get_mut(&key.0).unwrap();
        *place = place.with_writer(run);
    }

    /// Notes that a run committed: it is the last writer of its keys.
    pub fn commit(&mut self, run: &HeldRun)
        ensures { (q : Key) → ages_of self.new q ≡ cond (has_written q run.now.run) (settled (ages_of self.old q)) (ages_of self.old q) }
    {
        self.end_all(run.accesses(), End::Commit);
    }

    /// Notes that a run ended otherwise: its writes count no longer, its reads go on counting.
    pub fn abort(&mut self, run: &HeldRun)
        ensures { (q : Key) → ages_of self.new q ≡ cond (has_written q run.now.run) (unwritten (ages_of self.old q)) (ages_of self.old q) }
    {
        self.end_all(run.accesses(), End::Abort);
    }

    /// The writer of each key that these accesses write ends so.
    fn end_all(&mut self, accesses: &[Granted], end: End)
        ensures { (q : Key) → ages_of self.new q ≡ cond (some_of (writes q) (reverse accesses.now)) (ended end (ages_of self.old q)) (ages_of self.old q) }
    {
        for access in accesses {
            self.end_one(access, end);
        }
    }

    /// The writer of a key ends so, where the access is a write of it.
    fn end_one(&mut self, access: &Granted, end: End)
        ensures { (q : Key) → ages_of self.new q ≡ cond (writes q access.now) (ended end (ages_of self.old q)) (ages_of self.old q) }
    {
        let Some(row) = access.written_row() else {
            return;
        };
        self.end_at(row.key, end);
    }

    /// The writer of a key ends so. Where nobody accessed the key, nothing changes.
    fn end_at(&mut self, key: Key, end: End)
        ensures { (q : Key) → ages_of self.new q ≡ cond (same_key key q) (ended end (ages_of self.old q)) (ages_of self.old q) }
    {
        let Some(place) = self.keys.get_mut(&key.0) else {
            return;
        };
        *place = place.ended(end);
    }
}
