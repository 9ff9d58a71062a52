//! Who wrote each key: the last writer that ended by commit, and the sealed one that hasn't ended.
ghost use Rattle.std.specs.Prelude.{◌≡◌, cond, reverse, OnOk, OnErr, IfOk};
ghost use Rattle.std.specs.FinMap.{empty, get, insert};
ghost use Rattle.mdb_base.specs.Names.{same_key};
ghost use Rattle.mdb_base.specs.Words.{map_some};
ghost use Rattle.validation_engine.specs.Index.{writers_at, with_key, changed_by, IsChanged, with_rows_sealed, with_restored};

use fed_rules::Kept;
use mdb_base::{Key, Memory, Put, Tid};
use run_book::{Granted, HeldRun, Rival};
use std::alloc::Global;
use std::collections::HashMap;
use std::marker::Model;

/// A writer that ended by commit: its attempt, its serial number, and the moment of its end, which is the greatest number that was
/// drawn by then.
#[derive(Clone, Copy, Debug, PartialEq, Eq)]
pub struct Ended {
    pub tid: Tid,
    pub number: u64,
    pub moment: u64,
}

/// The writers of a key that count when a run is sealed.
#[derive(Clone, Copy, Debug, PartialEq, Eq)]
pub struct Writers {
    /// The last one that ended by commit.
    pub last: Option<Ended>,
    /// The sealed one that hasn't ended, by its serial number. There is at most one.
    pub sealed: Option<Rival>,
}

/// What becomes of the writers of each key that a run wrote.
#[derive(Clone, Copy, Debug, PartialEq, Eq)]
pub enum Change {
    /// The run is sealed.
    Sealed(Rival),
    /// It is sealed no longer: the sealing is taken back, or the run is aborted.
    Withdrawn,
    /// It ends by commit.
    Committed(Ended),
}

impl Change {
    /// The writers of a key after this.
    fn of(self, writers: Writers) -> Writers
        ensures { result ≡ changed_by self writers }
    {
        match self {
            Change::Sealed(writer) => Writers {
                last: writers.last,
                sealed: Some(writer),
            },
            Change::Withdrawn => Writers {
                last: writers.last,
                sealed: None,
            },
            Change::Committed(ended) => Writers {
                last: Some(ended),
                sealed: None,
            },
        }
    }
}

/// The writers of each key, seen as a finite map. Each call takes the time of a look-up, which doesn't grow with the count of keys,
/// for each access that it is about.
#[derive(Drop)]
pub struct Index {
    keys: HashMap<u16, Writers>,
}

impl Model for Index {
    ghost use Rattle.std.specs.FinMap.{from_entries};
    ghost use Rattle.validation_engine.specs.Index.{Index as KeyMap, index_code};

    ghost Value = { KeyMap };

    ghost coded = { index_code };

    ghost view = { λ i. from_entries i.keys.entries };
}

impl Index {
    /// No writer of any key.
    pub fn new(alloc: Global) -> Self
        ensures { result ≡ empty }
    {
        Index {
            keys: HashMap::new(alloc),
        }
    }

    /// The writers of a key.
    pub fn writers(&self, key: Key) -> Writers
        ensures { result ≡ writers_at self.now key }
    {
        match self.keys.get(&key.0) {
            Some(writers) => *writers,
            None => Writers {
                last: None,
                sealed: None,
            },
        }
    }

    /// Puts these writers of a key in the place of those that it has.
    fn put(&mut self, key: Key, writers: Writers) -> Result<(), Memory>
        ensures put { OnOk result (self.new ≡ insert self.old key.0 writers) }
        ensures memory { OnErr result (self.new ≡ self.old) }
    {
        self.keys.insert(key.0, writers)?;
        Ok(())
    }

    /// Makes an entry for a key, where it has none.
    pub fn add(&mut self, key: Key) -> Result<(), Memory>
        ensures added { OnOk result (self.new ≡ with_key key self.old) }
        ensures memory { OnErr result (self.new ≡ self.old) }
    {
        if self.keys.contains_key(&key.0) {
            return Ok(());
        }
        self.put(
            key,
            Writers {
                last: None,
                sealed: None,
            },
        )
    }

    /// Changes the writers of a key, where it has an entry.
    fn change_at(&mut self, key: Key, change: Change)
        ensures { (k : Key) → get self.new k.0 ≡ cond (same_key key k) (map_some (changed_by change) (get self.old k.0)) (get self.old k.0) }
    {
        let Some(writers) = self.keys.get_mut(&key.0) else {
            return;
        };
        *writers = change.of(*writers);
    }

    /// Changes the writers of each key that a run wrote. It takes no memory.
    pub fn change(&mut self, run: &HeldRun, change: Change)
        ensures { IsChanged change run.now.run.acts self.old self.new }
    {
        self.change_each(run.accesses(), change);
    }

    /// Changes the writers of each key that one of these accesses wrote, the oldest access first.
    fn change_each(&mut self, accesses: &[Granted], change: Change)
        ensures { IsChanged change (reverse accesses.now) self.old self.new }
    {
        for access in accesses {
            if let Some(row) = access.written_row() {
                self.change_at(row.key, change);
            }
        }
    }
}

/// Makes this sealed run the writer of the keys of these rows.
fn seal_rows(index: &mut Index, rows: &[Put], writer: Rival) -> Result<(), Memory>
    ensures { OnOk result (index.new ≡ with_rows_sealed writer rows.now index.old) }
{
    for row in rows {
        let writers = Writers {
            last: None,
            sealed: Some(writer),
        };
        index.put(row.key, writers)?;
    }
    Ok(())
}

/// The transactions in doubt as the sealed writers of the keys of their records.
pub fn writers_in_doubt(alloc: Global, doubtful: &[Kept]) -> Result<Index, Memory>
    ensures { IfOk result (λ index. index ≡ with_restored doubtful.now empty) }
{
    let mut index = Index::new(alloc);
    for kept in doubtful {
        let writer = Rival {
            tid: kept.tid,
            rank: kept.number,
        };
        seal_rows(&mut index, kept.writes.as_slice(), writer)?;
    }
    Ok(index)
}
