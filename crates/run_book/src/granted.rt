//! A granted access.
ghost use Rattle.std.specs.Prelude.{◌≡◌, ◌+◌, ◌≤◌, IfOk, reverse};
ghost use Rattle.std.specs.List.{list_any};
ghost use Rattle.fed_rules.specs.Runs.{Got, Wrote, written};
ghost use Rattle.fed_rules.specs.Replies.{writes, reads, access_key};
ghost use Rattle.run_book.specs.Held.{access_value, written_row, own_write};
ghost use Rattle.run_book.specs.Tables.{writes_in, with_writes};

use mdb_base::{Key, Memory, Put};
use site_tables::Tables;
use std::alloc::Global;
use std::marker::Model;

/// A granted access: the key, with the value that was read or written.
#[derive(Drop)]
pub struct Granted {
    key: Key,
    value: u64,
    is_write: bool,
}

impl Model for Granted {
    ghost use Rattle.std.specs.Prelude.{cond};
    ghost use Rattle.fed_rules.specs.Runs.{Access, Got, Wrote};

    ghost Value = { Access };

    ghost view = { λ g. cond g.is_write (Wrote g.key g.value) (Got g.key g.value) };
}

impl Granted {
    /// A read of this value.
    pub fn read(key: Key, value: u64) -> Self
        ensures { result ≡ Got key value }
    {
        Granted {
            key,
            value,
            is_write: false,
        }
    }

    /// A write of this value.
    pub fn write(key: Key, value: u64) -> Self
        ensures { result ≡ Wrote key value }
    {
        Granted {
            key,
            value,
            is_write: true,
        }
    }

    /// The key that was read or written.
    pub fn key(&self) -> Key
        ensures { result ≡ access_key self.now }
    {
        self.key
    }

    /// The value that was read or written.
    pub fn value(&self) -> u64
        ensures { result ≡ access_value self.now }
    {
        self.value
    }

    /// The row that it leaves, where it is a write.
    pub fn written_row(&self) -> Option<Put>
        ensures { result ≡ written_row self.now }
    {
        if self.is_write {
            Some(Put {
                key: self.key,
                value: self.value,
            })
        } else {
            None
        }
    }

    /// Whether it is a read of the key.
    pub fn reads(&self, key: Key) -> bool
        ensures { result ≡ reads key self.now }
    {
        !self.is_write && self.key.0 == key.0
    }

    /// Whether it is a write of the key.
    pub fn writes(&self, key: Key) -> bool
        ensures { result ≡ writes key self.now }
    {
        self.is_write && self.key.0 == key.0
    }
}

/// Whether some access is a read of the key.
pub(crate) fn any_reads(accesses: &[Granted], key: Key) -> bool
    ensures { result ≡ list_any (reads key) accesses.now }
{
    accesses.iter().any(|access| access.reads(key))
}

/// Whether some access is a write of the key.
pub(crate) fn any_writes(accesses: &[Granted], key: Key) -> bool
    ensures { result ≡ list_any (writes key) accesses.now }
{
    accesses.iter().any(|access| access.writes(key))
}

/// The value of the last write of the key, the oldest access first.
pub(crate) fn last_write(accesses: &[Granted], key: Key) -> Option<u64>
    ensures { result ≡ own_write key (reverse accesses.now) }
{
    let mut last = None;
    for access in accesses {
        if access.writes(key) {
            last = Some(access.value());
        }
    }
    last
}

/// These rows as granted writes, the last row first.
pub(crate) fn granted_writes(alloc: Global, rows: &[Put]) -> Result<Vec<Granted>, Memory>
    ensures { IfOk result (λ writes. reverse writes.items ≡ written rows.now) }
{
    let mut writes = Vec::new(alloc);
    let count = rows.len();
    for done in 0..count {
        let row = rows[count - 1 - done];
        writes.reserve(1)?;
        writes.push_reserved(Granted::write(row.key, row.value));
    }
    Ok(writes)
}

/// How many of these accesses are writes.
pub(crate) fn count_writes(accesses: &[Granted]) -> usize
    ensures { result ≡ writes_in (reverse accesses.now) }
{
    let mut count = 0;
    for access in accesses {
        if access.written_row().is_some() {
            count += 1;
        }
    }
    count
}

/// Writes these accesses to the table by this number, the oldest access first in the list. The newest one goes first, since of
/// two writes by one number the table keeps the first.
pub(crate) fn install_writes(accesses: &[Granted], number: u64, tables: &mut Tables)
    requires { writes_in (reverse accesses.now) ≤ tables.old.spare }
    ensures written { tables.new.versions ≡ with_writes number (reverse accesses.now) tables.old.versions }
    ensures room { tables.old.spare ≤ tables.new.spare + writes_in (reverse accesses.now) }
{
    let count = accesses.len();
    for done in 0..count {
        if let Some(row) = accesses[count - 1 - done].written_row() {
            tables.install_row(row, number);
        }
    }
}
