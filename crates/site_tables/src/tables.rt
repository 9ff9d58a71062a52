//! The table and its calls.
ghost use Rattle.std.specs.Prelude.{◌≡◌, ◌+◌, ◌<◌, ◌≤◌, length, IfOk, OnOk, None};
ghost use Rattle.std.specs.FinMap as map;
ghost use Rattle.mdb_base.specs.declared.names.Key.{Key};
ghost use Rattle.mdb_base.specs.Rising.{IsRising};
ghost use Rattle.mdb_base.specs.Rows.{value_in};
ghost use Rattle.site_tables.specs.Numbers.{number_of};
ghost use Rattle.site_tables.specs.Tables.{value_of, row_of, with_row, written};

use crate::numbers::number;
use crate::versions::{self, Version};
use mdb_base::{Key, Memory, Put, Puts, sort_rows};
use std::alloc::Global;
use std::collections::HashMap;
use std::marker::Model;

/// The rows of a site, seen as a finite map from keys to values, each with the number of its last writer, and as the number of
/// further keys for which there is room.
#[derive(Drop)]
pub struct Tables {
    versions: HashMap<u16, Version>,
}

impl Model for Tables {
    ghost use Rattle.std.specs.HashMap.{spare};
    ghost use Rattle.std.specs.FinMap.{from_entries};
    ghost use Rattle.site_tables.specs.Tables.{Table, table_code};

    ghost Value = { Table };

    ghost coded = { table_code };

    ghost view = { λ t. record { versions = from_entries t.versions.entries; spare = spare t.versions } };
}

impl Tables {
    /// The table of these rows, each written by number 0.
    pub fn new(alloc: Global, items: &Puts) -> Result<Tables, Memory>
        ensures written { IfOk result (λ t. (key : Key) → map.get t.versions key.0 ≡ written 0 (value_in items.now key) None) }
        ensures rising { OnOk result (IsRising (λ put. put.key.0) items.now) }
    {
        let mut versions = HashMap::with_capacity(alloc, items.len())?;
        versions::write_first(&mut versions, items.as_slice());
        Ok(Tables { versions })
    }

    /// The value of a key; an absent key reads 0.
    pub fn get(&self, key: Key) -> u64
        ensures { result ≡ value_of (map.get self.now.versions key.0) }
    {
        versions::value(&self.versions, key.0)
    }

    /// The number of a key's last writer; that of an absent key is 0.
    pub fn number(&self, key: Key) -> u64
        ensures { result ≡ number_of (map.get self.now.versions key.0) }
    {
        number(&self.versions, key.0)
    }

    /// Makes room for so many further keys. The table keeps its allocator.
    pub fn reserve(&mut self, _alloc: Global, more: usize) -> Result<(), Memory>
        ensures room { OnOk result (more ≤ self.new.spare) }
        ensures kept_room { self.old.spare ≤ self.new.spare }
        ensures same { self.new.versions ≡ self.old.versions }
    {
        self.versions.reserve(more)?;
        Ok(())
    }

    /// Writes these rows by this number: a key whose kept number isn't smaller keeps what it has.
    pub fn install(&mut self, writes: &Puts, number: u64)
        requires { length writes.now ≤ self.old.spare }
        ensures written { (key : Key) → map.get self.new.versions key.0 ≡ written number (value_in writes.now key) (map.get self.old.versions key.0) }
        ensures room { self.old.spare ≤ self.new.spare + length writes.now }
    {
        versions::write_all(&mut self.versions, writes.as_slice(), number);
    }

    /// Writes one row by this number: where the kept number of its key isn't smaller, nothing changes.
    pub fn install_row(&mut self, put: Put, number: u64)
        requires { 0 < self.old.spare }
        ensures written { self.new.versions ≡ with_row number put self.old.versions }
        ensures room { self.old.spare ≤ self.new.spare + 1 }
    {
        versions::write(&mut self.versions, put, number);
    }

    /// The rows by rising key.
    pub fn rows(&self, alloc: Global) -> Result<Puts, Memory>
        ensures rows { IfOk result (λ rows. (key : Key) → value_in rows key ≡ row_of (map.get self.now.versions key.0)) }
        ensures rising { IfOk result (IsRising (λ put. put.key.0)) }
    {
        Ok(sort_rows(versions::all_rows(alloc, &self.versions)?))
    }
}
