//! The rows of all sites.
ghost use Rattle.std.specs.Prelude.{◌≡◌, ◌+◌, ◌≤◌, ◌<◌, cond, Some, ◌&&◌, IfOk, OnOk, OnErr};
ghost use Rattle.std.specs.HashMap.{spare};
ghost use Rattle.mdb_base.specs.declared.names.Key.{Key};
ghost use Rattle.mdb_base.specs.declared.names.SiteId.{SiteId};
ghost use Rattle.mdb_base.specs.Rising.{IsRising};
ghost use Rattle.mdb_base.specs.Rows.{HaveOwnKeys, value_in};
ghost use Rattle.mdb_base.specs.Names.{same_site, same_key};
ghost use Rattle.serial_machine.specs.AllTables.{value_at, value_there, tables_of, first_of, given_value, SameRows};

use mdb_base::{Key, Memory, Put, Puts, SiteId, SiteRows, sort_rows};
use std::alloc::Global;
use std::collections::HashMap;

/// The rows of all sites, by site and key.
#[derive(Drop)]
pub struct AllTables {
    values: HashMap<(u8, u16), u64>,
}

impl AllTables {
    /// The tables of these rows, given site by site.
    pub fn new(alloc: Global, sites: &[SiteRows]) -> Result<AllTables, Memory>
        ensures { IfOk result (λ tables. (site : SiteId) (key : Key) → value_at tables site key ≡ given_value sites.now site key) }
    {
        let mut tables = AllTables {
            values: HashMap::new(alloc),
        };
        let count = sites.len();
        for done in 0..count {
            let first = &sites[count - 1 - done];
            tables.put_all(first.site, first.rows.as_slice())?;
        }
        Ok(tables)
    }

    /// Writes rows of a site; the first one of a key stays.
    fn put_all(&mut self, site: SiteId, rows: &[Put]) -> Result<(), Memory>
        ensures { OnOk result ((s : SiteId) (key : Key) → value_at self.new s key ≡ first_of (value_there site rows.now s key) (value_at self.old s key)) }
    {
        let count = rows.len();
        self.reserve(count)?;
        for done in 0..count {
            self.put(site, rows[count - 1 - done]);
        }
        Ok(())
    }

    /// The rows of a site, in the order of the map.
    fn rows_at(&self, alloc: Global, site: SiteId) -> Result<Vec<Put>, Memory>
        ensures values { IfOk result (λ rows. (key : Key) → value_in rows.items key ≡ value_at self.now site key) }
        ensures keys { IfOk result (λ rows. HaveOwnKeys rows.items) }
    {
        let mut rows = Vec::with_capacity(alloc, self.values.len())?;
        for (place, value) in &self.values {
            if place.0 == site.0 {
                rows.push(Put {
                    key: Key(place.1),
                    value: *value,
                })?;
            }
        }
        Ok(rows)
    }

    /// The rows of a site by rising key.
    pub fn rows(&self, alloc: Global, site: SiteId) -> Result<Puts, Memory>
        ensures values { IfOk result (λ rows. (key : Key) → value_in rows key ≡ value_at self.now site key) }
        ensures rising { IfOk result (IsRising (λ row. row.key.0)) }
    {
        Ok(sort_rows(self.rows_at(alloc, site)?))
    }

    /// The value of a key at a site; an absent key reads 0.
    pub(crate) fn get(&self, site: SiteId, key: Key) -> u64
        ensures { result ≡ tables_of self.now site key }
    {
        match self.values.get(&(site.0, key.0)) {
            Some(value) => *value,
            None => 0,
        }
    }

    /// Writes one row, for which there is room.
    pub(crate) fn put(&mut self, site: SiteId, row: Put)
        requires { 0 < spare self.old.values }
        ensures written { (s : SiteId) (k : Key) → value_at self.new s k ≡ cond (same_site site s && same_key row.key k) (Some row.value) (value_at self.old s k) }
        ensures room { spare self.old.values ≤ spare self.new.values + 1 }
    {
        let inserted: Result<_, _> = self.values.insert((site.0, row.key.0), row.value);
        let _ = inserted.unwrap();
    }

    /// Makes room for so many further rows.
    pub(crate) fn reserve(&mut self, more: usize) -> Result<(), Memory>
        ensures room { OnOk result (more ≤ spare self.new.values) }
        ensures same { SameRows self.old self.new }
    {
        self.values.reserve(more)?;
        Ok(())
    }
}
