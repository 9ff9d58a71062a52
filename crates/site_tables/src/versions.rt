//! Look-ups and writes in the hash table of a site's rows.
ghost use Rattle.std.specs.Prelude.{◌≡◌, ◌+◌, ◌<◌, ◌≤◌, length, [], ◌∷◌, cond, IfOk, None, Some, nat_eq};
ghost use Rattle.std.specs.HashMap.{get, spare};
ghost use Rattle.mdb_base.specs.declared.names.Key.{Key};
ghost use Rattle.mdb_base.specs.Rising.{IsRising};
ghost use Rattle.mdb_base.specs.Rows.{HaveOwnKeys, value_in};
ghost use Rattle.site_tables.specs.Tables.{is_newer, value_of, row_of, written};

use mdb_base::{Key, Memory, Put};
use std::alloc::Global;
use std::collections::HashMap;

/// A value with the number of the write that gave it.
#[derive(Clone, Copy)]
pub struct Version {
    pub value: u64,
    pub number: u64,
}

/// The value of a key, or 0.
pub fn value(versions: &HashMap<u16, Version>, key: u16) -> u64
    ensures { result ≡ value_of (get nat_eq versions.now key) }
{
    match versions.get(&key) {
        Some(kept) => kept.value,
        None => 0,
    }
}

/// Whether a write of this number counts at the key.
fn is_newer(versions: &HashMap<u16, Version>, key: u16, number: u64) -> bool
    ensures { result ≡ is_newer number (get nat_eq versions.now key) }
{
    match versions.get(&key) {
        Some(kept) => kept.number < number,
        None => true,
    }
}

/// Writes one row, where the kept number of its key is smaller.
pub fn write(versions: &mut HashMap<u16, Version>, put: Put, number: u64)
    requires { 0 < spare versions.old }
    ensures written { (key : Key) → get nat_eq versions.new key.0 ≡ written number (value_in (put ∷ []) key) (get nat_eq versions.old key.0) }
    ensures room { spare versions.old ≤ spare versions.new + 1 }
{
    if is_newer(versions, put.key.0, number) {
        let version = Version {
            value: put.value,
            number,
        };
        let inserted: Result<_, _> = versions.insert(put.key.0, version);
        let _ = inserted.unwrap();
    }
}

/// Writes rows, each where the kept number of its key is smaller.
pub fn write_all(versions: &mut HashMap<u16, Version>, writes: &[Put], number: u64)
    requires { length writes.now ≤ spare versions.old }
    ensures written { (key : Key) → get nat_eq versions.new key.0 ≡ written number (value_in writes.now key) (get nat_eq versions.old key.0) }
    ensures room { spare versions.old ≤ spare versions.new + length writes.now }
{
    for put in writes {
        write(versions, *put, number);
    }
}

/// Writes one row by number 0, whatever its key has.
fn write_over(versions: &mut HashMap<u16, Version>, put: Put)
    requires { 0 < spare versions.old }
    ensures written { (key : Key) → get nat_eq versions.new key.0 ≡ cond (nat_eq put.key.0 key.0) (Some (record { value = put.value; number = 0 })) (get nat_eq versions.old key.0) }
    ensures room { spare versions.old ≤ spare versions.new + 1 }
{
    let version = Version {
        value: put.value,
        number: 0,
    };
    let inserted: Result<_, _> = versions.insert(put.key.0, version);
    let _ = inserted.unwrap();
}

/// Writes rows of which none is there, each by number 0. Their keys rise, so none is written twice, and nothing is looked up.
pub fn write_first(versions: &mut HashMap<u16, Version>, rows: &[Put])
    requires room { length rows.now ≤ spare versions.old }
    requires none { (key : Key) → get nat_eq versions.old key.0 ≡ None }
    requires rising { IsRising (λ put. put.key.0) rows.now }
    ensures { (key : Key) → get nat_eq versions.new key.0 ≡ written 0 (value_in rows.now key) None }
{
    for put in rows {
        write_over(versions, *put);
    }
}

/// The rows, in the order of the hash table.
pub fn all_rows(alloc: Global, versions: &HashMap<u16, Version>) -> Result<Vec<Put>, Memory>
    ensures rows { IfOk result (λ rows. (key : Key) → value_in rows.items key ≡ row_of (get nat_eq versions.now key.0)) }
    ensures keys { IfOk result (λ rows. HaveOwnKeys rows.items) }
{
    let mut rows = Vec::with_capacity(alloc, versions.len())?;
    for (key, kept) in versions {
        rows.push(Put {
            key: Key(*key),
            value: kept.value,
        })?;
    }
    Ok(rows)
}
