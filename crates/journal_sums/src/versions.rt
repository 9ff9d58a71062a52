//! The rows of a site, each with the serial number that wrote it.
ghost use Rattle.std.specs.Prelude.{◌≡◌, IfOk, OnOk, [], ◌∷◌};
ghost use Rattle.std.specs.BTreeMap.{get};
ghost use Rattle.mdb_base.specs.declared.names.Key.{Key};
ghost use Rattle.mdb_base.specs.Rising.{IsRising};
ghost use Rattle.mdb_base.specs.Rows.{value_in, with_rows};
ghost use Rattle.journal_sums.specs.Versions.{is_kept_from, kept, first_version, key_cmp, row_of, version_after};

use mdb_base::{Key, Memory, Put, Puts};
use std::alloc::Global;
use std::collections::BTreeMap;

/// A value with the serial number of the transaction that wrote it.
#[derive(Clone, Copy, Drop)]
pub(crate) struct Version {
    pub number: u64,
    pub value: u64,
}

/// The rows that were there before all transactions, each written by number 0, and what was written later.
#[derive(Drop)]
pub(crate) struct Versions {
    pub first: Puts,
    pub later: BTreeMap<Key, Version>,
}

/// Rows that were there before all transactions.
pub(crate) fn first_versions(alloc: Global, rows: &Puts) -> Result<Versions, Memory>
    ensures versions { IfOk result (λ versions. (key : Key) → kept versions key ≡ first_version (value_in rows.now key)) }
    ensures rising { IfOk result (λ versions. IsRising (λ put. put.key.0) rows.now) }
{
    Ok(Versions {
        first: Puts::of(Vec::from_slice(alloc, rows.as_slice())?),
        later: BTreeMap::new(alloc),
    })
}

/// Installs the writes of the newest transaction, which has this number: a key that is kept by a greater number keeps what it has.
pub(crate) fn install(versions: &mut Versions, writes: &Puts, number: u64) -> Result<(), Memory>
    ensures versions { OnOk result ((key : Key) → kept versions.new key ≡ version_after number (value_in writes.now key) (kept versions.old key)) }
    ensures rising { OnOk result (IsRising (λ put. put.key.0) writes.now) }
{
    install_all(&mut versions.later, writes.as_slice(), number)
}

/// Installs these writes.
fn install_all(
    later: &mut BTreeMap<Key, Version>,
    writes: &[Put],
    number: u64,
) -> Result<(), Memory>
    requires { IsRising (λ put. put.key.0) writes.now }
    ensures { OnOk result ((key : Key) → get key_cmp later.new key ≡ version_after number (value_in writes.now key) (get key_cmp later.old key)) }
{
    for put in writes {
        install_row(later, *put, number)?;
    }
    Ok(())
}

/// Whether the key is kept by a greater number.
fn is_kept(later: &BTreeMap<Key, Version>, key: Key, number: u64) -> bool
    ensures { result ≡ is_kept_from number (get key_cmp later.now key) }
{
    match later.get(&key) {
        Some(kept) => number < kept.number,
        None => false,
    }
}

/// Installs one write.
fn install_row(later: &mut BTreeMap<Key, Version>, put: Put, number: u64) -> Result<(), Memory>
    ensures { OnOk result ((key : Key) → get key_cmp later.new key ≡ version_after number (value_in (put ∷ []) key) (get key_cmp later.old key)) }
{
    if !is_kept(later, put.key, number) {
        let version = Version {
            number,
            value: put.value,
        };
        later.insert(put.key, version)?;
    }
    Ok(())
}

/// The rows by rising key.
pub(crate) fn rows_of(alloc: Global, versions: &Versions) -> Result<Puts, Memory>
    ensures rows { IfOk result (λ rows. (key : Key) → value_in rows key ≡ row_of (kept versions.now key)) }
    ensures rising { IfOk result (IsRising (λ put. put.key.0)) }
{
    let later = later_rows(alloc, &versions.later)?;
    merge(alloc, versions.first.as_slice(), later.as_slice())
}

/// The rows that were written later, by rising key.
fn later_rows(alloc: Global, later: &BTreeMap<Key, Version>) -> Result<Puts, Memory>
    ensures rows { IfOk result (λ rows. (key : Key) → value_in rows key ≡ row_of (get key_cmp later.now key)) }
    ensures rising { IfOk result (IsRising (λ put. put.key.0)) }
{
    let mut rows = Vec::with_capacity(alloc, later.len())?;
    for (key, version) in later {
        rows.push(Put {
            key: *key,
            value: version.value,
        })?;
    }
    Ok(Puts::of(rows))
}

/// Two lists of rows in one: of two rows with the same key the later one counts.
fn merge(alloc: Global, first: &[Put], later: &[Put]) -> Result<Puts, Memory>
    requires first { IsRising (λ put. put.key.0) first.now }
    requires later { IsRising (λ put. put.key.0) later.now }
    ensures { IfOk result (λ rows. rows ≡ with_rows later.now first.now) }
{
    let mut rows = Vec::with_capacity(alloc, first.len())?;
    let mut left = first;
    let mut right = later;
    while !left.is_empty() && !right.is_empty() {
        let row = left[0];
        let newer = right[0];
        if row.key.0 < newer.key.0 {
            rows.push(row)?;
            left = &left[1..];
        } else if newer.key.0 < row.key.0 {
            rows.push(newer)?;
            right = &right[1..];
        } else {
            rows.push(newer)?;
            left = &left[1..];
            right = &right[1..];
        }
    }
    rows.extend_from_slice(left)?;
    rows.extend_from_slice(right)?;
    Ok(Puts::of(rows))
}
