//! Keys with numbers: which one holds a key, and the greatest one that wrote it.
ghost use Rattle.std.specs.Prelude.{◌≡◌, OnOk, None, Some, cond};
ghost use Rattle.std.specs.BTreeMap.{get};
ghost use Rattle.mdb_base.specs.declared.names.Key.{Key};
ghost use Rattle.fed_rules.specs.EngineLines.{has_row};
ghost use Rattle.journal_sums.specs.Versions.{key_cmp};
ghost use Rattle.usable_journals.specs.SiteTests.{greater_of};

use mdb_base::{Key, Memory, Put};
use std::collections::BTreeMap;

/// The keys that are written get this number.
pub(crate) fn hold(keys: &mut BTreeMap<Key, u64>, writes: &[Put], number: u64) -> Result<(), Memory>
    ensures { OnOk result ((key : Key) → get key_cmp keys.new key ≡ cond (has_row key writes.now) (Some number) (get key_cmp keys.old key)) }
{
    for put in writes {
        keys.insert(put.key, number)?;
    }
    Ok(())
}

/// The keys that are written have no number any more.
pub(crate) fn free(keys: &mut BTreeMap<Key, u64>, writes: &[Put])
    ensures { (key : Key) → get key_cmp keys.new key ≡ cond (has_row key writes.now) None (get key_cmp keys.old key) }
{
    for put in writes {
        keys.remove(&put.key);
    }
}

/// The greater one of this number and that of the key.
fn greater(keys: &BTreeMap<Key, u64>, key: Key, number: u64) -> u64
    ensures { result ≡ greater_of (get key_cmp keys.now key) number }
{
    match keys.get(&key) {
        Some(last) => number.max(*last),
        None => number,
    }
}

/// The keys that are written get this number, unless they have a greater one.
pub(crate) fn raise(
    keys: &mut BTreeMap<Key, u64>,
    writes: &[Put],
    number: u64,
) -> Result<(), Memory>
    ensures { OnOk result ((key : Key) → get key_cmp keys.new key
        ≡ cond (has_row key writes.now) (Some (greater_of (get key_cmp keys.old key) number)) (get key_cmp keys.old key)) }
{
    for put in writes {
        let last = greater(keys, put.key, number);
        keys.insert(put.key, last)?;
    }
    Ok(())
}
