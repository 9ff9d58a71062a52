//! The list of each key's holders, in a hash map. A call finds the list of its key in a time that doesn't grow with the count of keys,
//! and a run's place in it by halving.
ghost use Rattle.std.specs.Prelude.{◌≡◌, not, is_some, None, IfOk, OnOk, OnErr};
ghost use Rattle.std.specs.FinMap.{get, insert, remove};
ghost use Rattle.locking_engine.specs.Holders.{place_of, held_by, IsOldestOther};
ghost use Rattle.locking_engine.specs.Lists.{AreInOrder, holders_in, list_of};

use crate::by_age;
use mdb_base::{Key, Memory};
use run_book::Rival;
use std::alloc::Global;
use std::collections::HashMap;

/// The holders of each key, by rising age. A key that somebody has held keeps its list.
pub(crate) type Lists = HashMap<u16, Vec<Rival>>;

/// The oldest holder of the key but for the one of this age.
pub(crate) fn oldest_other(lists: &Lists, key: Key, age: u64) -> Option<Rival>
    requires { AreInOrder lists.now.entries }
    ensures { IsOldestOther (holders_in lists.now.entries) key age result }
{
    match lists.get(&key.0) {
        Some(holders) => by_age::oldest_other(holders.as_slice(), age),
        None => None,
    }
}

/// Begins the list of a key that has none with this run.
fn begin(alloc: Global, lists: &mut Lists, key: Key, run: Rival) -> Result<(), Memory>
    requires order { AreInOrder lists.old.entries }
    requires none { list_of lists.old.entries key.0 ≡ None }
    ensures order { AreInOrder lists.new.entries }
    ensures held { OnOk result (holders_in lists.new.entries ≡ insert (holders_in lists.old.entries) (place_of key run.rank) run.tid) }
    ensures memory { OnErr result (holders_in lists.new.entries ≡ holders_in lists.old.entries) }
{
    let mut holders = Vec::new(alloc);
    holders.push(run)?;
    lists.insert(key.0, holders)?;
    Ok(())
}

/// Makes a run a holder of the key, and answers whether nobody of its age was one before.
pub(crate) fn hold(alloc: Global, lists: &mut Lists, key: Key, run: Rival) -> Result<bool, Memory>
    requires { AreInOrder lists.old.entries }
    ensures order { AreInOrder lists.new.entries }
    ensures held { OnOk result (holders_in lists.new.entries ≡ held_by (place_of key run.rank) run.tid (holders_in lists.old.entries)) }
    ensures fresh { IfOk result (λ fresh. fresh ≡ not (is_some (get (holders_in lists.old.entries) (place_of key run.rank)))) }
    ensures memory { OnErr result (holders_in lists.new.entries ≡ holders_in lists.old.entries) }
{
    if let Some(holders) = lists.get_mut(&key.0) {
        return by_age::enter(holders, run);
    }
    begin(alloc, lists, key, run)?;
    Ok(true)
}

/// Nobody of this age holds the key any more.
pub(crate) fn let_go(lists: &mut Lists, key: Key, age: u64)
    requires { AreInOrder lists.old.entries }
    ensures order { AreInOrder lists.new.entries }
    ensures gone { holders_in lists.new.entries ≡ remove (holders_in lists.old.entries) (place_of key age) }
{
    if let Some(holders) = lists.get_mut(&key.0) {
        by_age::leave(holders, age);
    }
}
