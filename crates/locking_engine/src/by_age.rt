//! The holders of one key by rising age. No two of them are of one age.
ghost use Rattle.std.specs.Prelude.{◌≡◌, ◌≤◌, not, is_some, length, IfOk, OnOk, OnErr};
ghost use Rattle.locking_engine.specs.ByAge.{IsByAge, count_older, of_age, with_run, without_age, first_other};

use mdb_base::Memory;
use run_book::Rival;

/// How many of these are older than this age, which is the place for it.
fn place_for(holders: &[Rival], age: u64) -> usize
    requires { IsByAge holders.now }
    ensures within { result ≤ length holders.now }
    ensures count { result ≡ count_older age holders.now }
{
    holders.partition_point(|holder| holder.rank < age)
}

/// Whether a run of this age stands at the place for it.
fn stands_at(holders: &[Rival], place: usize, age: u64) -> bool
    requires order { IsByAge holders.now }
    requires count { place ≡ count_older age holders.now }
    ensures { result ≡ is_some (of_age age holders.now) }
{
    match holders.get(place) {
        Some(holder) => holder.rank == age,
        None => false,
    }
}

/// The oldest of these but for the one of this age. It looks at two at most.
pub(crate) fn oldest_other(holders: &[Rival], age: u64) -> Option<Rival>
    ensures { result ≡ first_other age holders.now }
{
    for holder in holders {
        if holder.rank != age {
            return Some(*holder);
        }
    }
    None
}

/// Puts a run into its place, where none of its age stands there, and answers whether it did.
pub(crate) fn enter(holders: &mut Vec<Rival>, run: Rival) -> Result<bool, Memory>
    requires { IsByAge holders.old.items }
    ensures items { OnOk result (holders.new.items ≡ with_run run holders.old.items) }
    ensures order { IsByAge holders.new.items }
    ensures fresh { IfOk result (λ fresh. fresh ≡ not (is_some (of_age run.rank holders.old.items))) }
    ensures memory { OnErr result (holders.new.items ≡ holders.old.items) }
{
    let held = holders.as_slice();
    let place = place_for(held, run.rank);
    if stands_at(held, place, run.rank) {
        return Ok(false);
    }
    holders.insert(place, run)?;
    Ok(true)
}

/// Takes the run of this age out, where there is one.
pub(crate) fn leave(holders: &mut Vec<Rival>, age: u64)
    requires { IsByAge holders.old.items }
    ensures { holders.new.items ≡ without_age age holders.old.items }
{
    let held = holders.as_slice();
    let place = place_for(held, age);
    if stands_at(held, place, age) {
        let _ = holders.remove(place);
    }
}
