//! The attempts by their names, in order of submission.
ghost use Rattle.std.specs.Prelude.{◌≡◌, ◌<◌, Some, None, [], ◌∷◌, ◌++◌, length, slice_get, OnOk, OnErr, option_copied};
ghost use Rattle.indexmap.specs.IndexMap.{values};
ghost use Rattle.global_exec.specs.Entries.{AreNamed, name_of};
ghost use Rattle.global_exec.specs.Firsts.{taken_out};
ghost use Rattle.global_exec.specs.Live.{is_of, live_of};

use crate::attempt::Attempt;
use indexmap::IndexMap;
use mdb_base::{Memory, Tid};

/// An attempt as a key: the number of its transaction, and its own.
#[derive(Clone, Copy, Debug, PartialEq, Eq, Hash)]
pub struct Name {
    tx: u32,
    attempt: u8,
}

impl Name {
    pub fn of(tid: Tid) -> Name
        ensures { result ≡ name_of tid }
    {
        Name {
            tx: tid.tx.0,
            attempt: tid.attempt,
        }
    }
}

/// The attempts of a table.
pub type Entries = IndexMap<Name, Attempt>;

/// Adds an attempt that isn't there, as the last one.
pub fn add(entries: &mut Entries, attempt: Attempt) -> Result<(), Memory>
    requires named { AreNamed entries.old.entries }
    requires apart { live_of attempt.tid (values entries.old) ≡ None }
    ensures listed { OnOk result (values entries.new ≡ values entries.old ++ attempt ∷ []) }
    ensures named { AreNamed entries.new.entries }
    ensures kept { OnErr result (entries.new.entries ≡ entries.old.entries) }
{
    entries.insert(Name::of(attempt.tid()), attempt)?;
    Ok(())
}

/// The attempt of this name.
pub fn find(entries: &Entries, tid: Tid) -> Option<&Attempt>
    requires { AreNamed entries.now.entries }
    ensures { option_copied result ≡ live_of tid (values entries.now) }
{
    entries.get(&Name::of(tid))
}

/// The attempt at this place.
pub fn at(entries: &Entries, place: usize) -> &Attempt
    requires { place < length (values entries.now) }
    ensures { slice_get (values entries.now) place ≡ Some result.now }
{
    match entries.get_index(place) {
        Some((_, attempt)) => attempt,
        None => unreachable!(),
    }
}

/// Takes the attempt of this name out.
pub fn take_out(entries: &mut Entries, tid: Tid)
    requires named { AreNamed entries.old.entries }
    ensures attempts { values entries.new ≡ taken_out (is_of tid) (values entries.old) }
    ensures named { AreNamed entries.new.entries }
{
    let _ = entries.shift_remove(&Name::of(tid));
}
