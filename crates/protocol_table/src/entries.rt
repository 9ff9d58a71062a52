//! The attempts by their names, in order of submission.
ghost use Rattle.std.specs.Prelude.{◌≡◌, None, [], ◌∷◌, ◌++◌, map, OnOk, OnErr, option_copied};
ghost use Rattle.indexmap.specs.IndexMap.{values};
ghost use Rattle.protocol_table.specs.Attempts.{known_of, without, submitted};
ghost use Rattle.protocol_table.specs.Entries.{AreNamed, HaveOwnNames, name_of};

use crate::known::Known;
use indexmap::IndexMap;
use mdb_base::{Memory, Tid};

/// An attempt as a key: the number of its transaction, and its own.
#[derive(Clone, Copy, Debug, PartialEq, Eq, Hash)]
pub struct Name {
    tx: u32,
    attempt: u8,
}

impl Name {
    pub fn of(tid: Tid) -> Name
        ensures { result ≡ name_of tid }
    {
        Name {
            tx: tid.tx.0,
            attempt: tid.attempt,
        }
    }
}

/// The attempts of a table.
pub type Entries = IndexMap<Name, Known>;

/// Adds an attempt that isn't there, as the last one.
pub fn add(entries: &mut Entries, known: Known) -> Result<(), Memory>
    requires named { AreNamed entries.old.entries }
    requires apart { known_of known.tid (values entries.old) ≡ None }
    ensures listed { OnOk result (values entries.new ≡ values entries.old ++ known ∷ []) }
    ensures named { AreNamed entries.new.entries }
    ensures kept { OnErr result (entries.new.entries ≡ entries.old.entries) }
{
    entries.insert(Name::of(known.tid), known)?;
    Ok(())
}

/// The attempt of this name.
pub fn find(entries: &Entries, tid: Tid) -> Option<&Known>
    requires { AreNamed entries.now.entries }
    ensures { option_copied result ≡ known_of tid (values entries.now) }
{
    entries.get(&Name::of(tid))
}

/// Takes the attempt of this name out.
pub fn take_out(entries: &mut Entries, tid: Tid)
    requires named { AreNamed entries.old.entries }
    requires apart { HaveOwnNames entries.old.entries }
    ensures attempts { values entries.new ≡ without tid (values entries.old) }
    ensures named { AreNamed entries.new.entries }
{
    let _ = entries.shift_remove(&Name::of(tid));
}
