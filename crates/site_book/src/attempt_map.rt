//! How far each attempt is, in a hash map by attempt: a look-up takes a time that doesn't grow with their count. The live ones are
//! listed by a walk over all of them and a sort.
ghost use Rattle.std.specs.Prelude.{◌≡◌, ◌<◌, OnOk, OnErr, IfOk, IsSome, IfSome};
ghost use Rattle.std.specs.Option.{option_copied};
ghost use Rattle.std.specs.FinMap.{empty, get, insert, remove};
ghost use Rattle.std.specs.List.{IsDistinct};
ghost use Rattle.std.specs.Map.{keys_of};
ghost use Rattle.site_book.specs.Listing.{Lists, is_live_in, live_keys};
ghost use Rattle.site_book.specs.Book.{changed_in, live_part, on_live, replied, taken, with_doubtful};
ghost use Rattle.site_book.specs.Named.{by_tid, kept_in, name_of, same_name, tid_of};

use crate::progress::Progress;
use mdb_base::{Memory, PlainAct, Reply, Tid, Tx};
use std::alloc::Global;
use std::collections::HashMap;

/// An attempt as a key: the number of its transaction, and its own.
#[derive(Clone, Copy, Debug, PartialEq, Eq, Hash)]
pub struct Name {
    tx: u32,
    attempt: u8,
}

impl Name {
    /// The key of an attempt.
    fn of(tid: Tid) -> Name
        ensures { result ≡ name_of tid }
    {
        Name {
            tx: tid.tx.0,
            attempt: tid.attempt,
        }
    }

    /// The attempt of a key.
    fn tid(self) -> Tid
        ensures { result ≡ tid_of self }
    {
        Tid {
            tx: Tx(self.tx),
            attempt: self.attempt,
        }
    }
}

/// How far each attempt is.
pub(crate) type Attempts = HashMap<Name, Progress>;

/// How far the attempt is, where it has an entry.
pub(crate) fn find(attempts: &Attempts, tid: Tid) -> Option<&Progress>
    ensures { option_copied result ≡ get (kept_in attempts.now.entries) tid }
{
    attempts.get(&Name::of(tid))
}

/// The live attempts, in the order of the hash map.
fn all_live(attempts: &Attempts, alloc: Global) -> Result<Vec<Tid>, Memory>
    ensures tids { IfOk result (λ tids. tids.items ≡ live_keys (by_tid attempts.now.entries)) }
    ensures apart { OnOk result (IsDistinct same_name (keys_of attempts.now.entries)) }
{
    let mut tids = Vec::new(alloc);
    for (name, progress) in attempts.iter() {
        if let Progress::Live(_) = progress {
            tids.push(name.tid())?;
        }
    }
    Ok(tids)
}

/// The live attempts, by rising attempt.
pub(crate) fn live_tids(attempts: &Attempts, alloc: Global) -> Result<Vec<Tid>, Memory>
    ensures { IfOk result (λ tids. Lists (is_live_in (kept_in attempts.now.entries)) tids.items) }
{
    let mut tids = all_live(attempts, alloc)?;
    tids.sort_unstable();
    Ok(tids)
}

/// Puts an entry under its attempt.
pub(crate) fn put(attempts: &mut Attempts, tid: Tid, progress: Progress) -> Result<(), Memory>
    ensures put { OnOk result (kept_in attempts.new.entries ≡ insert (kept_in attempts.old.entries) tid progress) }
    ensures memory { OnErr result (attempts.new.entries ≡ attempts.old.entries) }
{
    attempts.insert(Name::of(tid), progress)?;
    Ok(())
}

/// Takes the entry of the attempt out.
pub(crate) fn take_out(attempts: &mut Attempts, tid: Tid)
    ensures { kept_in attempts.new.entries ≡ remove (kept_in attempts.old.entries) tid }
{
    attempts.remove(&Name::of(tid));
}

/// Puts this in place of the entry of the attempt.
pub(crate) fn set(attempts: &mut Attempts, tid: Tid, progress: Progress)
    requires { IsSome (get (kept_in attempts.old.entries) tid) }
    ensures { kept_in attempts.new.entries ≡ insert (kept_in attempts.old.entries) tid progress }
{
    *attempts.get_mut(&Name::of(tid)).unwrap() = progress;
}

/// Notes the reply to an access, where the attempt is live.
pub(crate) fn note_reply(attempts: &mut Attempts, tid: Tid, act: PlainAct, reply: Reply)
    requires { IfSome (live_part (get (kept_in attempts.old.entries) tid)) (λ noted. noted.accesses < 32) }
    ensures { kept_in attempts.new.entries ≡ changed_in tid (on_live (replied reply act)) (kept_in attempts.old.entries) }
{
    if let Some(progress) = attempts.get_mut(&Name::of(tid)) {
        progress.note_reply(act, reply);
    }
}

/// Notes the reply to the taking of the ticket, where the attempt is live.
pub(crate) fn note_take(attempts: &mut Attempts, tid: Tid, reply: Reply)
    ensures { kept_in attempts.new.entries ≡ changed_in tid (on_live (taken reply)) (kept_in attempts.old.entries) }
{
    if let Some(progress) = attempts.get_mut(&Name::of(tid)) {
        progress.note_take(reply);
    }
}

/// The entries of these attempts, which are sealed.
pub(crate) fn sealed(alloc: Global, doubtful: &[Tid]) -> Result<Attempts, Memory>
    ensures { IfOk result (λ attempts. kept_in attempts.entries ≡ with_doubtful doubtful.now empty) }
{
    let mut attempts = HashMap::new(alloc);
    for tid in doubtful {
        put(&mut attempts, *tid, Progress::Sealed)?;
    }
    Ok(attempts)
}
