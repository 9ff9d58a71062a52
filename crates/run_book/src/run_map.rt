//! The unended runs by attempt. Each call takes time by the length of a run where it looks through its accesses, and beside that the time of
//! a look-up, which doesn't grow with their count.
ghost use Rattle.std.specs.Prelude.{◌≡◌, ◌+◌, None, IfOk, OnOk, OnErr, IsSome, IfSome};
ghost use Rattle.std.specs.Option.{option_copied};
ghost use Rattle.std.specs.FinMap.{empty, from_entries};
ghost use Rattle.mdb_base.specs.Words.{map_some, or_else};
ghost use Rattle.run_book.specs.Held.{held_in, with_run, without};
ghost use Rattle.run_book.specs.Book.{granted_to, with_ticket, sealed_with, not_sealed, with_restored};
ghost use Rattle.run_book.specs.Changes.{changed_entries};
ghost use Rattle.run_book.specs.Named.{by_tid, name_of};
ghost use Rattle.run_book.specs.Tables.{promised as promised_of_all, promised_by};

use crate::counters::Counters;
use crate::granted::Granted;
use crate::held_run::HeldRun;
use fed_rules::Kept;
use mdb_base::{Memory, Tid};
use std::alloc::Global;
use std::collections::HashMap;

/// An attempt as a key: the number of its transaction, and its own.
#[derive(Clone, Copy, Debug, PartialEq, Eq, Hash)]
pub struct Name {
    tx: u32,
    attempt: u8,
}

impl Name {
    fn of(tid: Tid) -> Name
        ensures { result ≡ name_of tid }
    {
        Name {
            tx: tid.tx.0,
            attempt: tid.attempt,
        }
    }
}

/// The unended runs.
pub(crate) type Runs = HashMap<Name, HeldRun>;

/// The run of this attempt, if there is one.
pub(crate) fn find(runs: &Runs, tid: Tid) -> Option<&HeldRun>
    ensures { option_copied result ≡ held_in (from_entries (by_tid runs.now.entries)) tid }
{
    runs.get(&Name::of(tid))
}

/// Puts a run under its attempt.
pub(crate) fn put(runs: &mut Runs, tid: Tid, run: HeldRun) -> Result<(), Memory>
    ensures put { OnOk result (from_entries (by_tid runs.new.entries) ≡ with_run tid run (from_entries (by_tid runs.old.entries))) }
    ensures promised { OnOk result (held_in (from_entries (by_tid runs.old.entries)) tid ≡ None
        → promised_of_all (by_tid runs.new.entries) ≡ promised_of_all (by_tid runs.old.entries) + promised_by run) }
    ensures memory { OnErr result (by_tid runs.new.entries ≡ by_tid runs.old.entries) }
{
    runs.insert(Name::of(tid), run)?;
    Ok(())
}

/// Takes the run of this attempt out.
pub(crate) fn take_out(runs: &mut Runs, tid: Tid) -> Option<HeldRun>
    ensures run { result ≡ held_in (from_entries (by_tid runs.old.entries)) tid }
    ensures gone { from_entries (by_tid runs.new.entries) ≡ without tid (from_entries (by_tid runs.old.entries)) }
    ensures promised { promised_of_all (by_tid runs.new.entries)
        + or_else (map_some promised_by (held_in (from_entries (by_tid runs.old.entries)) tid)) 0
        ≡ promised_of_all (by_tid runs.old.entries) }
{
    runs.remove(&Name::of(tid))
}

/// Grants an access to the run of this attempt.
pub(crate) fn grant(runs: &mut Runs, tid: Tid, access: Granted) -> Result<(), Memory>
    requires { IsSome (held_in (from_entries (by_tid runs.old.entries)) tid) }
    ensures granted { OnOk result (by_tid runs.new.entries ≡ changed_entries tid (granted_to access) (by_tid runs.old.entries)) }
    ensures memory { OnErr result (by_tid runs.new.entries ≡ by_tid runs.old.entries) }
{
    let run = runs.get_mut(&Name::of(tid)).unwrap();
    run.grant(access)
}

/// Gives the run of this attempt its ticket.
pub(crate) fn hold_ticket(runs: &mut Runs, tid: Tid, ticket: u64)
    ensures { by_tid runs.new.entries ≡ changed_entries tid (with_ticket ticket) (by_tid runs.old.entries) }
{
    if let Some(run) = runs.get_mut(&Name::of(tid)) {
        run.hold_ticket(ticket);
    }
}

/// Seals the run of this attempt, and notes these counters at it.
pub(crate) fn seal(runs: &mut Runs, tid: Tid, number: u64, counters: Counters)
    ensures { by_tid runs.new.entries ≡ changed_entries tid (sealed_with number counters) (by_tid runs.old.entries) }
{
    if let Some(run) = runs.get_mut(&Name::of(tid)) {
        run.seal(number, counters);
    }
}

/// Takes the sealing of the run of this attempt back.
pub(crate) fn unseal(runs: &mut Runs, tid: Tid)
    ensures { by_tid runs.new.entries ≡ changed_entries tid not_sealed (by_tid runs.old.entries) }
{
    if let Some(run) = runs.get_mut(&Name::of(tid)) {
        run.unseal();
    }
}

/// The runs of transactions in doubt, at each of which these counters are noted.
pub(crate) fn restored(alloc: Global, doubtful: &[Kept], counters: Counters) -> Result<Runs, Memory>
    ensures { IfOk result (λ runs. from_entries (by_tid runs.entries) ≡ with_restored counters doubtful.now empty) }
{
    let mut runs = HashMap::new(alloc);
    for kept in doubtful {
        put(
            &mut runs,
            kept.tid,
            HeldRun::restored(alloc, kept, counters)?,
        )?;
    }
    Ok(runs)
}

/// How many writes of these runs, once they are sealed, may go to the table.
pub(crate) fn promised(runs: &Runs) -> Result<usize, Memory>
    ensures { IfOk result (λ count. count ≡ promised_of_all (by_tid runs.now.entries)) }
{
    let mut count: usize = 0;
    for (_, run) in runs {
        count = count.checked_add(run.promised()).ok_or(Memory)?;
    }
    Ok(count)
}
