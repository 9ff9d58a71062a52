//! The committed attempts with their tickets, by rising attempt.
ghost use Rattle.std.specs.Prelude.{◌≡◌, IfOk, OnOk};
ghost use Rattle.mdb_base.specs.Names.{tid_before};
ghost use Rattle.mdb_base.specs.Words.{inserted};
ghost use Rattle.journal_sums.specs.CoordReadings.{front_count};

use fed_rules::{CommittedAttempt, CommittedAttempts};
use mdb_base::{Memory, Tickets, Tid};
use std::alloc::Global;

/// The same tickets, in memory of their own.
pub(crate) fn copy_tickets(alloc: Global, tickets: &Tickets) -> Result<Tickets, Memory>
    ensures { IfOk result (λ copy. copy ≡ tickets.now) }
{
    Ok(Tickets::of(Vec::from_slice(alloc, tickets.as_slice())?))
}

/// The same attempts, in memory of their own.
pub(crate) fn copy_committed(
    alloc: Global,
    committed: &CommittedAttempts,
) -> Result<CommittedAttempts, Memory>
    ensures { IfOk result (λ copy. copy ≡ committed.now) }
{
    let mut copy = Vec::with_capacity(alloc, committed.len())?;
    for attempt in committed.as_slice() {
        copy.push(CommittedAttempt {
            tid: attempt.tid,
            tickets: copy_tickets(alloc, &attempt.tickets)?,
        })?;
    }
    Ok(CommittedAttempts::of(copy))
}

// How many from the front on are before the attempt.
fn earlier_ones(committed: &[CommittedAttempt], tid: Tid) -> usize
    ensures { result ≡ front_count (λ attempt. tid_before attempt.tid tid) committed.now }
{
    for (place, attempt) in committed.iter().enumerate() {
        if !(attempt.tid < tid) {
            return place;
        }
    }
    committed.len()
}

/// Puts a committed attempt before the first one that isn't before it, in time linear in their number.
pub(crate) fn put(
    committed: &mut Vec<CommittedAttempt>,
    attempt: CommittedAttempt,
) -> Result<(), Memory>
    ensures { OnOk result (committed.new.items ≡ inserted (λ a b. tid_before a.tid b.tid) attempt committed.old.items) }
{
    let place = earlier_ones(committed.as_slice(), attempt.tid);
    committed.insert(place, attempt)?;
    Ok(())
}
