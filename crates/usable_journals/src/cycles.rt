//! The tickets of the committed attempts close no cycle.
ghost use Rattle.std.specs.Prelude.{◌≡◌, ◌↔◌, ◌++◌, true, IfOk, OnOk, IsTrue, [], ◌∷◌, map, reverse};
ghost use Rattle.order_laws.specs.Tickets.{HasNoCycle};
ghost use Rattle.fed_rules.specs.CoordRecords.{commits};
ghost use Rattle.fed_rules.specs.Reopened.{commit_read};
ghost use Rattle.fed_rules.specs.Usable.{coord_read};
ghost use Rattle.usable_journals.specs.CoordTests.{in_order};

use fed_rules::{CommittedAttempt, CoordRecord};
use mdb_base::Memory;
use std::alloc::Global;
use ticket_graph::{Added, are_cycle_free};

/// Puts a record's attempt behind the others, if it is a Commit.
fn add(alloc: Global, attempts: &mut Vec<Added>, entry: &CoordRecord) -> Result<(), Memory>
    ensures { OnOk result (attempts.new.items ≡ attempts.old.items ++ commits (entry.now ∷ [])) }
{
    match entry {
        CoordRecord::Commit { tid, tickets } => {
            attempts.push(Added::of(alloc, *tid, tickets)?)?;
            Ok(())
        }
        _ => Ok(()),
    }
}

/// Puts the committed attempts of a first Checkpoint behind the others.
fn add_committed(
    alloc: Global,
    attempts: &mut Vec<Added>,
    committed: &[CommittedAttempt],
) -> Result<(), Memory>
    ensures { OnOk result (attempts.new.items ≡ attempts.old.items ++ commits (map commit_read committed.now)) }
{
    for attempt in committed {
        attempts.push(Added::of(alloc, attempt.tid, &attempt.tickets)?)?;
    }
    Ok(())
}

/// Puts those of the first record, or of what it is read as, behind the others.
fn add_first(alloc: Global, attempts: &mut Vec<Added>, first: &CoordRecord) -> Result<(), Memory>
    ensures { OnOk result (attempts.new.items ≡ attempts.old.items ++ commits (coord_read (first.now ∷ []))) }
{
    match first {
        CoordRecord::Checkpoint(sum) => add_committed(alloc, attempts, sum.committed.as_slice()),
        _ => add(alloc, attempts, first),
    }
}

/// Puts those of these records behind the others, the last one first.
fn add_all(alloc: Global, attempts: &mut Vec<Added>, entries: &[CoordRecord]) -> Result<(), Memory>
    ensures { OnOk result (attempts.new.items ≡ attempts.old.items ++ commits (reverse entries.now)) }
{
    let mut left = entries.len();
    while left > 0 {
        left -= 1;
        add(alloc, attempts, &entries[left])?;
    }
    Ok(())
}

/// The committed attempts, the last one first, a first Checkpoint read as what it sums.
fn committed_attempts(alloc: Global, records: &[CoordRecord]) -> Result<Vec<Added>, Memory>
    ensures { IfOk result (λ attempts. attempts.items ≡ commits (coord_read (reverse records.now))) }
{
    let mut attempts = Vec::new(alloc);
    let Some((first, newer)) = records.split_first() else {
        return Ok(attempts);
    };
    add_all(alloc, &mut attempts, newer)?;
    add_first(alloc, &mut attempts, first)?;
    Ok(attempts)
}

/// Whether the tickets of the committed attempts close no cycle, a first Checkpoint read as what it sums.
pub(crate) fn close_no_cycle(alloc: Global, records: &[CoordRecord]) -> Result<bool, Memory>
    requires { in_order (coord_read (reverse records.now)) ≡ true }
    ensures { IfOk result (λ free. IsTrue free ↔ HasNoCycle (commits (coord_read (reverse records.now)))) }
{
    let attempts = committed_attempts(alloc, records)?;
    Ok(are_cycle_free(attempts))
}
