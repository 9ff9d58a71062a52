//! What the journal of the coordinator says.
ghost use Rattle.std.specs.Prelude.{◌≡◌, IfOk, List, [], ◌∷◌, reverse};
ghost use Rattle.presumptions.specs.declared.Participant.{Participant};
ghost use Rattle.fed_rules.specs.declared.records.CoordRecord.TheVariants as Rec;
ghost use Rattle.fed_rules.specs.CoordSums.{coord_journal_sum, coord_sum_with, no_attempts};
ghost use Rattle.journal_sums.specs.CoordReadings.{opened, read_with};

use crate::committed::{copy_committed, copy_tickets, put};
use crate::open_attempts::{begin, commit, copy_attempts, copy_participants, end, ticketed};
use fed_rules::{
    CommittedAttempt, CommittedAttempts, CoordRecord, CoordSum, OpenAttempt, OpenAttempts,
};
use mdb_base::{Memory, Tickets, Tid};
use presumptions::Participants;
use std::alloc::Global;

/// What the records of a journal of the coordinator say together, the oldest first, at these protocols of the sites. A Checkpoint stands
/// for all before it. A record takes time linear in the open attempts, and a Commit in the committed ones too.
pub fn read_coord_sum(
    alloc: Global,
    protocols: &Participants,
    records: &[CoordRecord],
) -> Result<CoordSum, Memory>
    ensures { IfOk result (λ sum. sum ≡ coord_journal_sum protocols.now (reverse records.now)) }
{
    let mut sum = nothing(alloc);
    for entry in records {
        sum = read(alloc, protocols, sum, entry)?;
    }
    Ok(sum)
}

// What no records say.
fn nothing(alloc: Global) -> CoordSum
    ensures { result ≡ no_attempts }
{
    CoordSum {
        open_attempts: OpenAttempts::of(Vec::new(alloc)),
        committed: CommittedAttempts::of(Vec::new(alloc)),
    }
}

// What the records say with the next one.
fn read(
    alloc: Global,
    protocols: &Participants,
    sum: CoordSum,
    entry: &CoordRecord,
) -> Result<CoordSum, Memory>
    ensures { IfOk result (λ next. next ≡ read_with protocols.now sum entry.now) }
{
    match entry {
        CoordRecord::Initiation { tid, participants } => {
            with_begun(sum, *tid, copy_participants(alloc, participants)?)
        }
        CoordRecord::Commit { tid, tickets } => {
            with_commit(alloc, protocols, sum, *tid, tickets)
        }
        CoordRecord::Abort { tid, participants } => {
            with_begun(sum, *tid, copy_participants(alloc, participants)?)
        }
        CoordRecord::End { tid } => Ok(with_end(sum, *tid)),
        CoordRecord::Checkpoint(kept) => copy_sum(alloc, kept),
    }
}

// The attempt is open with these participants, unless it is open already.
fn with_begun(sum: CoordSum, tid: Tid, participants: Participants) -> Result<CoordSum, Memory>
    ensures { IfOk result (λ next. next ≡ opened tid participants sum) }
{
    let CoordSum {
        open_attempts,
        committed,
    } = sum;
    let mut attempts = open_attempts.into_items();
    begin(&mut attempts, tid, participants)?;
    Ok(CoordSum {
        open_attempts: OpenAttempts::of(attempts),
        committed,
    })
}

// The attempt is committed with these tickets: it is open, unless its commit is forgotten at once.
fn with_commit(
    alloc: Global,
    protocols: &Participants,
    sum: CoordSum,
    tid: Tid,
    tickets: &Tickets,
) -> Result<CoordSum, Memory>
    ensures { IfOk result (λ next. next ≡ coord_sum_with protocols.now sum (Rec.Commit tid tickets.now ∷ [])) }
{
    let CoordSum {
        open_attempts,
        committed,
    } = sum;
    let mut attempts = open_attempts.into_items();
    begin(&mut attempts, tid, ticketed(alloc, protocols, tickets)?)?;
    commit(&mut attempts, tid);
    let mut committed = committed.into_items();
    let attempt = CommittedAttempt {
        tid,
        tickets: copy_tickets(alloc, tickets)?,
    };
    put(&mut committed, attempt)?;
    Ok(CoordSum {
        open_attempts: OpenAttempts::of(attempts),
        committed: CommittedAttempts::of(committed),
    })
}

// The attempt is no longer open.
fn with_end(sum: CoordSum, tid: Tid) -> CoordSum
    ensures { (protocols : List Participant) → result ≡ coord_sum_with protocols sum (Rec.End tid ∷ []) }
{
    let CoordSum {
        open_attempts,
        committed,
    } = sum;
    let mut attempts = open_attempts.into_items();
    end(&mut attempts, tid);
    CoordSum {
        open_attempts: OpenAttempts::of(attempts),
        committed,
    }
}

// The same, in memory of its own.
fn copy_sum(alloc: Global, sum: &CoordSum) -> Result<CoordSum, Memory>
    ensures { IfOk result (λ copy. copy ≡ sum.now) }
{
    Ok(CoordSum {
        open_attempts: copy_attempts(alloc, &sum.open_attempts)?,
        committed: copy_committed(alloc, &sum.committed)?,
    })
}
