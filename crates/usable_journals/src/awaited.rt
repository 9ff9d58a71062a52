//! The open attempts of a Checkpoint that committed: an acknowledgement of each is awaited.
ghost use Rattle.std.specs.Prelude.{◌≡◌, IfOk};
ghost use Rattle.std.specs.BTreeSet.{contains};
ghost use Rattle.mdb_base.specs.declared.names.Tid.{Tid as TheTid};
ghost use Rattle.mdb_base.specs.Names.{same_tid, tid_cmp};
ghost use Rattle.mdb_base.specs.Words.{each_of, some_of};
ghost use Rattle.presumptions.specs.declared.Protocol.TheVariants as By;
ghost use Rattle.fed_rules.specs.CoordRecords as rules;
ghost use Rattle.usable_journals.specs.CoordTests as tests;
ghost use Rattle.usable_journals.specs.CoordTests.{is_awaited_by};

use fed_rules::{CommittedAttempt, CoordRecord, CoordSum, OpenAttempt};
use mdb_base::{Memory, Tid};
use presumptions::{Participant, Participants, Protocol};
use std::alloc::Global;
use std::collections::BTreeSet;

/// Whether all of them presume commit.
fn all_presume_commit(participants: &[Participant]) -> bool
    ensures { result ≡ rules.all_follow By.Commit participants.now }
{
    for participant in participants {
        if !matches!(participant.protocol, Protocol::Commit) {
            return false;
        }
    }
    true
}

/// Whether a commit of an attempt with these participants is forgotten at once: there are some, and all presume commit.
pub(crate) fn ends_at_once(participants: &Participants) -> bool
    ensures { result ≡ rules.ends_at_once (rules.class_of participants.now) }
{
    let participants = participants.as_slice();
    !participants.is_empty() && all_presume_commit(participants)
}

/// The committed attempts.
fn tids_of(alloc: Global, committed: &[CommittedAttempt]) -> Result<BTreeSet<Tid>, Memory>
    ensures { IfOk result (λ tids. (tid : TheTid) → contains tid_cmp tids tid ≡ some_of (λ done. same_tid done.tid tid) committed.now) }
{
    let mut tids = BTreeSet::new(alloc);
    for attempt in committed {
        tids.insert(attempt.tid)?;
    }
    Ok(tids)
}

/// Whether each of these open attempts either isn't among the committed ones, or a commit of it isn't forgotten at once.
fn all_awaited(committed: &BTreeSet<Tid>, attempts: &[OpenAttempt]) -> bool
    ensures { result ≡ each_of (is_awaited_by (contains tid_cmp committed.now)) attempts.now }
{
    for attempt in attempts {
        if committed.contains(&attempt.tid) && ends_at_once(&attempt.participants) {
            return false;
        }
    }
    true
}

/// Whether no attempt of the Checkpoint is open and committed of which a commit is forgotten at once.
fn sum_awaits(alloc: Global, sum: &CoordSum) -> Result<bool, Memory>
    ensures { IfOk result (λ awaits. awaits ≡ tests.sum_awaits sum.now) }
{
    let committed = tids_of(alloc, sum.committed.as_slice())?;
    Ok(all_awaited(&committed, sum.open_attempts.as_slice()))
}

/// Whether it is so in the record, if it is a Checkpoint.
fn is_awaited(alloc: Global, entry: &CoordRecord) -> Result<bool, Memory>
    ensures { IfOk result (λ awaits. awaits ≡ tests.is_awaited entry.now) }
{
    match entry {
        CoordRecord::Checkpoint(sum) => sum_awaits(alloc, sum),
        _ => Ok(true),
    }
}

/// Whether it is so in each Checkpoint among the records.
pub(crate) fn are_awaited(alloc: Global, records: &[CoordRecord]) -> Result<bool, Memory>
    ensures { IfOk result (λ awaits. awaits ≡ each_of tests.is_awaited records.now) }
{
    for entry in records {
        if !is_awaited(alloc, entry)? {
            return Ok(false);
        }
    }
    Ok(true)
}
