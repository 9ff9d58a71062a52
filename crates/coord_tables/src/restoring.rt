//! The tables at a start of the coordinator: they begin with what its records say together.
ghost use Rattle.std.specs.Prelude.{◌≡◌, not, map, IfOk, OnOk};
ghost use Rattle.fed_rules.specs.CoordRecords.{acking, is_nobody};
ghost use Rattle.protocol_table.specs.Attempts.{AreApart, decision_of};
ghost use Rattle.coord_tables.specs.Starting as spec;

use crate::commit_graph::CommitGraph;
use crate::committed::Committed;
use crate::tables::Tables;
use fed_rules::{CommittedAttempts, CoordSum, OpenAttempt};
use mdb_base::{Memory, Tid};
use presumptions::{Decision, Participants, acks};
use protocol_table::Restored;
use std::alloc::Global;
use ticket_graph::Added;

/// Whether the attempt is among the committed ones.
fn is_committed(committed: &CommittedAttempts, tid: Tid) -> bool
    ensures { result ≡ spec.is_committed committed.now tid }
{
    for attempt in committed.as_slice() {
        if attempt.tid == tid {
            return true;
        }
    }
    false
}

/// Whether one of these acknowledges the decision.
fn some_acks(participants: &Participants, decision: Decision) -> bool
    ensures { result ≡ not (is_nobody (acking decision participants.now)) }
{
    for participant in participants.as_slice() {
        if acks(participant.protocol, decision) {
            return true;
        }
    }
    false
}

/// The outcome of an attempt.
fn decision_of(committed: bool) -> Decision
    ensures { result ≡ decision_of committed }
{
    if committed {
        Decision::Commit
    } else {
        Decision::Abort
    }
}

/// The same participants, in memory of their own.
fn copy_participants(alloc: Global, participants: &Participants) -> Result<Participants, Memory>
    ensures { IfOk result (λ copy. copy ≡ participants.now) }
{
    Ok(Participants::of(Vec::from_slice(alloc, participants.as_slice())?))
}

/// Whether an acknowledgement of the attempt's outcome is required.
fn is_awaited(committed: &CommittedAttempts, attempt: &OpenAttempt) -> bool
    ensures { result ≡ spec.is_awaited committed.now attempt.now }
{
    let decision = decision_of(is_committed(committed, attempt.tid));
    some_acks(&attempt.participants, decision)
}

/// The attempt with its outcome.
fn restored_by(
    alloc: Global,
    committed: &CommittedAttempts,
    attempt: &OpenAttempt,
) -> Result<Restored, Memory>
    ensures { IfOk result (λ kept. kept ≡ spec.restored_by committed.now attempt.now) }
{
    Ok(Restored {
        tid: attempt.tid,
        participants: copy_participants(alloc, &attempt.participants)?,
        committed: is_committed(committed, attempt.tid),
    })
}

/// The open attempts of which an acknowledgement is required, with their outcomes. It takes time linear in the committed ones for each.
fn kept_by(alloc: Global, sum: &CoordSum) -> Result<Vec<Restored>, Memory>
    ensures { IfOk result (λ kept. kept.items ≡ spec.kept_by sum.now) }
{
    let mut kept = Vec::new(alloc);
    for attempt in sum.open_attempts.as_slice() {
        if is_awaited(&sum.committed, attempt) {
            kept.push(restored_by(alloc, &sum.committed, attempt)?)?;
        }
    }
    Ok(kept)
}

/// The committed attempts with their tickets.
pub fn tickets_of(alloc: Global, committed: &CommittedAttempts) -> Result<Vec<Added>, Memory>
    ensures { IfOk result (λ commits. commits.items ≡ map spec.ticketed_by committed.now) }
{
    let mut commits = Vec::with_capacity(alloc, committed.len())?;
    for attempt in committed.as_slice() {
        commits.push(Added::of(alloc, attempt.tid, &attempt.tickets)?)?;
    }
    Ok(commits)
}

impl Tables {
    /// Makes the tables those that begin with this Sum: the attempts are known of which an acknowledgement is required, none is undecided,
    /// and the tickets of all committed ones are dropped. Without memory some of them may be made so, which nothing asks while the coordinator
    /// is down.
    pub fn restart(&mut self, alloc: Global, sum: &CoordSum) -> Result<(), Memory>
        requires apart { AreApart (map (λ kept. kept.tid) (spec.kept_by sum.now)) }
        ensures { OnOk result (spec.BeginWith sum.now self.new) }
    {
        let kept = kept_by(alloc, sum)?;
        let graph = CommitGraph::dropped(alloc, &sum.committed)?;
        let committed = Committed::restored(alloc, &sum.committed)?;
        self.known.restore(alloc, kept.as_slice())?;
        self.graph = graph;
        self.exec.clear();
        self.stages.clear();
        self.committed = committed;
        Ok(())
    }
}
