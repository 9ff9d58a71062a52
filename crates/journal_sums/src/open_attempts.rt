//! The attempts that the coordinator has open, by rising attempt.
ghost use Rattle.std.specs.Prelude.{◌≡◌, ◌&&◌, not, IfOk, OnOk};
ghost use Rattle.mdb_base.specs.Names.{same_tid, tid_before};
ghost use Rattle.mdb_base.specs.Words.{some_of, those};
ghost use Rattle.presumptions.specs.declared.Protocol.TheVariants as By;
ghost use Rattle.fed_rules.specs.CoordRecords as rules;
ghost use Rattle.fed_rules.specs.CoordRecords.{all_follow, class_of};
ghost use Rattle.fed_rules.specs.CoordSums.{after_commit, also_open};
ghost use Rattle.journal_sums.specs.CoordReadings.{front_count};

use fed_rules::{OpenAttempt, OpenAttempts};
use mdb_base::{Memory, SiteId, Tickets, Tid};
use presumptions::{Participant, Participants, Protocol};
use std::alloc::Global;

/// The same participants, in memory of their own.
pub(crate) fn copy_participants(
    alloc: Global,
    participants: &Participants,
) -> Result<Participants, Memory>
    ensures { IfOk result (λ copy. copy ≡ participants.now) }
{
    Ok(Participants::of(Vec::from_slice(alloc, participants.as_slice())?))
}

/// The same attempts, in memory of their own.
pub(crate) fn copy_attempts(alloc: Global, attempts: &OpenAttempts) -> Result<OpenAttempts, Memory>
    ensures { IfOk result (λ copy. copy ≡ attempts.now) }
{
    let mut copy = Vec::with_capacity(alloc, attempts.len())?;
    for attempt in attempts.as_slice() {
        copy.push(OpenAttempt {
            tid: attempt.tid,
            participants: copy_participants(alloc, &attempt.participants)?,
        })?;
    }
    Ok(OpenAttempts::of(copy))
}

// Whether one of the tickets is of the site.
fn has_ticket(tickets: &Tickets, site: SiteId) -> bool
    ensures { result ≡ rules.has_ticket tickets.now site }
{
    for ticket in tickets.as_slice() {
        if ticket.site == site {
            return true;
        }
    }
    false
}

/// The sites of these tickets with their protocols.
pub(crate) fn ticketed(
    alloc: Global,
    protocols: &Participants,
    tickets: &Tickets,
) -> Result<Participants, Memory>
    ensures { IfOk result (λ sites. sites ≡ rules.ticketed protocols.now tickets.now) }
{
    let mut sites = Vec::with_capacity(alloc, protocols.len())?;
    for participant in protocols.as_slice() {
        if has_ticket(tickets, participant.site) {
            sites.push(*participant)?;
        }
    }
    Ok(Participants::of(sites))
}

// Whether all of them presume commit.
fn all_presume_commit(participants: &[Participant]) -> bool
    ensures { result ≡ all_follow By.Commit participants.now }
{
    for participant in participants {
        if !matches!(participant.protocol, Protocol::Commit) {
            return false;
        }
    }
    true
}

// Whether a commit of these participants is forgotten at once, without an End: that of presumed commit alone.
fn ends_at_once(participants: &Participants) -> bool
    ensures { result ≡ rules.ends_at_once (class_of participants.now) }
{
    let participants = participants.as_slice();
    !participants.is_empty() && all_presume_commit(participants)
}

// Whether the attempt is open.
fn is_open(attempts: &[OpenAttempt], tid: Tid) -> bool
    ensures { result ≡ some_of (λ attempt. same_tid attempt.tid tid) attempts.now }
{
    for attempt in attempts {
        if attempt.tid == tid {
            return true;
        }
    }
    false
}

// How many from the front on are before the attempt.
fn earlier_ones(attempts: &[OpenAttempt], tid: Tid) -> usize
    ensures { result ≡ front_count (λ attempt. tid_before attempt.tid tid) attempts.now }
{
    for (place, attempt) in attempts.iter().enumerate() {
        if !(attempt.tid < tid) {
            return place;
        }
    }
    attempts.len()
}

/// Opens the attempt with these participants, unless it is open already.
pub(crate) fn begin(
    attempts: &mut Vec<OpenAttempt>,
    tid: Tid,
    participants: Participants,
) -> Result<(), Memory>
    ensures { OnOk result (attempts.new.items ≡ also_open tid participants attempts.old.items) }
{
    if is_open(attempts.as_slice(), tid) {
        return Ok(());
    }
    let place = earlier_ones(attempts.as_slice(), tid);
    attempts.insert(place, OpenAttempt { tid, participants })?;
    Ok(())
}

/// Closes the attempt.
pub(crate) fn end(attempts: &mut Vec<OpenAttempt>, tid: Tid)
    ensures { attempts.new.items ≡ those (λ attempt. not (same_tid attempt.tid tid)) attempts.old.items }
{
    attempts.retain(|attempt| attempt.tid != tid);
}

/// Closes the attempt, which is committed, if its commit is forgotten at once.
pub(crate) fn commit(attempts: &mut Vec<OpenAttempt>, tid: Tid)
    ensures { attempts.new.items ≡ after_commit tid attempts.old.items }
{
    attempts.retain(|attempt| !(attempt.tid == tid && ends_at_once(&attempt.participants)));
}
