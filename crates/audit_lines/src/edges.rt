//! The ticket edges between the committed attempts and one that is refused, as the coordinator's records tell them.
ghost use Rattle.std.specs.Prelude.{◌≡◌, ◌∷◌, List, reverse};
ghost use Rattle.fed_rules.specs.declared.records.CoordRecord.{CoordRecord as TheRecord};
ghost use Rattle.audit_lines.specs.Edges as spec;

use crate::votes::Candidate;
use fed_rules::{CommittedAttempt, CoordRecord};
use mdb_base::{Edge, SiteId, SiteTicket, Tid};

/// Whether one of the tickets is a greater one of this site.
fn has_greater(site: SiteId, ticket: SiteTicket, others: &[SiteTicket]) -> bool
    ensures { result ≡ spec.has_greater site ticket others.now }
{
    for other in others {
        if other.site == site && ticket.ticket < other.ticket {
            return true;
        }
    }
    false
}

/// Whether at this site some ticket of the first is smaller than one of the second.
fn has_smaller(site: SiteId, from: &[SiteTicket], to: &[SiteTicket]) -> bool
    ensures { result ≡ spec.has_smaller site from.now to.now }
{
    for ticket in from {
        if ticket.site == site && has_greater(site, *ticket, to) {
            return true;
        }
    }
    false
}

/// Whether the edge enters the attempt with the second tickets from one with the first.
fn enters(edge: Edge, from: &[SiteTicket], tid: Tid, tickets: &[SiteTicket]) -> bool
    ensures { result ≡ spec.enters edge from.now tid tickets.now }
{
    tid == edge.to && has_smaller(edge.site, from, tickets)
}

/// Whether the edge enters one of these attempts from one with these tickets.
fn enters_attempt(edge: Edge, from: &[SiteTicket], attempts: &[CommittedAttempt]) -> bool
    ensures { result ≡ spec.some_attempt (spec.enters edge from.now) attempts.now }
{
    for attempt in attempts {
        if enters(edge, from, attempt.tid, attempt.tickets.as_slice()) {
            return true;
        }
    }
    false
}

/// Whether the edge enters a committed attempt, by one record more; whether it does by those before it is known.
fn enters_with(edge: Edge, from: &[SiteTicket], before: bool, entry: &CoordRecord) -> bool
    ensures { (records : List TheRecord) → before ≡ spec.some_commit (spec.enters edge from.now) records → result ≡ spec.some_commit (spec.enters edge from.now) (entry.now ∷ records) }
{
    match entry {
        CoordRecord::Commit { tid, tickets } => {
            enters(edge, from, *tid, tickets.as_slice()) || before
        }
        CoordRecord::Checkpoint(sum) => enters_attempt(edge, from, sum.committed.as_slice()),
        _ => before,
    }
}

/// Whether the edge enters a committed attempt from one with these tickets, by the records, the oldest first.
fn enters_commit(edge: Edge, from: &[SiteTicket], records: &[CoordRecord]) -> bool
    ensures { result ≡ spec.some_commit (spec.enters edge from.now) (reverse records.now) }
{
    let mut found = false;
    for entry in records {
        found = enters_with(edge, from, found, entry);
    }
    found
}

/// Whether the edge enters the candidate or a committed attempt from one with these tickets.
fn enters_some(
    candidate: &Candidate,
    records: &[CoordRecord],
    edge: Edge,
    from: &[SiteTicket],
) -> bool
    ensures { result ≡ spec.enters_some candidate.now.tid candidate.now.tickets.items (reverse records.now) edge from.now }
{
    enters(edge, from, candidate.tid, candidate.tickets.as_slice())
        || enters_commit(edge, from, records)
}

/// Whether the edge leaves the attempt with these tickets, and enters the candidate or a committed one.
fn leaves(
    candidate: &Candidate,
    records: &[CoordRecord],
    edge: Edge,
    tid: Tid,
    tickets: &[SiteTicket],
) -> bool
    ensures { result ≡ spec.leaves candidate.now.tid candidate.now.tickets.items (reverse records.now) edge tid tickets.now }
{
    tid == edge.from && enters_some(candidate, records, edge, tickets)
}

/// Whether the edge leaves one of these attempts so.
fn leaves_attempt(
    candidate: &Candidate,
    records: &[CoordRecord],
    edge: Edge,
    attempts: &[CommittedAttempt],
) -> bool
    ensures { result ≡ spec.some_attempt (spec.leaves candidate.now.tid candidate.now.tickets.items (reverse records.now) edge) attempts.now }
{
    for attempt in attempts {
        if leaves(
            candidate,
            records,
            edge,
            attempt.tid,
            attempt.tickets.as_slice(),
        ) {
            return true;
        }
    }
    false
}

/// Whether the edge leaves a committed attempt so, by one record more; whether it does by those before it is known.
fn leaves_with(
    candidate: &Candidate,
    records: &[CoordRecord],
    edge: Edge,
    before: bool,
    entry: &CoordRecord,
) -> bool
    ensures { (looked : List TheRecord) → before ≡ spec.some_commit (spec.leaves candidate.now.tid candidate.now.tickets.items (reverse records.now) edge) looked
        → result ≡ spec.some_commit (spec.leaves candidate.now.tid candidate.now.tickets.items (reverse records.now) edge) (entry.now ∷ looked) }
{
    match entry {
        CoordRecord::Commit { tid, tickets } => {
            leaves(candidate, records, edge, *tid, tickets.as_slice()) || before
        }
        CoordRecord::Checkpoint(sum) => {
            leaves_attempt(candidate, records, edge, sum.committed.as_slice())
        }
        _ => before,
    }
}

/// Whether the edge leaves a committed attempt so, by the records, the oldest first.
fn leaves_commit(candidate: &Candidate, records: &[CoordRecord], edge: Edge) -> bool
    ensures { result ≡ spec.some_commit (spec.leaves candidate.now.tid candidate.now.tickets.items (reverse records.now) edge) (reverse records.now) }
{
    let mut found = false;
    for entry in records {
        found = leaves_with(candidate, records, edge, found, entry);
    }
    found
}

/// Whether the edge leads from the candidate or a committed attempt to one of them.
pub(crate) fn is_edge(candidate: &Candidate, records: &[CoordRecord], edge: Edge) -> bool
    ensures { result ≡ spec.is_edge candidate.now.tid candidate.now.tickets.items (reverse records.now) edge }
{
    leaves(
        candidate,
        records,
        edge,
        candidate.tid,
        candidate.tickets.as_slice(),
    ) || leaves_commit(candidate, records, edge)
}
