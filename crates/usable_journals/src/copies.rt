//! Parts of records again, in memory of their own.
ghost use Rattle.std.specs.Prelude.{◌≡◌, IfOk};
ghost use Rattle.fed_rules.specs.CoordRecords as rules;

use fed_rules::DoubtfulSum;
use mdb_base::{Memory, Puts, SiteId, Tickets};
use presumptions::Participants;
use std::alloc::Global;

/// The same tickets.
pub(crate) fn copy_tickets(alloc: Global, tickets: &Tickets) -> Result<Tickets, Memory>
    ensures { IfOk result (λ copy. copy ≡ tickets.now) }
{
    Ok(Tickets::of(Vec::from_slice(alloc, tickets.as_slice())?))
}

/// The same participants.
pub(crate) fn copy_participants(
    alloc: Global,
    participants: &Participants,
) -> Result<Participants, Memory>
    ensures { IfOk result (λ copy. copy ≡ participants.now) }
{
    Ok(Participants::of(Vec::from_slice(alloc, participants.as_slice())?))
}

// Whether one of the tickets is of the site.
fn has_ticket(tickets: &Tickets, site: SiteId) -> bool
    ensures { result ≡ rules.has_ticket tickets.now site }
{
    for ticket in tickets.as_slice() {
        if ticket.site == site {
            return true;
        }
    }
    false
}

/// The sites of these tickets with their protocols.
pub(crate) fn ticketed(
    alloc: Global,
    protocols: &Participants,
    tickets: &Tickets,
) -> Result<Participants, Memory>
    ensures { IfOk result (λ sites. sites ≡ rules.ticketed protocols.now tickets.now) }
{
    let mut sites = Vec::with_capacity(alloc, protocols.len())?;
    for participant in protocols.as_slice() {
        if has_ticket(tickets, participant.site) {
            sites.push(*participant)?;
        }
    }
    Ok(Participants::of(sites))
}

/// The same rows.
pub(crate) fn copy_rows(alloc: Global, rows: &Puts) -> Result<Puts, Memory>
    ensures { IfOk result (λ copy. copy ≡ rows.now) }
{
    Ok(Puts::of(Vec::from_slice(alloc, rows.as_slice())?))
}

/// The same subtransaction in doubt.
pub(crate) fn copy_held(alloc: Global, held: &DoubtfulSum) -> Result<DoubtfulSum, Memory>
    ensures { IfOk result (λ copy. copy ≡ held.now) }
{
    Ok(DoubtfulSum {
        tid: held.tid,
        epoch: held.epoch,
        number: held.number,
        ticket: held.ticket,
        writes: copy_rows(alloc, &held.writes)?,
    })
}
