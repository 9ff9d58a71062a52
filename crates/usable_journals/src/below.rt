//! Tickets that are too great: an actor draws the next one without a test.
ghost use Rattle.std.specs.Prelude.{◌≡◌};
ghost use Rattle.mdb_base.specs.Words.{each_of};
ghost use Rattle.usable_journals.specs.CoordTests as tests;

use fed_rules::{CommittedAttempt, CoordRecord};
use mdb_base::SiteTicket;

/// The first ticket, and number, that is too great.
pub(crate) const TOO_GREAT: u64 = 1 << 62;

/// Whether all these tickets are below 2^62.
fn tickets_below(tickets: &[SiteTicket]) -> bool
    ensures { result ≡ tests.are_low tickets.now }
{
    for ticket in tickets {
        if ticket.ticket >= TOO_GREAT {
            return false;
        }
    }
    true
}

/// Whether all tickets of these attempts are below 2^62.
fn attempts_below(committed: &[CommittedAttempt]) -> bool
    ensures { result ≡ each_of (λ attempt. tests.are_low attempt.tickets) committed.now }
{
    for attempt in committed {
        if !tickets_below(attempt.tickets.as_slice()) {
            return false;
        }
    }
    true
}

/// Whether all tickets of the record are below 2^62.
fn is_below(entry: &CoordRecord) -> bool
    ensures { result ≡ tests.is_below entry.now }
{
    match entry {
        CoordRecord::Commit { tickets, .. } => tickets_below(tickets.as_slice()),
        CoordRecord::Checkpoint(sum) => attempts_below(sum.committed.as_slice()),
        _ => true,
    }
}

/// Whether all tickets of the records are below 2^62.
pub(crate) fn are_below(records: &[CoordRecord]) -> bool
    ensures { result ≡ each_of tests.is_below records.now }
{
    for entry in records {
        if !is_below(entry) {
            return false;
        }
    }
    true
}
