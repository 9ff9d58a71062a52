//! The sites that the coordinator's records name.
ghost use Rattle.std.specs.Prelude.{◌≡◌};
ghost use Rattle.mdb_base.specs.Words.{each_of};
ghost use Rattle.usable_journals.specs.CoordTests as tests;

use fed_rules::{CommittedAttempt, CoordRecord, CoordSum, OpenAttempt};
use mdb_base::SiteTicket;
use presumptions::Participant;

/// Whether it is one of the declared sites, with its protocol.
fn is_declared(protocols: &[Participant], participant: Participant) -> bool
    ensures { result ≡ tests.is_declared protocols.now participant }
{
    for declared in protocols {
        if *declared == participant {
            return true;
        }
    }
    false
}

/// Whether each is one of the declared sites, with its protocol.
fn are_declared(protocols: &[Participant], participants: &[Participant]) -> bool
    ensures { result ≡ tests.are_declared protocols.now participants.now }
{
    for participant in participants {
        if !is_declared(protocols, *participant) {
            return false;
        }
    }
    true
}

/// Whether the ticket is of a declared site.
fn is_at_declared(protocols: &[Participant], ticket: SiteTicket) -> bool
    ensures { result ≡ tests.is_at_declared protocols.now ticket }
{
    for declared in protocols {
        if declared.site == ticket.site {
            return true;
        }
    }
    false
}

/// Whether each ticket is of a declared site.
fn are_at_declared(protocols: &[Participant], tickets: &[SiteTicket]) -> bool
    ensures { result ≡ tests.are_at_declared protocols.now tickets.now }
{
    for ticket in tickets {
        if !is_at_declared(protocols, *ticket) {
            return false;
        }
    }
    true
}

/// Whether all participants of open attempts are declared.
fn open_declared(protocols: &[Participant], attempts: &[OpenAttempt]) -> bool
    ensures { result ≡ each_of (λ attempt. tests.are_declared protocols.now attempt.participants) attempts.now }
{
    for attempt in attempts {
        if !are_declared(protocols, attempt.participants.as_slice()) {
            return false;
        }
    }
    true
}

/// Whether all tickets of committed attempts are of declared sites.
fn committed_declared(protocols: &[Participant], committed: &[CommittedAttempt]) -> bool
    ensures { result ≡ each_of (λ attempt. tests.are_at_declared protocols.now attempt.tickets) committed.now }
{
    for attempt in committed {
        if !are_at_declared(protocols, attempt.tickets.as_slice()) {
            return false;
        }
    }
    true
}

/// Whether all sites that a Checkpoint names are declared.
fn sum_names_declared(protocols: &[Participant], sum: &CoordSum) -> bool
    ensures { result ≡ tests.sum_names_declared protocols.now sum.now }
{
    open_declared(protocols, sum.open_attempts.as_slice())
        && committed_declared(protocols, sum.committed.as_slice())
}

/// Whether all sites that the record names are declared, with the protocols that it names.
fn names_declared(protocols: &[Participant], entry: &CoordRecord) -> bool
    ensures { result ≡ tests.names_declared protocols.now entry.now }
{
    match entry {
        CoordRecord::Initiation { participants, .. } => {
            are_declared(protocols, participants.as_slice())
        }
        CoordRecord::Commit { tickets, .. } => are_at_declared(protocols, tickets.as_slice()),
        CoordRecord::Abort { participants, .. } => {
            are_declared(protocols, participants.as_slice())
        }
        CoordRecord::End { .. } => true,
        CoordRecord::Checkpoint(sum) => sum_names_declared(protocols, sum),
    }
}

/// Whether all sites that the records name are declared, with the protocols that they name.
pub(crate) fn name_declared(protocols: &[Participant], records: &[CoordRecord]) -> bool
    ensures { result ≡ each_of (tests.names_declared protocols.now) records.now }
{
    for entry in records {
        if !names_declared(protocols, entry) {
            return false;
        }
    }
    true
}
