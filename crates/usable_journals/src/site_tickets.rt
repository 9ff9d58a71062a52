//! Tickets rise.
ghost use Rattle.std.specs.Prelude.{◌≡◌, ◌↔◌, IsTrue, reverse};
ghost use Rattle.fed_rules.specs.Usable.{TicketsRise};
ghost use Rattle.usable_journals.specs.SiteTests as tests;

use fed_rules::SiteRecord;

/// Whether it is over this floor, where there is one.
fn is_over(floor: Option<u64>, ticket: u64) -> bool
    ensures { result ≡ tests.is_over floor ticket }
{
    match floor {
        Some(floor) => floor < ticket,
        None => true,
    }
}

/// The greater one.
fn greater_of(floor: Option<u64>, ticket: u64) -> u64
    ensures { result ≡ tests.greater_of floor ticket }
{
    match floor {
        Some(floor) => floor.max(ticket),
        None => ticket,
    }
}

/// Whether the record has a ticket over this floor, if it is a Prepared.
fn fits(floor: Option<u64>, entry: &SiteRecord) -> bool
    ensures { result ≡ tests.ticket_fits floor entry.now }
{
    match entry {
        SiteRecord::Prepared { ticket, .. } => is_over(floor, *ticket),
        _ => true,
    }
}

/// The floor after this record: the greatest ticket so far.
fn floor_after(floor: Option<u64>, entry: &SiteRecord) -> Option<u64>
    ensures { result ≡ tests.floor_after floor entry.now }
{
    match entry {
        SiteRecord::Prepared { ticket, .. } => Some(greater_of(floor, *ticket)),
        SiteRecord::Checkpoint(sum) => Some(greater_of(floor, sum.published)),
        _ => floor,
    }
}

/// Whether each Prepared has a greater ticket than each before it, and than the published one of each Checkpoint before it.
pub(crate) fn tickets_rise(records: &[SiteRecord]) -> bool
    ensures { IsTrue result ↔ TicketsRise (reverse records.now) }
{
    let mut floor = None;
    for entry in records {
        if !fits(floor, entry) {
            return false;
        }
        floor = floor_after(floor, entry);
    }
    true
}
