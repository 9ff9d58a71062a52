//! A journal begins with the set-up of its site or with a Checkpoint of it, and no set-up stands later.
ghost use Rattle.std.specs.Prelude.{◌≡◌, ◌↔◌, IsTrue, not, reverse};
ghost use Rattle.mdb_base.specs.Words.{each_of, map_some};
ghost use Rattle.fed_rules.specs.Reopened.{first_of, home_by};
ghost use Rattle.fed_rules.specs.Usable.{IsOfSite, SetUpFirst, home_of_first};
ghost use Rattle.usable_journals.specs.SiteTests.{member_of, sets_up};

use fed_rules::SiteRecord;
use mdb_base::SiteId;
use presumptions::{Participant, Protocol};

/// The site that a first record is of, with its protocol.
pub(crate) fn declared(first: &SiteRecord) -> Option<Participant>
    ensures { result ≡ map_some member_of (home_by first.now) }
{
    match first {
        SiteRecord::Setup { site, protocol, .. } => Some(member(*site, *protocol)),
        SiteRecord::Checkpoint(sum) => Some(member(sum.site, sum.protocol)),
        _ => None,
    }
}

fn member(site: SiteId, protocol: Protocol) -> Participant
    ensures { result ≡ record { site = site; protocol = protocol } }
{
    Participant { site, protocol }
}

/// Whether it is a first record of the site of this number.
fn is_of_site(first: &SiteRecord, number: u8) -> bool
    ensures { IsTrue result ↔ IsOfSite number (home_by first.now) }
{
    match first {
        SiteRecord::Setup { site, .. } => site.0 == number,
        SiteRecord::Checkpoint(sum) => sum.site.0 == number,
        _ => false,
    }
}

/// Whether none of the records is a Setup.
fn none_sets_up(newer: &[SiteRecord]) -> bool
    ensures { result ≡ each_of (λ entry. not (sets_up entry)) newer.now }
{
    for entry in newer {
        if matches!(entry, SiteRecord::Setup { .. }) {
            return false;
        }
    }
    true
}

/// Whether the journal begins with the site of this number, and no Setup stands later.
pub(crate) fn begins_with(number: u8, records: &[SiteRecord]) -> bool
    ensures { IsTrue result ↔ (IsOfSite number (home_of_first (first_of (reverse records.now))) × SetUpFirst (reverse records.now)) }
{
    let Some((first, newer)) = records.split_first() else {
        return false;
    };
    if !is_of_site(first, number) {
        return false;
    }
    none_sets_up(newer)
}
