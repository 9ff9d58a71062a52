//! What a site's Checkpoint says of its owner and its counter, and the order of its lists.
ghost use Rattle.std.specs.Prelude.{◌≡◌, ◌↔◌, IsTrue, reverse};
ghost use Rattle.mdb_base.specs.Words.{Each, each_of};
ghost use Rattle.fed_rules.specs.Usable.{AreSumsOfSome};
ghost use Rattle.usable_journals.specs.SiteTests as tests;

use crate::rising::{doubtful_rise, tids_rise};
use fed_rules::{SiteRecord, SiteSum};
use mdb_base::Tid;

/// Whether there is an owner exactly where a ticket is published, and then a number was given, and where there is neither an owner nor a
/// committed local attempt, none was.
fn is_owned(owner: Option<Tid>, published: u64, counter: u64, no_locals: bool) -> bool
    ensures { result ≡ tests.is_owned owner published counter no_locals }
{
    match owner {
        Some(_) => published >= 1 && counter >= 1,
        None => published == 0 && (!no_locals || counter == 0),
    }
}

/// Whether a Checkpoint has its owner and its counter so, and its lists rise.
fn is_of_some(sum: &SiteSum) -> bool
    ensures { result ≡ tests.sum_is_of_some sum.now }
{
    let locals = sum.locals.as_slice();
    if !is_owned(sum.owner, sum.published, sum.counter, locals.is_empty()) {
        return false;
    }
    if !doubtful_rise(sum.doubtful.as_slice()) {
        return false;
    }
    tids_rise(locals)
}

/// Whether it is so in the record, if it is a Checkpoint.
fn fits(entry: &SiteRecord) -> bool
    ensures { result ≡ tests.is_of_some entry.now }
{
    match entry {
        SiteRecord::Checkpoint(sum) => is_of_some(sum),
        _ => true,
    }
}

/// Whether it is so in each of the records.
fn all_fit(records: &[SiteRecord]) -> bool
    ensures { result ≡ each_of tests.is_of_some records.now }
{
    for entry in records {
        if !fits(entry) {
            return false;
        }
    }
    true
}

/// Whether it is so in each Checkpoint among the records.
pub(crate) fn are_of_some(records: &[SiteRecord]) -> bool
    ensures { IsTrue result ↔ Each AreSumsOfSome (reverse records.now) }
{
    all_fit(records)
}
