//! Numbers, tickets and epochs that are too great, and numbers and tickets of 0.
ghost use Rattle.std.specs.Prelude.{◌≡◌};
ghost use Rattle.mdb_base.specs.Words.{each_of};
ghost use Rattle.usable_journals.specs.SiteTests as tests;

use crate::below::TOO_GREAT;
use fed_rules::{DoubtfulSum, SiteRecord, SiteSum};

/// The first epoch that is too great.
const LATE: u32 = 1 << 31;

/// Whether a number or a ticket is from 1 to 2^62 - 1.
fn is_some_number(number: u64) -> bool
    ensures { result ≡ tests.is_some_number number }
{
    number >= 1 && number < TOO_GREAT
}

/// Whether one in doubt has a number, a ticket and an epoch in range.
fn held_is_below(held: &DoubtfulSum) -> bool
    ensures { result ≡ tests.held_is_below held.now }
{
    is_some_number(held.number) && is_some_number(held.ticket) && held.epoch < LATE
}

/// Whether all in doubt have.
fn all_held_below(doubtful: &[DoubtfulSum]) -> bool
    ensures { result ≡ each_of tests.held_is_below doubtful.now }
{
    for held in doubtful {
        if !held_is_below(held) {
            return false;
        }
    }
    true
}

/// Whether a Checkpoint has its epoch, counter, published ticket and doubtful ones in range.
fn sum_is_below(sum: &SiteSum) -> bool
    ensures { result ≡ tests.sum_is_below sum.now }
{
    sum.epoch < LATE
        && sum.counter < TOO_GREAT
        && sum.published < TOO_GREAT
        && all_held_below(sum.doubtful.as_slice())
}

/// Whether the record has its numbers, tickets and epochs in range.
fn is_below(entry: &SiteRecord) -> bool
    ensures { result ≡ tests.is_below entry.now }
{
    match entry {
        SiteRecord::Start { epoch } => *epoch < LATE,
        SiteRecord::Prepared {
            epoch,
            number,
            ticket,
            ..
        } => is_some_number(*number) && is_some_number(*ticket) && *epoch < LATE,
        SiteRecord::Local { number, .. } => is_some_number(*number),
        SiteRecord::Checkpoint(sum) => sum_is_below(sum),
        _ => true,
    }
}

/// Whether all records have.
pub(crate) fn are_below(records: &[SiteRecord]) -> bool
    ensures { result ≡ each_of tests.is_below records.now }
{
    for entry in records {
        if !is_below(entry) {
            return false;
        }
    }
    true
}
