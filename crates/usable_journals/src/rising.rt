//! The lists of a Checkpoint stand by rising attempt.
ghost use Rattle.std.specs.Prelude.{◌≡◌, None};
ghost use Rattle.mdb_base.specs.Words.{each_of};
ghost use Rattle.usable_journals.specs.CoordTests as coord_tests;
ghost use Rattle.usable_journals.specs.Rising as tests;
ghost use Rattle.usable_journals.specs.Rising.{rises};

use fed_rules::{CommittedAttempt, CoordRecord, CoordSum, DoubtfulSum, OpenAttempt};
use mdb_base::Tid;

/// Whether the attempt stands behind the last one, if there is one.
fn is_behind(last: Option<Tid>, tid: Tid) -> bool
    ensures { result ≡ tests.is_behind last tid }
{
    match last {
        Some(last) => last < tid,
        None => true,
    }
}

/// Whether open attempts rise.
fn open_rise(attempts: &[OpenAttempt]) -> bool
    ensures { result ≡ rises (λ attempt. attempt.tid) None attempts.now }
{
    let mut last = None;
    for attempt in attempts {
        if !is_behind(last, attempt.tid) {
            return false;
        }
        last = Some(attempt.tid);
    }
    true
}

/// Whether committed attempts rise.
fn committed_rise(attempts: &[CommittedAttempt]) -> bool
    ensures { result ≡ rises (λ attempt. attempt.tid) None attempts.now }
{
    let mut last = None;
    for attempt in attempts {
        if !is_behind(last, attempt.tid) {
            return false;
        }
        last = Some(attempt.tid);
    }
    true
}

/// Whether those in doubt rise.
pub(crate) fn doubtful_rise(doubtful: &[DoubtfulSum]) -> bool
    ensures { result ≡ rises (λ held. held.tid) None doubtful.now }
{
    let mut last = None;
    for held in doubtful {
        if !is_behind(last, held.tid) {
            return false;
        }
        last = Some(held.tid);
    }
    true
}

/// Whether attempts rise.
pub(crate) fn tids_rise(tids: &[Tid]) -> bool
    ensures { result ≡ rises (λ tid. tid) None tids.now }
{
    let mut last = None;
    for tid in tids {
        if !is_behind(last, *tid) {
            return false;
        }
        last = Some(*tid);
    }
    true
}

/// Whether both lists of the coordinator's Checkpoint rise.
fn sum_rises(sum: &CoordSum) -> bool
    ensures { result ≡ coord_tests.sum_rises sum.now }
{
    if !open_rise(sum.open_attempts.as_slice()) {
        return false;
    }
    committed_rise(sum.committed.as_slice())
}

/// Whether it is so in the record, if it is a Checkpoint.
fn is_rising(entry: &CoordRecord) -> bool
    ensures { result ≡ coord_tests.is_rising entry.now }
{
    match entry {
        CoordRecord::Checkpoint(sum) => sum_rises(sum),
        _ => true,
    }
}

/// Whether it is so in each Checkpoint among the coordinator's records.
pub(crate) fn sums_rise(records: &[CoordRecord]) -> bool
    ensures { result ≡ each_of coord_tests.is_rising records.now }
{
    for entry in records {
        if !is_rising(entry) {
            return false;
        }
    }
    true
}
