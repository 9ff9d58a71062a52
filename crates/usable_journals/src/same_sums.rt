//! Whether two sums of a site are the same, list by list.
ghost use Rattle.std.specs.Prelude.{◌≡◌, ◌↔◌, IsTrue};
ghost use Rattle.std.specs.Cmp.Lexicographic.{pointwise};
ghost use Rattle.mdb_base.specs.Names.{same_tid};
ghost use Rattle.usable_journals.specs.SiteReads as reads;
ghost use Rattle.usable_journals.specs.SiteReads.{HasSameLists, HasSameMarks, IsSameHome};

use fed_rules::{DoubtfulSum, SiteSum};
use mdb_base::{Put, Tid};

/// Whether both lists of rows are the same.
fn rows_match(one: &[Put], other: &[Put]) -> bool
    ensures { result ≡ pointwise reads.same_put one.now other.now }
{
    let mut rest = other;
    for put in one {
        let Some((next, behind)) = rest.split_first() else {
            return false;
        };
        if *put != *next {
            return false;
        }
        rest = behind;
    }
    rest.is_empty()
}

/// Whether both lists of attempts are the same.
fn tids_match(one: &[Tid], other: &[Tid]) -> bool
    ensures { result ≡ pointwise same_tid one.now other.now }
{
    let mut rest = other;
    for tid in one {
        let Some((next, behind)) = rest.split_first() else {
            return false;
        };
        if *tid != *next {
            return false;
        }
        rest = behind;
    }
    rest.is_empty()
}

/// Whether both are the same subtransaction in doubt.
fn is_same_held(one: &DoubtfulSum, other: &DoubtfulSum) -> bool
    ensures { result ≡ reads.same_held one.now other.now }
{
    one.tid == other.tid
        && one.epoch == other.epoch
        && one.number == other.number
        && one.ticket == other.ticket
        && rows_match(one.writes.as_slice(), other.writes.as_slice())
}

/// Whether both lists of those in doubt are the same.
fn doubts_match(one: &[DoubtfulSum], other: &[DoubtfulSum]) -> bool
    ensures { result ≡ pointwise reads.same_held one.now other.now }
{
    let mut rest = other;
    for held in one {
        let Some((next, behind)) = rest.split_first() else {
            return false;
        };
        if !is_same_held(held, next) {
            return false;
        }
        rest = behind;
    }
    rest.is_empty()
}

/// Whether both are of one site with one engine and one protocol.
fn is_same_home(one: &SiteSum, other: &SiteSum) -> bool
    ensures { IsTrue result ↔ IsSameHome one.now other.now }
{
    if one.site != other.site {
        return false;
    }
    if one.engine != other.engine {
        return false;
    }
    one.protocol == other.protocol
}

/// Whether both count the same.
fn has_same_marks(one: &SiteSum, other: &SiteSum) -> bool
    ensures { IsTrue result ↔ HasSameMarks one.now other.now }
{
    if one.epoch != other.epoch {
        return false;
    }
    if one.counter != other.counter {
        return false;
    }
    if one.published != other.published {
        return false;
    }
    one.owner == other.owner
}

/// Whether both have the same rows, the same local attempts and the same ones in doubt.
fn has_same_lists(one: &SiteSum, other: &SiteSum) -> bool
    ensures { IsTrue result ↔ HasSameLists one.now other.now }
{
    if !rows_match(one.rows.as_slice(), other.rows.as_slice()) {
        return false;
    }
    if !tids_match(one.locals.as_slice(), other.locals.as_slice()) {
        return false;
    }
    doubts_match(one.doubtful.as_slice(), other.doubtful.as_slice())
}

/// Whether both are the same sum.
pub(crate) fn is_same_sum(one: &SiteSum, other: &SiteSum) -> bool
    ensures { IsTrue result ↔ (one.now ≡ other.now) }
{
    if !is_same_home(one, other) {
        return false;
    }
    if !has_same_marks(one, other) {
        return false;
    }
    has_same_lists(one, other)
}
