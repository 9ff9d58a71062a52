//! What refuses the sealing of a run.
ghost use Rattle.std.specs.Prelude.{◌≡◌};
ghost use Rattle.validation_engine.specs.Rule.{ended_since as ended_after, spoiler_of, lower_of, least_bad_of, moved_in, seal_stop_by};

use crate::index::{Ended, Index};
use mdb_base::{Key, Tid, Why};
use run_book::{Counters, Granted, HeldRun, Rival};

/// A key that is bad for a run, and the transaction that makes it so.
#[derive(Clone, Copy, Debug, PartialEq, Eq)]
pub struct Bad {
    pub key: Key,
    pub by: Tid,
}

/// A writer that ended by commit, where it ended since a run of this age began.
fn ended_since(age: u64, last: Option<Ended>) -> Option<Rival>
    ensures { result ≡ ended_after age last }
{
    match last {
        Some(ended) if ended.moment >= age => Some(Rival {
            tid: ended.tid,
            rank: ended.number,
        }),
        _ => None,
    }
}

/// Who makes the key of an access bad for a live run of this age: the sealed writer, and of a key that was read the last one that
/// ended since the run began.
fn spoiler(index: &Index, age: u64, access: &Granted) -> Option<Rival>
    ensures { result ≡ spoiler_of index.now age access.now }
{
    let writers = index.writers(access.key());
    if writers.sealed.is_some() || access.written_row().is_some() {
        return writers.sealed;
    }
    ended_since(age, writers.last)
}

/// The one of the lower key, the first of two alike.
fn lower(bad: Bad, other: Option<Bad>) -> Bad
    ensures { result ≡ lower_of bad other }
{
    match other {
        Some(other) if other.key.0 < bad.key.0 => other,
        _ => bad,
    }
}

/// The least of the keys of a live run that are bad, with who makes it so.
fn least_bad(index: &Index, run: &HeldRun) -> Option<Bad>
    ensures { result ≡ least_bad_of (spoiler_of index.now run.now.run.age) run.now.run.acts }
{
    let age = run.age();
    let mut least = None;
    for access in run.accesses() {
        if let Some(by) = spoiler(index, age, access) {
            let bad = Bad {
                key: access.key(),
                by: by.tid,
            };
            least = Some(lower(bad, least));
        }
    }
    least
}

/// Whose ticket was published since this one was taken, if another one was.
fn moved(counters: Counters, ticket: Option<u64>) -> Option<Why>
    ensures { result ≡ moved_in counters ticket }
{
    if counters.published.checked_add(1) == Some(ticket?) {
        return None;
    }
    Some(Why::TicketMoved {
        by: counters.owner?,
    })
}

/// What refuses the sealing of a live run, if anything: it is invalid, or its ticket isn't the next one any more.
pub(crate) fn seal_stop(index: &Index, counters: Counters, run: &HeldRun) -> Option<Why>
    ensures { result ≡ seal_stop_by index.now counters run.now.run }
{
    match least_bad(index, run) {
        Some(bad) => Some(Why::Invalid {
            by: bad.by,
            key: bad.key,
        }),
        None => moved(counters, run.ticket()),
    }
}
