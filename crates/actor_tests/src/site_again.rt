//! A session of a site in which a disk call fails: the site starts again, and is asked the same once more.
ghost use Rattle.std.specs.Prelude.{◌≤◌, ◌+◌, OnOk};
ghost use Rattle.actor_tests.specs.OfLines.{IsOfLines};

use crate::site::{Deed, asks, local_site};
use any_engine::AnyEngine;
use fed_rules::SiteRecord;
use journal_disk::MemDisk;
use local_dbms::{LocalDbms, StepErr};
use mdb_base::{Engine, Key, Memory, Put};
use presumptions::Decision;
use std::alloc::Global;
use std::test::Fail;

/// A subtransaction is prepared, and aborts. Each local is carried to its commit twice, so that it commits in one of the two, and a Checkpoint
/// and a stop come between them.
const SESSION: [Deed; 22] = [
    Deed::Work,
    Deed::Take,
    Deed::Prepare,
    Deed::Decide(Decision::Abort),
    Deed::Begin(1),
    Deed::Step(1),
    Deed::Commit(1),
    Deed::Begin(1),
    Deed::Step(1),
    Deed::Commit(1),
    Deed::Check,
    Deed::Begin(2),
    Deed::Step(2),
    Deed::Step(2),
    Deed::Commit(2),
    Deed::Begin(2),
    Deed::Step(2),
    Deed::Step(2),
    Deed::Commit(2),
    Deed::Halt,
    Deed::Back,
    Deed::Check,
];

/// What the locals leave.
const ROWS: [Put; 2] = [
    Put {
        key: Key(5),
        value: 7,
    },
    Put {
        key: Key(6),
        value: 1,
    },
];

// Whether two records are of one thing: the set-up, a start, or what became of an attempt.
fn are_of_one(a: &SiteRecord, b: &SiteRecord) -> bool {
    match (a, b) {
        (SiteRecord::Setup { .. }, SiteRecord::Setup { .. }) => true,
        (SiteRecord::Start { epoch }, SiteRecord::Start { epoch: other }) => epoch == other,
        (SiteRecord::Prepared { tid, .. }, SiteRecord::Prepared { tid: other, .. }) => tid == other,
        (SiteRecord::Ended { tid, .. }, SiteRecord::Ended { tid: other, .. }) => tid == other,
        (SiteRecord::Local { tid, .. }, SiteRecord::Local { tid: other, .. }) => tid.tx == other.tx,
        _ => false,
    }
}

// Whether some of these records are of one thing: a commit, say, that stands twice.
fn stand_twice(records: &[SiteRecord]) -> bool {
    for record in records {
        let mut count: u32 = 0;
        for other in records {
            if are_of_one(record, other) {
                count = count.saturating_add(1);
            }
        }
        if count > 1 {
            return true;
        }
    }
    false
}

// Whether a disk call fails where the site is asked this.
fn fails(
    alloc: Global,
    dbms: &mut LocalDbms<AnyEngine>,
    disk: &mut MemDisk,
    lines: u32,
    deed: Deed,
) -> Result<bool, Memory>
    requires few { lines ≤ 1000 }
    requires stood { IsOfLines lines dbms.old disk.old }
    ensures { IsOfLines (lines + 2) dbms.new disk.new }
{
    match asks(dbms, alloc, disk, lines, deed) {
        Ok(step) => {
            drop(step);
            Ok(false)
        }
        Err(StepErr::Disk) => Ok(true),
        Err(StepErr::Memory) => Err(Memory),
    }
}

// The site starts again, and is asked this once more. Whether no disk call fails, and no record stands twice then.
fn goes_on(
    alloc: Global,
    dbms: &mut LocalDbms<AnyEngine>,
    disk: &mut MemDisk,
    lines: u32,
    deed: Deed,
) -> Result<bool, Memory>
    requires few { lines ≤ 990 }
    requires stood { IsOfLines lines dbms.old disk.old }
    ensures { OnOk result (IsOfLines (lines + 4) dbms.new disk.new) }
{
    let stopped = fails(alloc, dbms, disk, lines, Deed::Back)?;
    let failed = fails(alloc, dbms, disk, lines + 2, deed)?;
    Ok(!stopped && !failed && !stand_twice(dbms.core().records()))
}

// Asks the site each of these, and what a failed disk call stopped again behind a start. Gives how often one failed, unless the site didn't go
// on then.
fn asks_each(
    alloc: Global,
    dbms: &mut LocalDbms<AnyEngine>,
    disk: &mut MemDisk,
) -> Result<Option<u32>, Memory>
    requires { IsOfLines 0 dbms.old disk.old }
{
    let mut lines: u32 = 0;
    let mut failed: u32 = 0;
    for deed in &SESSION {
        if lines > 900 {
            return Ok(None);
        }
        let stopped = fails(alloc, dbms, disk, lines, *deed)?;
        lines += 2;
        if stopped {
            failed = failed.saturating_add(1);
            if !goes_on(alloc, dbms, disk, lines, *deed)? {
                return Ok(None);
            }
            lines += 4;
        }
    }
    Ok(Some(failed))
}

// Whether the site is up, and has the rows that both transactions leave.
fn has_rows(alloc: Global, dbms: &LocalDbms<AnyEngine>) -> Result<bool, Memory> {
    let core = dbms.core();
    if core.is_down() {
        return Ok(false);
    }
    let rows = core.rows(alloc)?;
    Ok(rows.as_slice() == ROWS.as_slice())
}

// How often a disk call failed in the session of a new site whose disk call of this number fails, where it went on and has its rows in the end.
fn failed_in(alloc: Global, engine: Engine, call: u32) -> Result<Option<u32>, Fail> {
    let mut disk = MemDisk::failing(alloc, &[call])?;
    let mut dbms = local_site(alloc, &mut disk, engine)?;
    let failed = asks_each(alloc, &mut dbms, &mut disk);
    let has_rows = has_rows(alloc, &dbms);
    drop(dbms);
    if has_rows? { Ok(failed?) } else { Ok(None) }
}

/// 17 calls fail behind the three of the set-up, each in a session of its own, which ends with the rows of the one where none fails: 2 of the Prepared, the
/// Ended and each commit, 3 of each Checkpoint, and 3 of the start, which reads the disk.
#[test]
fn a_site_whose_disk_call_failed_is_asked_again(rt: HostRuntime) -> Result<(), Fail> {
    for engine in [
        Engine::Locking,
        Engine::Timestamp,
        Engine::Validation,
        Engine::Multiversion,
    ] {
        for call in 4..=21_u32 {
            let failed = failed_in(rt.alloc(), engine, call)?;
            assert_eq!(rt; failed, Some(u32::from(call < 21)), "{call}");
        }
    }
    Ok(())
}
