//! A session of a coordinator in which a disk call fails: it starts again, and is asked the same once more.
ghost use Rattle.actor_tests.specs.OfThree.{IsOfThree};

use crate::coordinator::{Deed, does, manager_on};
use fed_rules::CoordRecord;
use global_exec::{Always, TakePolicy};
use global_manager::{GlobalManager, StepErr};
use journal_disk::MemDisk;
use mdb_base::Memory;
use std::alloc::Global;
use std::test::Fail;

/// One attempt commits at two sites, a Checkpoint is written between its decision and its end, and another one is given up once it may be prepared;
/// the stop tears its End. Behind the start it is forgotten again, and a third one commits where commit is presumed. In the end come the
/// acknowledgements that are still due where a call failed.
const SESSION: [Deed; 30] = [
    Deed::Go(1),
    Deed::Did(1, 1),
    Deed::Ticket(1, 1, 1),
    Deed::Votes(1, 1, 1),
    Deed::Did(2, 1),
    Deed::Again(1),
    Deed::Ticket(2, 1, 1),
    Deed::Votes(2, 1, 1),
    Deed::Check,
    Deed::Acks(1, 1),
    Deed::Acks(2, 1),
    Deed::Go(2),
    Deed::Did(1, 2),
    Deed::Ticket(1, 2, 2),
    Deed::Late(2),
    Deed::Again(2),
    Deed::Acks(1, 2),
    Deed::Halt(10),
    Deed::Back,
    Deed::Again(2),
    Deed::Acks(1, 2),
    Deed::Go(3),
    Deed::Did(3, 3),
    Deed::Again(3),
    Deed::Ticket(3, 3, 1),
    Deed::Votes(3, 3, 1),
    Deed::Acks(1, 1),
    Deed::Acks(2, 1),
    Deed::Acks(3, 3),
    Deed::Check,
];

// Whether two records say the same of one attempt.
fn are_of_one(a: &CoordRecord, b: &CoordRecord) -> bool {
    match (a, b) {
        (CoordRecord::Initiation { tid, .. }, CoordRecord::Initiation { tid: other, .. }) => {
            tid == other
        }
        (CoordRecord::Commit { tid, .. }, CoordRecord::Commit { tid: other, .. }) => tid == other,
        (CoordRecord::Abort { tid, .. }, CoordRecord::Abort { tid: other, .. }) => tid == other,
        (CoordRecord::End { tid }, CoordRecord::End { tid: other }) => tid == other,
        _ => false,
    }
}

// Whether some of these records say the same of one attempt.
fn stand_twice(records: &[CoordRecord]) -> bool {
    for record in records {
        let mut count: u32 = 0;
        for other in records {
            if are_of_one(record, other) {
                count = count.saturating_add(1);
            }
        }
        if count > 1 {
            return true;
        }
    }
    false
}

// Whether these are a Checkpoint alone, with nothing open.
fn are_settled(records: &[CoordRecord]) -> bool {
    match records.first() {
        Some(CoordRecord::Checkpoint(sum)) => sum.open_attempts.is_empty() && records.len() == 1,
        _ => false,
    }
}

// Whether a disk call fails where the coordinator is asked this.
fn fails<P: TakePolicy>(
    alloc: Global,
    manager: &mut GlobalManager<P>,
    disk: &mut MemDisk,
    deed: Deed,
) -> Result<bool, Memory>
    requires { IsOfThree P.policy manager.old disk.old }
    ensures { IsOfThree P.policy manager.new disk.new }
{
    match does(manager, alloc, disk, deed) {
        Ok(()) => Ok(false),
        Err(StepErr::Disk) => Ok(true),
        Err(StepErr::Memory) => Err(Memory),
    }
}

// The coordinator starts again, and is asked this once more. Whether no disk call fails, and no record stands twice then.
fn goes_on<P: TakePolicy>(
    alloc: Global,
    manager: &mut GlobalManager<P>,
    disk: &mut MemDisk,
    deed: Deed,
) -> Result<bool, Memory>
    requires { IsOfThree P.policy manager.old disk.old }
    ensures { IsOfThree P.policy manager.new disk.new }
{
    let stopped = fails(alloc, manager, disk, Deed::Back)?;
    let failed = fails(alloc, manager, disk, deed)?;
    Ok(!stopped && !failed && !stand_twice(manager.core().records()))
}

// Asks the coordinator each of these, and what a failed disk call stopped again behind a start. Gives how often one failed, unless the coordinator
// didn't go on then, or leaves something open in the end.
fn asks_each<P: TakePolicy>(
    alloc: Global,
    manager: &mut GlobalManager<P>,
    disk: &mut MemDisk,
) -> Result<Option<u32>, Memory>
    requires { IsOfThree P.policy manager.old disk.old }
{
    let mut failed: u32 = 0;
    for deed in &SESSION {
        if fails(alloc, manager, disk, *deed)? {
            failed = failed.saturating_add(1);
            if !goes_on(alloc, manager, disk, *deed)? {
                return Ok(None);
            }
        }
    }
    if are_settled(manager.core().records()) {
        return Ok(Some(failed));
    }
    Ok(None)
}

// How often a disk call failed in the session of a new coordinator whose disk call of this number fails.
fn failed_in(alloc: Global, call: u32) -> Result<Option<u32>, Fail> {
    let mut disk = MemDisk::failing(alloc, &[call])?;
    let mut manager = manager_on(alloc, &disk, Always)?;
    let failed = asks_each(alloc, &mut manager, &mut disk);
    drop(manager);
    Ok(failed?)
}

/// 21 calls fail, each in a session of its own. The first attempt makes 5, by an Initiation, a Commit and an End, and the Checkpoint within it 3; the
/// second one makes 3, by an Abort and an End; the start reads the disk and cuts the torn End, which is then appended again; the third one makes 4, and
/// the last Checkpoint 3.
#[test]
fn a_coordinator_whose_disk_call_failed_is_asked_again(rt: HostRuntime) -> Result<(), Fail> {
    for call in 1..=22_u32 {
        let failed = failed_in(rt.alloc(), call)?;
        assert_eq!(rt; failed, Some(u32::from(call < 22)), "{call}");
    }
    Ok(())
}
