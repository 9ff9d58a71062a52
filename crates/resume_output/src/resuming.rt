//! A session that goes on from nine disks.
ghost use Rattle.std.specs.Prelude.{◌≡◌, IsTrue, length, map};
ghost use Rattle.world_recovery.specs.Reopening.{AreSynced};
ghost use Rattle.found_disks.specs.Reading.{images_of};
ghost use Rattle.resume_output.specs.Resumes as resumes;
ghost use Rattle.resume_output.specs.Resumes.{GoesOnFromLeft, ResumesAs};
ghost use Rattle.resume_output.specs.Sizes as sizes;

use crate::printing::printed;
use closing::close;
use fed_world::{World, WorldErr};
use found_disks::{ReopenErr, found_sessions_begin_shortly};
use journal_disk::Disk;
use left_disks::{left_disks_are_accepted, left_disks_go_on};
use line_laws::{resumed_lines_fit, sessions_close_heard};
use mdb_base::Memory;
use outputs::{Output, broken};
use std::alloc::Global;
use world_recovery::Reopen;

/// The most bytes of a journal from which a session goes on.
const LONGEST_JOURNAL: u64 = 67_108_864;

/// Whether each journal is short enough.
fn are_small<D: Disk>(disks: &[D]) -> bool
    ensures { result ≡ sizes.are_small (map D.seen disks.now) }
{
    disks.iter().all(|disk| disk.len() <= LONGEST_JOURNAL)
}

/// What was made, or why nothing was.
fn answered(made: Result<Output, Memory>) -> Result<Output, ReopenErr>
    ensures { result ≡ resumes.answered made }
{
    match made {
        Ok(output) => Ok(output),
        Err(Memory) => Err(ReopenErr::Memory),
    }
}

/// What is to be put of a session that goes on from nine disks, of which disk a is that of actor a: every actor with a journal comes back,
/// and the session is closed. The output is its lines and what is reported of it, or the lines made before a disk call failed, and which
/// disk. A session doesn't go on where a journal is damaged, or isn't one that a session leaves: the least such disk is named. A disk with
/// more than 67,108,864 bytes finds no memory. (This project's profile.)
#[tactic(none)]
pub fn resume_output_of<D: Disk>(alloc: Global, disks: &mut Vec<D>) -> Result<Output, ReopenErr>
    requires told { IsTrue D.tells }
    requires nine { length disks.old.items ≡ 9 }
    requires synced { AreSynced (images_of (map D.seen disks.old.items)) }
    ensures output { ResumesAs D.seen result (map D.seen disks.old.items) (map D.seen disks.new.items) }
    ensures left { GoesOnFromLeft result (map D.seen disks.old.items) }
    ensures nine { length disks.new.items ≡ 9 }
{
    left_disks_are_accepted();
    left_disks_go_on();
    resumed_lines_fit();
    sessions_close_heard();
    found_sessions_begin_shortly();
    if !are_small(disks.as_slice()) {
        return Err(ReopenErr::Memory);
    }
    match World::reopen(alloc, disks) {
        Ok(mut world) => match close(alloc, &mut world, disks) {
            Ok(()) => answered(printed(alloc, &world)),
            Err(WorldErr::Disk { number }) => answered(broken(alloc, world.lines(), number)),
            Err(WorldErr::Memory) => Err(ReopenErr::Memory),
        },
        Err(why) => Err(why),
    }
}
