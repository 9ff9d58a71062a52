//! The Checkpoint of the coordinator: what all its records say, forced to its disk; and what stood before it is trimmed.
ghost use Rattle.std.specs.Prelude.{◌≡◌, IfErr, IfOk, IsTrue};
ghost use Rattle.mdb_base.specs.Counts.{HasCauseOf};
ghost use Rattle.coord_core.specs.Stands.{Stands};
ghost use Rattle.coord_core.specs.Steps.{CanStep, FailsOn, SomePast, StepsOn};

use crate::coord::{CoordCore, silent};
use actor_store::{Break, Standing, StepErr};
use coord_journal::{CoordJournal, CoordRecord, is_large};
use fed_rules::{Answer, CoordEvent, CoordStep};
use global_exec::TakePolicy;
use journal_disk::Disk;
use journal_sums::read_coord_sum;
use std::alloc::Global;

impl<P: TakePolicy> CoordCore<P> {
    /// Forces a Checkpoint and trims what stands before it, unless it would be too long.
    pub(crate) fn check<D: Disk>(
        &mut self,
        alloc: Global,
        disk: &mut D,
    ) -> Result<CoordStep, StepErr>
        requires told { IsTrue D.tells }
        requires up { self.old.store.standing ≡ Standing.Up }
        requires may { SomePast (Stands P.policy D.tells self.old (D.seen disk.old)) (CanStep CoordEvent.Check) }
        ensures answered { IfOk result (StepsOn P.policy D.tells self.old (D.seen disk.old) self.new (D.seen disk.new) CoordEvent.Check) }
        ensures failed { IfErr result (FailsOn P.policy D.tells self.old (D.seen disk.old) self.new (D.seen disk.new) CoordEvent.Check) }
        ensures cause { HasCauseOf StepErr.Disk (D.seen disk.old).faults (D.seen disk.new).faults result }
    {
        let Ok(sum) = read_coord_sum(alloc, &self.protocols, self.store.records()) else {
            return Err(StepErr::Memory);
        };
        let entry = CoordRecord::Checkpoint(sum);
        if is_large(&entry) {
            drop(entry);
            return Ok(silent(alloc, Answer::Large));
        }
        let bytes = CoordJournal::frame_len(&entry);
        let Ok(()) = self.store.make_room(alloc, disk, 1, bytes) else {
            drop(entry);
            return Err(StepErr::Memory);
        };
        match self.store.check(disk, entry) {
            Ok(()) => Ok(silent(alloc, Answer::Checked)),
            Err(Break::Stopped(kept)) => Ok(silent(alloc, Answer::Stopped(kept))),
            Err(Break::Failed) => Err(StepErr::Disk),
        }
    }
}
