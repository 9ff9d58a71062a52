//! The start of a coordinator that is down.
ghost use Rattle.std.specs.Prelude.{◌≡◌, false, IfErr, IfOk, IsTrue};
ghost use Rattle.mdb_base.specs.Counts.{HasCauseOf};
ghost use Rattle.actor_store.specs.Store.{is_up, stored, uncounted};
ghost use Rattle.coord_core.specs.Stands.{Stands};
ghost use Rattle.coord_core.specs.Steps.{CanStep, FailsBeside, FailsOn, SomePast, StepsBeside, StepsOn};

use crate::coord::{CoordCore, silent};
use actor_store::{Break, StepErr};
use fed_rules::{Answer, CoordEvent, CoordStep};
use global_exec::TakePolicy;
use journal_disk::Disk;
use journal_sums::read_coord_sum;
use std::alloc::Global;

impl<P: TakePolicy> CoordCore<P> {
    /// Starts a coordinator that is down: it reads its records again, knows the attempts of which something is required, and keeps the
    /// tickets of all committed ones. A failed read disarms the trip, as a stop does.
    pub(crate) fn back<D: Disk>(
        &mut self,
        alloc: Global,
        disk: &mut D,
    ) -> Result<CoordStep, StepErr>
        requires told { IsTrue D.tells }
        requires down { is_up self.old.store.standing ≡ false }
        requires may { SomePast (Stands P.policy D.tells self.old (D.seen disk.old)) (CanStep CoordEvent.Back) }
        ensures answered { IfOk result (StepsOn P.policy D.tells self.old (D.seen disk.old) self.new (D.seen disk.new) CoordEvent.Back) }
        ensures failed { IfErr result (FailsOn P.policy D.tells self.old (D.seen disk.old) self.new (D.seen disk.new) CoordEvent.Back) }
        ensures cause { HasCauseOf StepErr.Disk (D.seen disk.old).faults (D.seen disk.new).faults result }
    {
        match self.store.reload(alloc, disk) {
            Ok(()) => self.come_up(alloc, disk),
            Err(StepErr::Memory) => Err(StepErr::Memory),
            Err(StepErr::Disk) => {
                self.store.trip = None;
                Err(StepErr::Disk)
            }
        }
    }

    /// Comes up with what the records in memory say: the tables first, and then the disk, of which a torn rest is cut back.
    fn come_up<D: Disk>(&mut self, alloc: Global, disk: &mut D) -> Result<CoordStep, StepErr>
        requires told { IsTrue D.tells }
        requires down { is_up self.old.store.standing ≡ false }
        requires may { SomePast (Stands P.policy D.tells self.old (D.seen disk.old)) (CanStep CoordEvent.Back) }
        ensures answered { IfOk result (StepsBeside P.policy D.tells self.old (D.seen disk.old) self.new (D.seen disk.new) (uncounted (stored self.old.store)) (CanStep CoordEvent.Back) CoordEvent.Back) }
        ensures failed { IfErr result (FailsBeside P.policy D.tells self.old (D.seen disk.old) self.new (D.seen disk.new) (uncounted (stored self.old.store)) (CanStep CoordEvent.Back) CoordEvent.Back) }
        ensures cause { HasCauseOf StepErr.Disk (D.seen disk.old).faults (D.seen disk.new).faults result }
    {
        let Ok(sum) = read_coord_sum(alloc, &self.protocols, self.store.records()) else {
            return Err(StepErr::Memory);
        };
        let Ok(()) = self.tables.restart(alloc, &sum) else {
            drop(sum);
            return Err(StepErr::Memory);
        };
        drop(sum);
        let known = self.tables.known.len() as u32;
        match self.store.open(disk) {
            Ok(()) => Ok(silent(alloc, Answer::UpCoord { known })),
            Err(Break::Stopped(kept)) => Ok(silent(alloc, Answer::Stopped(kept))),
            Err(Break::Failed) => Err(StepErr::Disk),
        }
    }
}
