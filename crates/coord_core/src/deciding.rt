//! Decisions: what is recorded of one, and what is left of the attempt.
ghost use Rattle.std.specs.Prelude.{◌≡◌, ◌+◌, true, IfErr, IfOk, IsTrue};
ghost use Rattle.mdb_base.specs.Counts.{HasCauseOf};
ghost use Rattle.fed_rules.specs.declared.events.CoordEvent.{CoordEvent as TheEvent};
ghost use Rattle.fed_rules.specs.CoordPast.{CoordPast, is_open};
ghost use Rattle.coord_tables.specs.Deciding.{IsAborting};
ghost use Rattle.coord_core.specs.Stands.{Fails, Stands, Steps, calls_for};
ghost use Rattle.coord_core.specs.Steps.{CanStep, FailsOn, SomePast, StepsOn};
ghost use Rattle.coord_tables.specs.Terms.{Terms, line_of};

use crate::coord::{CoordCore, says};
use crate::ending::room_for;
use actor_store::{Standing, StepErr};
use fed_rules::{Answer, Cause, CoordEvent, CoordStep};
use global_exec::TakePolicy;
use journal_disk::Disk;
use mdb_base::{Memory, Tid};
use presumptions::Decision;
use std::alloc::Global;

impl<P: TakePolicy> CoordCore<P> {
    /// Decides an undecided attempt abort, for this cause, and drops from the graph what its tickets held. Its Abort record is forced, where
    /// it has one.
    pub(crate) fn abort<D: Disk>(
        &mut self,
        alloc: Global,
        disk: &mut D,
        tid: Tid,
        cause: Cause,
    ) -> Result<CoordStep, StepErr>
        requires told { IsTrue D.tells }
        requires up { self.old.store.standing ≡ Standing.Up }
        requires may { SomePast (Stands P.policy D.tells self.old (D.seen disk.old)) (λ terms past. is_open past tid ≡ true) }
        ensures answered { IfOk result (λ step. (terms : Terms) (past : CoordPast) (event : TheEvent) → Stands P.policy D.tells self.old (D.seen disk.old) terms past
            → IsAborting terms past event tid cause → Steps P.policy D.tells 0 (D.seen disk.old) step self.new (D.seen disk.new) terms past (line_of terms past event)) }
        ensures failed { IfErr result (λ why. (terms : Terms) (past : CoordPast) (event : TheEvent) → Stands P.policy D.tells self.old (D.seen disk.old) terms past
            → IsAborting terms past event tid cause → Fails P.policy D.tells (0 + calls_for terms past event) (D.seen disk.old) why self.new (D.seen disk.new) terms past event) }
        ensures cause { HasCauseOf StepErr.Disk (D.seen disk.old).faults (D.seen disk.new).faults result }
    {
        let Ok(sends) = self.tables.decisions(alloc, tid, Decision::Abort) else {
            drop(cause);
            return Err(StepErr::Memory);
        };
        let Ok(entry) = self.tables.abort_record(alloc, tid) else {
            drop(cause);
            drop(sends);
            return Err(StepErr::Memory);
        };
        let Ok(()) = room_for(&mut self.store, alloc, disk, &entry) else {
            drop(cause);
            drop(sends);
            drop(entry);
            return Err(StepErr::Memory);
        };
        let first = entry.is_some();
        let forgets = self.tables.decide(tid, Decision::Abort, first);
        self.tables.prune();
        let answer = Answer::Decides {
            decision: Decision::Abort,
            cause: Some(cause),
            forgets,
        };
        self.end(alloc, disk, entry, CoordStep { answer, sends })
    }

    /// An undecided attempt is given up.
    pub(crate) fn late<D: Disk>(
        &mut self,
        alloc: Global,
        disk: &mut D,
        tid: Tid,
    ) -> Result<CoordStep, StepErr>
        requires told { IsTrue D.tells }
        requires up { self.old.store.standing ≡ Standing.Up }
        requires may { SomePast (Stands P.policy D.tells self.old (D.seen disk.old)) (CanStep (CoordEvent.Late tid)) }
        ensures answered { IfOk result (StepsOn P.policy D.tells self.old (D.seen disk.old) self.new (D.seen disk.new) (CoordEvent.Late tid)) }
        ensures failed { IfErr result (FailsOn P.policy D.tells self.old (D.seen disk.old) self.new (D.seen disk.new) (CoordEvent.Late tid)) }
        ensures cause { HasCauseOf StepErr.Disk (D.seen disk.old).faults (D.seen disk.new).faults result }
    {
        if self.tables.is_open(tid) {
            self.abort(alloc, disk, tid, Cause::Late)
        } else {
            says(alloc, Answer::Idle)
        }
    }
}
