//! New attempts of global transactions.
ghost use Rattle.std.specs.Prelude.{◌≡◌, Bool, IfErr, IfOk, OnErr};
ghost use Rattle.journal_disk.specs.Disk.{Seen};
ghost use Rattle.coord_tables.specs.Beginning.{CanBegin};
ghost use Rattle.coord_core.specs.Stands.{Holds, Stands};
ghost use Rattle.coord_core.specs.Steps.{CanStep, EachPast, FailsOn, SomePast, StepsOn, StepsWhere};

use crate::coord::{CoordCore, says};
use actor_store::{Standing, StepErr};
use coord_tables::{Count, Stage, participants_in, sites_of};
use fed_rules::{Answer, CoordEvent, CoordStep};
use global_exec::TakePolicy;
use mdb_base::{Program, Tid};
use std::alloc::Global;

impl<P: TakePolicy> CoordCore<P> {
    /// Begins an attempt of a transaction that has no committed and no undecided one, and sends its first work.
    fn begin(&mut self, alloc: Global, tid: Tid, program: Program) -> Result<CoordStep, StepErr>
        requires up { self.old.store.standing ≡ Standing.Up }
        requires may { SomePast (Holds P.policy self.old) (CanBegin tid program) }
        ensures answered { IfOk result (λ step. (tells : Bool) (seen : Seen) → StepsWhere P.policy tells self.old seen self.new seen (CanBegin tid program) (CoordEvent.Go tid program) step) }
        ensures memory { OnErr result ((tells : Bool) (seen : Seen) → EachPast (Stands P.policy tells self.old seen) (Stands P.policy tells self.new seen)) }
        ensures why { IfErr result (λ why. why ≡ StepErr.Memory) }
    {
        let sites = sites_of(program.steps());
        let Ok(members) = participants_in(alloc, &self.protocols, program.steps()) else {
            return Err(StepErr::Memory);
        };
        let Ok(()) = self.begun.reserve(tid.tx) else {
            return Err(StepErr::Memory);
        };
        let stage = Stage::fresh(tid, sites);
        let Ok(sends) = self.tables.begin(alloc, stage, &members, program) else {
            return Err(StepErr::Memory);
        };
        self.begun.note(Count {
            tx: tid.tx,
            attempts: tid.attempt + 1,
        });
        Ok(CoordStep {
            answer: Answer::Begun(tid),
            sends,
        })
    }

    /// A global attempt is submitted: it begins, unless its transaction has committed or has an undecided attempt, and its first work is sent.
    pub(crate) fn go(
        &mut self,
        alloc: Global,
        tid: Tid,
        program: Program,
    ) -> Result<CoordStep, StepErr>
        requires up { self.old.store.standing ≡ Standing.Up }
        requires may { SomePast (Holds P.policy self.old) (CanStep (CoordEvent.Go tid program)) }
        ensures answered { IfOk result (λ step. (tells : Bool) (seen : Seen) → StepsOn P.policy tells self.old seen self.new seen (CoordEvent.Go tid program) step) }
        ensures memory { OnErr result ((tells : Bool) (seen : Seen) → FailsOn P.policy tells self.old seen self.new seen (CoordEvent.Go tid program) StepErr.Memory) }
        ensures why { IfErr result (λ why. why ≡ StepErr.Memory) }
    {
        match self.tables.committed.last_of(tid.tx) {
            Some(committed) => says(alloc, Answer::Committed(committed)),
            None => match self.tables.stages.last_of(tid.tx) {
                Some(running) => says(alloc, Answer::Running(running)),
                None => self.begin(alloc, tid, program),
            },
        }
    }
}
