//! What is asked of a global transaction manager that it looks up before it submits an event to its core.
ghost use Rattle.std.specs.Prelude.{◌≡◌, [], IfErr, IfOk, IsOkAnd, IsTrue, List};
ghost use Rattle.mdb_base.specs.Counts.{HasCauseOf};
ghost use Rattle.mdb_base.specs.declared.acts.Step.{Step as TheStep};
ghost use Rattle.mdb_base.specs.declared.names.Tid.{Tid as TheTid};
ghost use Rattle.mdb_base.specs.Names.{same_tid};
ghost use Rattle.mdb_base.specs.Words.{some_of};
ghost use Rattle.fed_rules.specs.declared.events.CoordEvent.TheVariants as Ev;
ghost use Rattle.fed_rules.specs.CoordPast.{begun_tids};
ghost use Rattle.fed_rules.specs.Requests.{unless_begun};
ghost use Rattle.coord_tables.specs.Terms.{line_of};
ghost use Rattle.global_manager.specs.Asks.{CanAsk, FailsOn, ServesOn};
ghost use Rattle.global_manager.specs.Stands.{EachManaged, Recalls, SomeManaged, Stands};

use crate::asks::CoordAsk;
use crate::manager::GlobalManager;
use crate::programs::find;
use coord_core::StepErr;
use fed_rules::{Answer, CoordEvent, CoordStep, Sends};
use global_exec::TakePolicy;
use journal_disk::Disk;
use mdb_base::{Tid, Tx};
use std::alloc::Global;

/// How many attempts a transaction has.
const MOST_ATTEMPTS: u8 = 32;

/// An answer without an event, which sends nothing.
fn declined(alloc: Global, answer: Answer) -> Result<CoordStep, StepErr>
    ensures { IsOkAnd result (λ step. (step.answer ≡ answer) × (step.sends ≡ [])) }
{
    Ok(CoordStep {
        answer,
        sends: Sends::of(Vec::new(alloc)),
    })
}

impl<P: TakePolicy> GlobalManager<P> {
    /// What a `go` behind the last attempt of a transaction is answered: what the rule says to a `go`, but spent where one more attempt would
    /// begin.
    pub(crate) fn spent(&self, tx: Tx) -> Answer
        ensures { EachManaged (Recalls P.policy self.now) (λ terms programs past. (tid : TheTid) (steps : List TheStep) → tid.tx ≡ tx
            → result ≡ unless_begun (line_of terms past (Ev.Go tid steps)).answer) }
    {
        if self.core.is_down() {
            return Answer::Down;
        }
        if let Some(committed) = self.core.committed(tx) {
            return Answer::Committed(committed);
        }
        if let Some(running) = self.core.running(tx) {
            return Answer::Running(running);
        }
        Answer::Spent
    }

    /// Answers `go`: the next attempt of a global transaction is submitted with its program, unless all were begun.
    pub(crate) fn go<D: Disk>(
        &mut self,
        alloc: Global,
        disk: &mut D,
        tx: Tx,
    ) -> Result<CoordStep, StepErr>
        requires told { IsTrue D.tells }
        requires stood { SomeManaged (Stands P.policy D.tells self.old (D.seen disk.old)) (CanAsk (CoordAsk.Go tx)) }
        ensures served { IfOk result (ServesOn (Stands P.policy D.tells self.old (D.seen disk.old)) (Stands P.policy D.tells self.new (D.seen disk.new)) (CoordAsk.Go tx)) }
        ensures failed { IfErr result (FailsOn (Stands P.policy D.tells self.old (D.seen disk.old)) (Stands P.policy D.tells self.new (D.seen disk.new)) (CoordAsk.Go tx)) }
        ensures cause { HasCauseOf StepErr.Disk (D.seen disk.old).faults (D.seen disk.new).faults result }
    {
        let Some(program) = find(&self.programs, tx) else {
            return declined(alloc, Answer::None);
        };
        let begun = self.core.begun(tx);
        if begun >= MOST_ATTEMPTS {
            let answer = self.spent(tx);
            return declined(alloc, answer);
        }
        let Ok(program) = program.clone() else {
            return Err(StepErr::Memory);
        };
        let tid = Tid { tx, attempt: begun };
        self.core.step(alloc, disk, CoordEvent::Go { tid, program })
    }

    /// Answers `fate`.
    pub(crate) fn fate<D: Disk>(
        &mut self,
        alloc: Global,
        disk: &mut D,
        tx: Tx,
    ) -> Result<CoordStep, StepErr>
        requires told { IsTrue D.tells }
        requires stood { SomeManaged (Stands P.policy D.tells self.old (D.seen disk.old)) (CanAsk (CoordAsk.Fate tx)) }
        ensures served { IfOk result (ServesOn (Stands P.policy D.tells self.old (D.seen disk.old)) (Stands P.policy D.tells self.new (D.seen disk.new)) (CoordAsk.Fate tx)) }
        ensures failed { IfErr result (FailsOn (Stands P.policy D.tells self.old (D.seen disk.old)) (Stands P.policy D.tells self.new (D.seen disk.new)) (CoordAsk.Fate tx)) }
        ensures cause { HasCauseOf StepErr.Disk (D.seen disk.old).faults (D.seen disk.new).faults result }
    {
        match find(&self.programs, tx) {
            Some(_) => self.core.step(alloc, disk, CoordEvent::Fate(tx)),
            None => declined(alloc, Answer::None),
        }
    }

    /// Answers `again`.
    pub(crate) fn again<D: Disk>(
        &mut self,
        alloc: Global,
        disk: &mut D,
        tid: Tid,
    ) -> Result<CoordStep, StepErr>
        requires told { IsTrue D.tells }
        requires stood { SomeManaged (Stands P.policy D.tells self.old (D.seen disk.old)) (CanAsk (CoordAsk.Again tid)) }
        ensures served { IfOk result (ServesOn (Stands P.policy D.tells self.old (D.seen disk.old)) (Stands P.policy D.tells self.new (D.seen disk.new)) (CoordAsk.Again tid)) }
        ensures failed { IfErr result (FailsOn (Stands P.policy D.tells self.old (D.seen disk.old)) (Stands P.policy D.tells self.new (D.seen disk.new)) (CoordAsk.Again tid)) }
        ensures cause { HasCauseOf StepErr.Disk (D.seen disk.old).faults (D.seen disk.new).faults result }
    {
        if self.was_begun(tid) {
            self.core.step(alloc, disk, CoordEvent::Again(tid))
        } else {
            declined(alloc, Answer::None)
        }
    }

    /// Answers `late`.
    pub(crate) fn late<D: Disk>(
        &mut self,
        alloc: Global,
        disk: &mut D,
        tid: Tid,
    ) -> Result<CoordStep, StepErr>
        requires told { IsTrue D.tells }
        requires stood { SomeManaged (Stands P.policy D.tells self.old (D.seen disk.old)) (CanAsk (CoordAsk.Late tid)) }
        ensures served { IfOk result (ServesOn (Stands P.policy D.tells self.old (D.seen disk.old)) (Stands P.policy D.tells self.new (D.seen disk.new)) (CoordAsk.Late tid)) }
        ensures failed { IfErr result (FailsOn (Stands P.policy D.tells self.old (D.seen disk.old)) (Stands P.policy D.tells self.new (D.seen disk.new)) (CoordAsk.Late tid)) }
        ensures cause { HasCauseOf StepErr.Disk (D.seen disk.old).faults (D.seen disk.new).faults result }
    {
        if self.was_begun(tid) {
            self.core.step(alloc, disk, CoordEvent::Late(tid))
        } else {
            declined(alloc, Answer::None)
        }
    }

    /// Whether the attempt was begun: those of a transaction begin in the order of their numbers.
    fn was_begun(&self, tid: Tid) -> bool
        ensures { EachManaged (Recalls P.policy self.now) (λ terms programs past. result ≡ some_of (same_tid tid) (begun_tids past)) }
    {
        tid.attempt < self.core.begun(tid.tx)
    }
}
