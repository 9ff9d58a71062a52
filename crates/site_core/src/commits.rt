//! The commit of a local attempt: it is sealed, its record is forced, and its writes are installed.
ghost use Rattle.std.specs.Prelude.{◌≡◌, ◌+◌, IfOk, IfErr, IsTrue};
ghost use Rattle.mdb_base.specs.Counts.{HasCauseOf};
ghost use Rattle.fed_rules.specs.Site.{of_commit, unless_tripped};
ghost use Rattle.site_core.specs.Sealing.{StandsSealing};
ghost use Rattle.site_core.specs.Stands.{Answers, Breaks, Stands, calls_for};
ghost use Rattle.site_core.specs.Steps.{AnswersWhere, BreaksWhere, CanStep, EachPast, SomePast};

use crate::answers::{refusal_answer, says};
use crate::site::SiteCore;
use actor_store::{Break, Standing, StepErr};
use engine_contract::{LocalEngine, SealErr, Sealed};
use fed_rules::{Answer, SiteEvent, SiteRecord, SiteStep};
use journal_disk::Disk;
use mdb_base::Tid;
use site_journal::SiteJournal;
use std::alloc::Global;

impl<E: LocalEngine> SiteCore<E> {
    /// A local attempt commits, unless its sealing is refused.
    pub(crate) fn commit<D: Disk>(
        &mut self,
        alloc: Global,
        disk: &mut D,
        tid: Tid,
    ) -> Result<SiteStep, StepErr>
        requires told { IsTrue D.tells }
        requires up { self.old.store.standing ≡ Standing.Up }
        requires may { SomePast (Stands E.stands D.tells self.old (D.seen disk.old)) (CanStep (SiteEvent.Commit tid)) }
        ensures answered { IfOk result (AnswersWhere E.stands D.tells self.old (D.seen disk.old) self.new (D.seen disk.new) (CanStep (SiteEvent.Commit tid)) (λ home past. unless_tripped home past (of_commit home past tid))) }
        ensures failed { IfErr result (BreaksWhere E.stands D.tells self.old (D.seen disk.old) self.new (D.seen disk.new) (CanStep (SiteEvent.Commit tid)) (SiteEvent.Commit tid)) }
        ensures cause { HasCauseOf StepErr.Disk (D.seen disk.old).faults (D.seen disk.new).faults result }
    {
        if self.book.live(tid).is_none() {
            return Ok(says(Answer::Idle));
        }
        match self.engine.seal(alloc, tid) {
            Ok(sealed) => self.record_commit(alloc, disk, tid, sealed),
            Err(SealErr::Refused(why)) => {
                self.book.close(tid);
                Ok(says(refusal_answer(why)))
            }
            Err(SealErr::Memory) => Err(StepErr::Memory),
        }
    }

    /// Forces the record of an attempt that is sealed, and commits it. Where there is no memory for the record, the sealing is taken
    /// back.
    fn record_commit<D: Disk>(
        &mut self,
        alloc: Global,
        disk: &mut D,
        tid: Tid,
        sealed: Sealed,
    ) -> Result<SiteStep, StepErr>
        requires told { IsTrue D.tells }
        requires up { self.old.store.standing ≡ Standing.Up }
        requires may { SomePast (StandsSealing E.stands D.tells tid sealed self.old (D.seen disk.old)) (CanStep (SiteEvent.Commit tid)) }
        ensures answered { IfOk result (λ step. EachPast (StandsSealing E.stands D.tells tid sealed self.old (D.seen disk.old))
            (λ home past. CanStep (SiteEvent.Commit tid) home past → Answers E.stands D.tells 0 (D.seen disk.old) step self.new (D.seen disk.new) home past
            (unless_tripped home past (of_commit home past tid)))) }
        ensures failed { IfErr result (λ why. EachPast (StandsSealing E.stands D.tells tid sealed self.old (D.seen disk.old))
            (λ home past. CanStep (SiteEvent.Commit tid) home past → Breaks E.stands D.tells (0 + calls_for home past (SiteEvent.Commit tid)) (D.seen disk.old) why self.new (D.seen disk.new) home past (SiteEvent.Commit tid))) }
        ensures cause { HasCauseOf StepErr.Disk (D.seen disk.old).faults (D.seen disk.new).faults result }
    {
        let Sealed {
            number,
            ticket: _,
            writes,
        } = sealed;
        let entry = SiteRecord::Local {
            tid,
            number,
            writes,
        };
        let bytes = SiteJournal::frame_len(&entry);
        let Ok(()) = self.store.make_room(alloc, disk, 1, bytes) else {
            self.engine.unseal(tid);
            return Err(StepErr::Memory);
        };
        match self.store.force(disk, entry) {
            Ok(()) => {
                self.engine.commit(tid);
                self.book.commit_local(tid);
                Ok(says(Answer::Sealed(tid, number)))
            }
            Err(Break::Stopped(kept)) => Ok(says(Answer::Stopped(kept))),
            Err(Break::Failed) => Err(StepErr::Disk),
        }
    }
}
