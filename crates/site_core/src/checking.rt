//! The Checkpoint of a site: what all its records say, forced to its disk; and what stood before it is trimmed.
ghost use Rattle.std.specs.Prelude.{◌≡◌, IfOk, IfErr, IsTrue};
ghost use Rattle.mdb_base.specs.Counts.{HasCauseOf};
ghost use Rattle.fed_rules.specs.Site.{of_check, unless_tripped};
ghost use Rattle.site_core.specs.Stands.{Stands};
ghost use Rattle.site_core.specs.Steps.{AnswersEach, AnyPast, BreaksEach, SomePast};

use crate::answers::says;
use crate::site::SiteCore;
use actor_store::{Break, Standing, StepErr};
use engine_contract::LocalEngine;
use fed_rules::{Answer, SiteEvent, SiteRecord, SiteStep};
use journal_disk::Disk;
use journal_sums::read_sum;
use site_journal::{SiteJournal, is_large};
use std::alloc::Global;

impl<E: LocalEngine> SiteCore<E> {
    /// Forces a Checkpoint and trims what stands before it, unless it would be too long.
    pub(crate) fn check<D: Disk>(
        &mut self,
        alloc: Global,
        disk: &mut D,
    ) -> Result<SiteStep, StepErr>
        requires told { IsTrue D.tells }
        requires up { self.old.store.standing ≡ Standing.Up }
        requires may { SomePast (Stands E.stands D.tells self.old (D.seen disk.old)) AnyPast }
        ensures answered { IfOk result (AnswersEach E.stands D.tells self.old (D.seen disk.old) self.new (D.seen disk.new) 0 (λ home past. unless_tripped home past (of_check home past))) }
        ensures failed { IfErr result (BreaksEach E.stands D.tells self.old (D.seen disk.old) self.new (D.seen disk.new) 0 SiteEvent.Check) }
        ensures cause { HasCauseOf StepErr.Disk (D.seen disk.old).faults (D.seen disk.new).faults result }
    {
        let Ok(sum) = read_sum(alloc, self.store.records()) else {
            return Err(StepErr::Memory);
        };
        let entry = SiteRecord::Checkpoint(sum);
        if is_large(&entry) {
            return Ok(says(Answer::Large));
        }
        let bytes = SiteJournal::frame_len(&entry);
        let Ok(()) = self.store.make_room(alloc, disk, 1, bytes) else {
            return Err(StepErr::Memory);
        };
        match self.store.check(disk, entry) {
            Ok(()) => Ok(says(Answer::Checked)),
            Err(Break::Stopped(kept)) => Ok(says(Answer::Stopped(kept))),
            Err(Break::Failed) => Err(StepErr::Disk),
        }
    }
}
