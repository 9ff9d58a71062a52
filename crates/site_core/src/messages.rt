//! The messages of a coordinator.
ghost use Rattle.std.specs.Prelude.{◌≡◌, IfOk, IfErr, IsTrue};
ghost use Rattle.mdb_base.specs.Counts.{HasCauseOf};
ghost use Rattle.fed_rules.specs.Site.{of_give, unless_tripped};
ghost use Rattle.site_core.specs.Stands.{Stands};
ghost use Rattle.site_core.specs.Steps.{AnswersWhere, BreaksWhere, CanTakeMessage, SomePast};

use crate::site::SiteCore;
use actor_store::{Standing, StepErr};
use engine_contract::LocalEngine;
use fed_rules::{SiteEvent, SiteStep, ToSite};
use journal_disk::Disk;
use std::alloc::Global;

impl<E: LocalEngine> SiteCore<E> {
    /// Carries out a message of a coordinator.
    pub(crate) fn give<D: Disk>(
        &mut self,
        alloc: Global,
        disk: &mut D,
        message: ToSite,
    ) -> Result<SiteStep, StepErr>
        requires told { IsTrue D.tells }
        requires up { self.old.store.standing ≡ Standing.Up }
        requires may { SomePast (Stands E.stands D.tells self.old (D.seen disk.old)) (CanTakeMessage message) }
        ensures answered { IfOk result (AnswersWhere E.stands D.tells self.old (D.seen disk.old) self.new (D.seen disk.new) (CanTakeMessage message) (λ home past. unless_tripped home past (of_give home past message))) }
        ensures failed { IfErr result (BreaksWhere E.stands D.tells self.old (D.seen disk.old) self.new (D.seen disk.new) (CanTakeMessage message) (SiteEvent.Give message)) }
        ensures cause { HasCauseOf StepErr.Disk (D.seen disk.old).faults (D.seen disk.new).faults result }
    {
        match message {
            ToSite::Work { tid, epoch, n, act } => self.work(alloc, tid, epoch, n, act),
            ToSite::Take { tid, epoch, n } => self.take(alloc, tid, epoch, n),
            ToSite::Prepare { tid, epoch, n } => self.prepare(alloc, disk, tid, epoch, n),
            ToSite::Decide { tid, decision } => self.decide(alloc, disk, tid, decision),
        }
    }
}
