//! What an operator asks of a site, and an inquiry: they go to its core as they are.
ghost use Rattle.std.specs.Prelude.{◌≡◌, IfErr, IfOk, IsTrue};
ghost use Rattle.mdb_base.specs.Counts.{HasCauseOf};
ghost use Rattle.fed_rules.specs.Requests.{Submits};
ghost use Rattle.fed_rules.specs.SitePast.{SitePast};
ghost use Rattle.fed_rules.specs.SiteRecords.{Home};
ghost use Rattle.local_dbms.specs.Asks.{CanAsk, FailsOn, ServesOn, is_operation, site_request};
ghost use Rattle.local_dbms.specs.Stands.{OwnPrograms, Some_site, Stands};

use crate::asks::SiteAsk;
use crate::dbms::LocalDbms;
use engine_contract::LocalEngine;
use fed_rules::{SiteEvent, SiteStep};
use journal_disk::Disk;
use site_core::StepErr;
use std::alloc::Global;

/// What an operator asks comes to this event.
fn operation(ask: &SiteAsk) -> SiteEvent
    requires { IsTrue (is_operation ask.now) }
    ensures { (home : Home) (programs : OwnPrograms) (past : SitePast) → site_request ask.now home programs past ≡ Submits result }
{
    match ask {
        SiteAsk::Ask(tid) => SiteEvent::Ask(*tid),
        SiteAsk::Drop(tid) => SiteEvent::Drop(*tid),
        SiteAsk::Halt { cut } => SiteEvent::Halt { cut: *cut },
        SiteAsk::Trip { calls, cut } => SiteEvent::Trip {
            calls: *calls,
            cut: *cut,
        },
        SiteAsk::Back => SiteEvent::Back,
        SiteAsk::Check => SiteEvent::Check,
        _ => unreachable!(),
    }
}

impl<E: LocalEngine> LocalDbms<E> {
    /// Answers what an operator asks, which goes to the core as it is.
    pub(crate) fn operate<D: Disk>(
        &mut self,
        alloc: Global,
        disk: &mut D,
        ask: &SiteAsk,
    ) -> Result<SiteStep, StepErr>
        requires told { IsTrue D.tells }
        requires operation { IsTrue (is_operation ask.now) }
        requires stood { Some_site (Stands E.stands D.tells self.old (D.seen disk.old)) (CanAsk ask.now) }
        ensures served { IfOk result (ServesOn (Stands E.stands D.tells self.old (D.seen disk.old)) (Stands E.stands D.tells self.new (D.seen disk.new)) ask.now) }
        ensures failed { IfErr result (FailsOn (Stands E.stands D.tells self.old (D.seen disk.old)) (Stands E.stands D.tells self.new (D.seen disk.new)) ask.now) }
        ensures cause { HasCauseOf StepErr.Disk (D.seen disk.old).faults (D.seen disk.new).faults result }
    {
        let event = operation(ask);
        self.core.step(alloc, disk, event)
    }
}
