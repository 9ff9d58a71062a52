//! What is asked of a local database system, and how it answers.
ghost use Rattle.std.specs.Prelude.{◌≡◌, IsTrue, IfOk, IfErr, None, false};
ghost use Rattle.mdb_base.specs.Counts.{HasCauseOf};
ghost use Rattle.local_dbms.specs.Asks.{CanAsk, FailsOn, ServesOn, can_send};
ghost use Rattle.local_dbms.specs.Stands.{Some_site, Stands};

use crate::dbms::LocalDbms;
use engine_contract::LocalEngine;
use fed_rules::{SiteEvent, SiteStep, ToSite};
use journal_disk::Disk;
use mdb_base::{Tid, Tx};
use site_core::StepErr;
use std::alloc::Global;

/// What is asked of a site.
#[derive(Clone, Copy)]
pub enum SiteAsk {
    /// The next attempt of one of the site's own transactions begins, of at most 32.
    Begin(Tx),
    /// The running attempt of a transaction does its next step.
    Step(Tx),
    /// The running attempt of a transaction commits, once every step is done.
    Commit(Tx),
    /// The running attempt of a transaction ends.
    Abort(Tx),
    /// How did a transaction end?
    Fate(Tx),
    /// A message of a coordinator, about no transaction of the site's own.
    Give(ToSite),
    /// An inquiry about a subtransaction in doubt, which goes to the coordinator.
    Ask(Tid),
    /// The site drops a live subtransaction by itself.
    Drop(Tid),
    /// The site stops; of what isn't synced so many bytes are kept.
    Halt { cut: u64 },
    /// A trip is set, which stops the site right after so many further disk calls; one of no calls disarms.
    Trip { calls: u32, cut: u64 },
    /// A site that is down starts again.
    Back,
    /// The site writes a Checkpoint and trims what stands before it.
    Check,
}

impl<E: LocalEngine> LocalDbms<E> {
    /// Asks the site. It answers and sends what the rules make of that over its past, and its past goes on with the line that this adds.
    /// What the rules decline adds no line. Only a message that is given and an inquiry can make the site send something. Without memory
    /// nothing changes. Where a disk call fails, which comes only where the disk's count of faults rose, the site is down, as a stop
    /// within the very event leaves it.
    pub fn ask<D: Disk>(
        &mut self,
        alloc: Global,
        disk: &mut D,
        ask: SiteAsk,
    ) -> Result<SiteStep, StepErr>
        requires told { IsTrue D.tells }
        requires stood { Some_site (Stands E.stands D.tells self.old (D.seen disk.old)) (CanAsk ask) }
        ensures served { IfOk result (ServesOn (Stands E.stands D.tells self.old (D.seen disk.old)) (Stands E.stands D.tells self.new (D.seen disk.new)) ask) }
        ensures failed { IfErr result (FailsOn (Stands E.stands D.tells self.old (D.seen disk.old)) (Stands E.stands D.tells self.new (D.seen disk.new)) ask) }
        ensures quiet { IfOk result (λ step. can_send ask ≡ false → step.sends ≡ None) }
        ensures cause { HasCauseOf StepErr.Disk (D.seen disk.old).faults (D.seen disk.new).faults result }
    {
        match ask {
            SiteAsk::Give(message) => self.give(alloc, disk, message),
            SiteAsk::Begin(tx) => self.begin(alloc, disk, tx),
            SiteAsk::Step(tx) => self.step(alloc, disk, tx),
            SiteAsk::Commit(tx) => self.commit(alloc, disk, tx),
            SiteAsk::Abort(tx) => self.abort(alloc, disk, tx),
            SiteAsk::Fate(tx) => self.fate(alloc, disk, tx),
            SiteAsk::Ask(_)
            | SiteAsk::Drop(_)
            | SiteAsk::Halt { .. }
            | SiteAsk::Trip { .. }
            | SiteAsk::Back
            | SiteAsk::Check => self.operate(alloc, disk, &ask),
        }
    }

    /// Gives the site a message of a coordinator, which its core answers as it is.
    fn give<D: Disk>(
        &mut self,
        alloc: Global,
        disk: &mut D,
        message: ToSite,
    ) -> Result<SiteStep, StepErr>
        requires told { IsTrue D.tells }
        requires stood { Some_site (Stands E.stands D.tells self.old (D.seen disk.old)) (CanAsk (SiteAsk.Give message)) }
        ensures served { IfOk result (ServesOn (Stands E.stands D.tells self.old (D.seen disk.old)) (Stands E.stands D.tells self.new (D.seen disk.new)) (SiteAsk.Give message)) }
        ensures failed { IfErr result (FailsOn (Stands E.stands D.tells self.old (D.seen disk.old)) (Stands E.stands D.tells self.new (D.seen disk.new)) (SiteAsk.Give message)) }
        ensures cause { HasCauseOf StepErr.Disk (D.seen disk.old).faults (D.seen disk.new).faults result }
    {
        self.core.step(alloc, disk, SiteEvent::Give(message))
    }
}
