//! Acknowledgements of sites.
ghost use Rattle.std.specs.Prelude.{◌≡◌, IfErr, IfOk, IsTrue};
ghost use Rattle.mdb_base.specs.Counts.{HasCauseOf};
ghost use Rattle.fed_rules.specs.declared.messages.FromSite.TheVariants as From;
ghost use Rattle.fed_rules.specs.CoordPast.{Decided, standing};
ghost use Rattle.coord_core.specs.Stands.{Stands};
ghost use Rattle.coord_core.specs.Steps.{CanStep, FailsOn, FailsWhere, SomePast, StepsOn, StepsWhere};

use crate::coord::{CoordCore, ignored, silent};
use crate::ending::room_for;
use actor_store::{Standing, StepErr};
use fed_rules::{Answer, CoordEvent, CoordRecord, CoordStep};
use global_exec::TakePolicy;
use journal_disk::Disk;
use mdb_base::{SiteId, Tid};
use presumptions::{Decision, Protocol};
use protocol_table::{AckEnd, Said};
use std::alloc::Global;

impl<P: TakePolicy> CoordCore<P> {
    /// An acknowledgement of a decision that is known: it counts where it is required and missing, and the last one forgets the attempt, with
    /// an End record that isn't forced.
    fn ack_known<D: Disk>(
        &mut self,
        alloc: Global,
        disk: &mut D,
        site: SiteId,
        tid: Tid,
        decision: Decision,
    ) -> Result<CoordStep, StepErr>
        requires told { IsTrue D.tells }
        requires up { self.old.store.standing ≡ Standing.Up }
        requires may { SomePast (Stands P.policy D.tells self.old (D.seen disk.old)) (λ terms past. standing terms.protocols past tid ≡ Decided decision) }
        ensures answered { IfOk result (StepsWhere P.policy D.tells self.old (D.seen disk.old) self.new (D.seen disk.new) (λ terms past. standing terms.protocols past tid ≡ Decided decision) (CoordEvent.Take site (From.Ack tid))) }
        ensures failed { IfErr result (FailsWhere P.policy D.tells self.old (D.seen disk.old) self.new (D.seen disk.new) (λ terms past. standing terms.protocols past tid ≡ Decided decision) (CoordEvent.Take site (From.Ack tid))) }
        ensures cause { HasCauseOf StepErr.Disk (D.seen disk.old).faults (D.seen disk.new).faults result }
    {
        let entry = Some(CoordRecord::End { tid });
        let Ok(()) = room_for(&mut self.store, alloc, disk, &entry) else {
            drop(entry);
            return Err(StepErr::Memory);
        };
        drop(entry);
        match self.tables.ack(tid, site) {
            AckEnd::Ignored => Ok(silent(alloc, Answer::Ignored)),
            AckEnd::Acked => Ok(silent(alloc, Answer::Acked)),
            AckEnd::Forgets => {
                let step = silent(alloc, Answer::Forgets);
                self.note(alloc, disk, CoordRecord::End { tid }, step)
            }
        }
    }

    /// An acknowledgement of a decision: it counts where it is required and missing, and the last one forgets the attempt, with an End record
    /// that isn't forced. One that doesn't count takes no memory.
    pub(crate) fn ack<D: Disk>(
        &mut self,
        alloc: Global,
        disk: &mut D,
        site: SiteId,
        tid: Tid,
    ) -> Result<CoordStep, StepErr>
        requires told { IsTrue D.tells }
        requires up { self.old.store.standing ≡ Standing.Up }
        requires may { SomePast (Stands P.policy D.tells self.old (D.seen disk.old)) (CanStep (CoordEvent.Take site (From.Ack tid))) }
        ensures answered { IfOk result (StepsOn P.policy D.tells self.old (D.seen disk.old) self.new (D.seen disk.new) (CoordEvent.Take site (From.Ack tid))) }
        ensures failed { IfErr result (FailsOn P.policy D.tells self.old (D.seen disk.old) self.new (D.seen disk.new) (CoordEvent.Take site (From.Ack tid))) }
        ensures cause { HasCauseOf StepErr.Disk (D.seen disk.old).faults (D.seen disk.new).faults result }
    {
        if self.tables.awaits_ack(tid, site) {
            match self.tables.known.answer(tid, Protocol::Nothing) {
                Said::Known(decision) => self.ack_known(alloc, disk, site, tid, decision),
                Said::Undecided => unreachable!(),
                Said::Presumed(_) => unreachable!(),
            }
        } else {
            ignored(alloc)
        }
    }
}
