//! A global transaction manager, and how it answers what it is asked.
ghost use Rattle.std.specs.Prelude.{◌≡◌, [], Bool, IsTrue, IfOk, IfErr};
ghost use Rattle.mdb_base.specs.Counts.{HasCauseOf};
ghost use Rattle.mdb_base.specs.Words.{Each};
ghost use Rattle.presumptions.specs.declared.Participant.{Participant as TheParticipant};
ghost use Rattle.record_fields.specs.Named.{IsSite};
ghost use Rattle.fed_rules.specs.declared.records.CoordRecord.{CoordRecord};
ghost use Rattle.fed_rules.specs.Found.{Journal};
ghost use Rattle.fed_rules.specs.Reopened.{opened_coordinator};
ghost use Rattle.journal_disk.specs.Disk.{Seen};
ghost use Rattle.coord_core.specs.Found.{IsFoundOn, SomeJournal};
ghost use Rattle.coord_core.specs.Stands.{Holds, IsEmptyDisk, Stands as CoreStands};
ghost use Rattle.global_manager.specs.Asks.{CanAsk, FailsOn, ServesOn};
ghost use Rattle.global_manager.specs.Stands.{EachManaged, IsDeclared, Recalls, SomeManaged, Stands, own_programs};

use crate::asks::CoordAsk;
use crate::programs::programs_of;
use coord_core::{CoordCore, StepErr};
use fed_rules::{CoordEvent, CoordStep, TxLine};
use global_exec::TakePolicy;
use journal_disk::Disk;
use mdb_base::{Memory, Program, Tx};
use presumptions::Participants;
use std::alloc::Global;
use std::collections::BTreeMap;

/// A global transaction manager: the core of the coordinator, and the programs of the global transactions.
#[derive(Drop)]
pub struct GlobalManager<P: TakePolicy> {
    pub(crate) core: CoordCore<P>,
    pub(crate) programs: BTreeMap<Tx, Program>,
}

impl<P: TakePolicy> GlobalManager<P> {
    /// A manager of these sites, of 1 to 8, to which nothing happened yet. Its own transactions are those that have no home by their lines,
    /// of several of one number the first; they are numbered 1 to 1,024, and their steps are at these sites. Its disk has to be an empty one.
    pub fn new(
        alloc: Global,
        protocols: Participants,
        policy: P,
        transactions: &[TxLine],
    ) -> Result<GlobalManager<P>, Memory>
        requires sites { Each (λ (member : TheParticipant). IsSite member.site) protocols }
        requires declared { Each (IsDeclared protocols) transactions.now }
        ensures { IfOk result (λ manager. (tells : Bool) (seen : Seen) → IsEmptyDisk tells seen
            → Stands P.policy tells manager seen (record { protocols = protocols; policy = P.policy policy }) (own_programs transactions.now) []) }
    {
        let programs = programs_of(alloc, transactions)?;
        let core = CoordCore::new(alloc, protocols, policy)?;
        Ok(GlobalManager { core, programs })
    }

    /// A manager of these sites, of 1 to 8, that goes on from the journal that is found on its disk. It has no transactions of its own. The
    /// coordinator is down, and `back` starts it with what the journal hasn't forgotten. The disk isn't changed, and a disk call fails only
    /// where the disk's count of faults rises.
    pub fn reopen<D: Disk>(
        alloc: Global,
        disk: &mut D,
        protocols: Participants,
        policy: P,
    ) -> Result<GlobalManager<P>, StepErr>
        requires told { IsTrue D.tells }
        requires sites { Each (λ (member : TheParticipant). IsSite member.site) protocols }
        requires found { SomeJournal (D.seen disk.old).image protocols }
        ensures stands { IfOk result (λ manager. (journal : Journal CoordRecord) → IsFoundOn (D.seen disk.old).image protocols journal
            → Stands P.policy D.tells manager (D.seen disk.new) (record { protocols = protocols; policy = P.policy policy }) (own_programs []) (opened_coordinator protocols journal)) }
        ensures image { (D.seen disk.new).image ≡ (D.seen disk.old).image }
        ensures size { (D.seen disk.new).size ≡ (D.seen disk.old).size }
        ensures cause { HasCauseOf StepErr.Disk (D.seen disk.old).faults (D.seen disk.new).faults result }
    {
        let core = CoordCore::reopen(alloc, disk, protocols, policy)?;
        let programs = BTreeMap::new(alloc);
        Ok(GlobalManager { core, programs })
    }

    /// The core of the coordinator, which answers what is asked of its records, its table and its graph.
    pub fn core(&self) -> &CoordCore<P>
        ensures stood { (tells : Bool) (seen : Seen) → EachManaged (Stands P.policy tells self.now seen) (λ terms programs past. CoreStands P.policy tells result.now seen terms past) }
        ensures held { EachManaged (Recalls P.policy self.now) (λ terms programs past. Holds P.policy result.now terms past) }
    {
        &self.core
    }

    /// Answers what is asked, as the rules say over the programs and the coordinator's past. A message has to come from one of the
    /// coordinator's sites. What is declined sends nothing and leaves the past as it is. Out of memory, the manager stands for the same past.
    /// Where a disk call fails, which comes only where the disk's count of faults rose, the coordinator is down, as after a stop before or
    /// within the event, and may be started again.
    pub fn ask<D: Disk>(
        &mut self,
        alloc: Global,
        disk: &mut D,
        ask: CoordAsk,
    ) -> Result<CoordStep, StepErr>
        requires told { IsTrue D.tells }
        requires stood { SomeManaged (Stands P.policy D.tells self.old (D.seen disk.old)) (CanAsk ask) }
        ensures served { IfOk result (ServesOn (Stands P.policy D.tells self.old (D.seen disk.old)) (Stands P.policy D.tells self.new (D.seen disk.new)) ask) }
        ensures failed { IfErr result (FailsOn (Stands P.policy D.tells self.old (D.seen disk.old)) (Stands P.policy D.tells self.new (D.seen disk.new)) ask) }
        ensures cause { HasCauseOf StepErr.Disk (D.seen disk.old).faults (D.seen disk.new).faults result }
    {
        match ask {
            CoordAsk::Take { site, message } => {
                self.core
                    .step(alloc, disk, CoordEvent::Take { site, message })
            }
            CoordAsk::Go(tx) => self.go(alloc, disk, tx),
            CoordAsk::Fate(tx) => self.fate(alloc, disk, tx),
            CoordAsk::Again(tid) => self.again(alloc, disk, tid),
            CoordAsk::Late(tid) => self.late(alloc, disk, tid),
            CoordAsk::Halt { .. } | CoordAsk::Trip { .. } | CoordAsk::Back | CoordAsk::Check => {
                self.operate(alloc, disk, &ask)
            }
        }
    }
}
