//! A local database system, and with what it begins.
ghost use Rattle.std.specs.Prelude.{◌≡◌, ◌≤◌, [], Bool, length, IsTrue, IfOk, IsErrOf};
ghost use Rattle.mdb_base.specs.Counts.{HasCauseOf};
ghost use Rattle.mdb_base.specs.Words.{Each};
ghost use Rattle.record_fields.specs.Named.{IsSite};
ghost use Rattle.fed_rules.specs.Disk.{empty_disk};
ghost use Rattle.fed_rules.specs.SitePast.{set_up_calls};
ghost use Rattle.journal_disk.specs.Disk.{Seen};
ghost use Rattle.engine_contract.specs.Calls.{fresh_start};
ghost use Rattle.fed_rules.specs.declared.records.SiteRecord.{SiteRecord};
ghost use Rattle.fed_rules.specs.Found.{Journal};
ghost use Rattle.fed_rules.specs.Reopened.{opened_site};
ghost use Rattle.fed_rules.specs.SiteRecords.{Home};
ghost use Rattle.local_dbms.specs.Found.{found_programs};
ghost use Rattle.site_core.specs.Found.{IsFoundOn, SomeJournal};
ghost use Rattle.site_core.specs.Stands.{Holds, IsOfKind, Stands as CoreStands};
ghost use Rattle.site_core.specs.Store.{SomeStop};
ghost use Rattle.local_dbms.specs.Stands.{Each_site, IsNamed, Recalls, Stands, home_from, own_programs};

use crate::found::programs_found;
use crate::programs::programs_of;
use engine_contract::LocalEngine;
use fed_rules::{SiteLine, TxLine};
use journal_disk::Disk;
use mdb_base::{Memory, Program, Puts};
use site_core::{SiteCore, StepErr};
use std::alloc::Global;

/// A local database system: its core, and at the number of each of its local transactions its program. These numbers are at most 1,024.
#[derive(Drop)]
pub struct LocalDbms<E: LocalEngine> {
    pub(crate) core: SiteCore<E>,
    pub(crate) programs: Vec<Option<Program>>,
}

impl<E: LocalEngine> LocalDbms<E> {
    /// Sets a new site up on an empty disk, with a new engine of its rule with these first rows. Its own transactions are those that are
    /// local at this site by their lines, of several of one number the first. Without memory the disk stays empty. Where a disk call
    /// fails, the disk holds what some stop within the calls of the set-up leaves.
    pub fn set_up<D: Disk>(
        alloc: Global,
        disk: &mut D,
        line: SiteLine,
        items: Puts,
        local: E,
        transactions: &[TxLine],
    ) -> Result<LocalDbms<E>, StepErr>
        requires told { IsTrue D.tells }
        requires empty { (D.seen disk.old).size ≡ 0 }
        requires site { IsSite line.site }
        requires few { length items ≤ 4096 }
        requires fresh { E.stands local (fresh_start line.engine items) [] }
        requires named { Each IsNamed transactions.now }
        ensures stands { IfOk result (λ dbms. Stands E.stands D.tells dbms (D.seen disk.new) (home_from line items) (own_programs line.site transactions.now) []) }
        ensures memory { IsErrOf result StepErr.Memory → (D.seen disk.new).image ≡ (D.seen disk.old).image }
        ensures untouched { IsErrOf result StepErr.Memory → (D.seen disk.new).size ≡ 0 }
        ensures broken { IsErrOf result StepErr.Disk → SomeStop (D.seen disk.new).image empty_disk (set_up_calls (home_from line items)) }
        ensures cause { HasCauseOf StepErr.Disk (D.seen disk.old).faults (D.seen disk.new).faults result }
    {
        let Ok(programs) = programs_of(alloc, line.site, transactions) else {
            return Err(StepErr::Memory);
        };
        let (site, engine, protocol) = (line.site, line.engine, line.protocol);
        match SiteCore::set_up(alloc, disk, site, engine, items, protocol, local) {
            Ok(core) => Ok(LocalDbms { core, programs }),
            Err(why) => Err(why),
        }
    }

    /// Goes on from the journal that is found on the disk: the site is down. The disk isn't changed. `local` is an engine of the journal's
    /// rule. Its own transactions are those that have a local attempt in the journal, with programs that are made up.
    pub fn reopen<D: Disk>(alloc: Global, disk: &mut D, local: E) -> Result<LocalDbms<E>, StepErr>
        requires told { IsTrue D.tells }
        requires found { SomeJournal E.stands local (D.seen disk.old).image }
        ensures stands { IfOk result (λ dbms. (home : Home) (journal : Journal SiteRecord) → IsFoundOn (D.seen disk.old).image home journal → IsOfKind E.stands local home.engine
            → Stands E.stands D.tells dbms (D.seen disk.new) home (found_programs journal.records) (opened_site journal)) }
        ensures image { (D.seen disk.new).image ≡ (D.seen disk.old).image }
        ensures cause { HasCauseOf StepErr.Disk (D.seen disk.old).faults (D.seen disk.new).faults result }
    {
        match SiteCore::reopen(alloc, disk, local) {
            Ok(core) => match programs_found(alloc, core.records()) {
                Ok(programs) => Ok(LocalDbms { core, programs }),
                Err(Memory) => Err(StepErr::Memory),
            },
            Err(why) => Err(why),
        }
    }

    /// The core of the site, which answers what is asked of its rows and records.
    pub fn core(&self) -> &SiteCore<E>
        ensures stood { (tells : Bool) (disk : Seen) → Each_site (Stands E.stands tells self.now disk) (λ home programs past. CoreStands E.stands tells result.now disk home past) }
        ensures held { Each_site (Recalls E.stands self.now) (λ home programs past. Holds E.stands result.now home past) }
    {
        &self.core
    }
}
