//! How a world goes on from its disks.
ghost use Rattle.std.specs.Prelude.{◌≡◌, IfOk, IfErr, IsTrue, List, length, map, slice_get};
ghost use Rattle.mdb_base.specs.Counts.{HasCauseOf};
ghost use Rattle.any_engine.specs.Stands as Engines;
ghost use Rattle.fed_rules.specs.declared.records.SiteRecord.{SiteRecord as TheRecord};
ghost use Rattle.fed_rules.specs.Found.{Found, Journal as TheJournal};
ghost use Rattle.fed_rules.specs.Reopened.{opened_site};
ghost use Rattle.fed_rules.specs.Scenarios.{sites};
ghost use Rattle.fed_rules.specs.SiteRecords.{Home};
ghost use Rattle.journal_disk.specs.Disk.{Image};
ghost use Rattle.local_dbms.specs.Found.{found_programs};
ghost use Rattle.local_dbms.specs.Stands as Dbms;
ghost use Rattle.site_core.specs.Found.{IsFoundOn};
ghost use Rattle.found_laws.specs.FoundSessions.{AreUsable};
ghost use Rattle.found_disks.specs.Finding.{found_in};
ghost use Rattle.found_disks.specs.Reading.{FaultsTell, images_of};
ghost use Rattle.world_recovery.specs.Reopening.{AreActorsBack, AreBack, AreOnDisks, AreSynced, CoordinatorBack, HasActors, IsDiskOrMemory, IsOnFirst, IsPlanOf, ReopensAs};

use crate::found_begun::begun_in;
use crate::found_sites::{lines_by, of_sites};
use any_engine::AnyEngine;
use conservative_take::AnyPolicy;
use fed_rules::Scenario;
use fed_world::{World, declared_sites};
use found_disks::{Journals, ReopenErr, find_journals};
use global_manager::GlobalManager;
use journal_disk::Disk;
use local_dbms::{LocalDbms, StepErr};
use mdb_base::{Engine, Memory, Puts, SiteId, Tid};
use presumptions::Participants;
use session_routes::{line_of, protocols_of};
use std::alloc::Global;

/// A local database system of this rule that goes on from the journal on its disk.
#[tactic(none)]
fn reopen_site<D: Disk>(
    alloc: Global,
    disk: &mut D,
    rule: Engine,
) -> Result<LocalDbms<AnyEngine>, StepErr>
    requires told { IsTrue D.tells }
    requires found { (home : Home) × (journal : TheJournal TheRecord) × IsFoundOn (D.seen disk.old).image home journal × (home.engine ≡ rule) }
    ensures stands { IfOk result (λ dbms. (home : Home) (journal : TheJournal TheRecord) → IsFoundOn (D.seen disk.old).image home journal → home.engine ≡ rule
        → Dbms.Stands Engines.Stands D.tells dbms (D.seen disk.new) home (found_programs journal.records) (opened_site journal)) }
    ensures image { (D.seen disk.new).image ≡ (D.seen disk.old).image }
    ensures cause { HasCauseOf StepErr.Disk (D.seen disk.old).faults (D.seen disk.new).faults result }
{
    let Ok(engine) = AnyEngine::new(alloc, rule, &Puts::of(Vec::new(alloc))) else {
        return Err(StepErr::Memory);
    };
    LocalDbms::reopen(alloc, disk, engine)
}

/// The sites go on from the journals on their disks, by rising site. Disk 0 stays as it is.
#[tactic(none)]
fn reopen_sites<D: Disk>(
    alloc: Global,
    scenario: &Scenario,
    declared: &[SiteId],
    disks: &mut Vec<D>,
) -> Result<Vec<LocalDbms<AnyEngine>>, ReopenErr>
    requires told { IsTrue D.tells }
    requires nine { length disks.old.items ≡ 9 }
    requires declared { declared.now ≡ sites scenario.now }
    requires found { (found : Found) × AreOnDisks found scenario.now (images_of (map D.seen disks.old.items)) }
    ensures back { IfOk result (λ cores. (found : Found) → AreOnDisks found scenario.now (images_of (map D.seen disks.old.items))
        → AreBack D.tells cores.items (map D.seen disks.new.items) found) }
    ensures failed { IfErr result IsDiskOrMemory }
    ensures first { slice_get (map D.seen disks.new.items) 0 ≡ slice_get (map D.seen disks.old.items) 0 }
    ensures images { images_of (map D.seen disks.new.items) ≡ images_of (map D.seen disks.old.items) }
    ensures cause { FaultsTell result (map D.seen disks.old.items) (map D.seen disks.new.items) }
    ensures count { length disks.new.items ≡ 9 }
{
    let mut cores = Vec::new(alloc);
    let Ok(()) = cores.reserve(declared.len()) else {
        return Err(ReopenErr::Memory);
    };
    for site in declared {
        let Some(line) = line_of(scenario.sites.as_slice(), *site) else {
            continue;
        };
        match reopen_site(alloc, &mut disks[site.0 as usize], line.engine) {
            Ok(core) => cores.push_reserved(core),
            Err(StepErr::Disk) => return Err(ReopenErr::Disk { number: site.0 }),
            Err(StepErr::Memory) => return Err(ReopenErr::Memory),
        }
    }
    Ok(cores)
}

/// The coordinator goes on from the journal on disk 0.
#[tactic(none)]
fn reopen_coordinator<D: Disk>(
    alloc: Global,
    scenario: &Scenario,
    disks: &mut Vec<D>,
) -> Result<GlobalManager<AnyPolicy>, ReopenErr>
    requires told { IsTrue D.tells }
    requires nine { length disks.old.items ≡ 9 }
    requires found { (found : Found) × IsOnFirst found scenario.now (images_of (map D.seen disks.old.items)) }
    ensures back { IfOk result (λ manager. (found : Found) → IsOnFirst found scenario.now (images_of (map D.seen disks.old.items))
        → CoordinatorBack D.tells manager (map D.seen disks.new.items) found) }
    ensures failed { IfErr result IsDiskOrMemory }
    ensures images { images_of (map D.seen disks.new.items) ≡ images_of (map D.seen disks.old.items) }
    ensures cause { FaultsTell result (map D.seen disks.old.items) (map D.seen disks.new.items) }
    ensures count { length disks.new.items ≡ 9 }
{
    let Ok(protocols) = protocols_of(alloc, scenario.sites.as_slice()) else {
        return Err(ReopenErr::Memory);
    };
    let policy = AnyPolicy::of(false);
    match GlobalManager::reopen(alloc, &mut disks[0], Participants::of(protocols), policy) {
        Ok(manager) => Ok(manager),
        Err(StepErr::Disk) => Err(ReopenErr::Disk { number: 0 }),
        Err(StepErr::Memory) => Err(ReopenErr::Memory),
    }
}

/// What a world that goes on begins with beside its actors: its scenario with the sites, and the attempts that a record names.
#[derive(Drop)]
struct Plan {
    scenario: Scenario,
    begun: Vec<Tid>,
}

/// What the world that goes on from these journals begins with.
fn plan_of(alloc: Global, journals: &Journals) -> Result<Plan, Memory>
    requires { (images : List Image) × AreUsable (found_in images journals.now) }
    ensures { IfOk result (λ plan. (images : List Image) → AreUsable (found_in images journals.now) → IsPlanOf plan (found_in images journals.now)) }
{
    let begun = begun_in(alloc, journals)?;
    let lines = lines_by(alloc, journals.sites.as_slice())?;
    Ok(Plan {
        scenario: of_sites(alloc, lines),
        begun,
    })
}

/// The actors of a world that goes on.
#[derive(Drop)]
struct Actors {
    coordinator: GlobalManager<AnyPolicy>,
    sites: Vec<LocalDbms<AnyEngine>>,
}

/// The actors go on from the journals on their disks, the coordinator first.
fn reopen_actors<D: Disk>(
    alloc: Global,
    scenario: &Scenario,
    disks: &mut Vec<D>,
) -> Result<Actors, ReopenErr>
    requires told { IsTrue D.tells }
    requires nine { length disks.old.items ≡ 9 }
    requires found { (found : Found) × IsOnFirst found scenario.now (images_of (map D.seen disks.old.items)) × AreOnDisks found scenario.now (images_of (map D.seen disks.old.items)) }
    ensures back { IfOk result (λ actors. (found : Found) → IsOnFirst found scenario.now (images_of (map D.seen disks.old.items))
        → AreOnDisks found scenario.now (images_of (map D.seen disks.old.items)) → AreActorsBack D.tells actors (map D.seen disks.new.items) found) }
    ensures failed { IfErr result IsDiskOrMemory }
    ensures images { images_of (map D.seen disks.new.items) ≡ images_of (map D.seen disks.old.items) }
    ensures cause { FaultsTell result (map D.seen disks.old.items) (map D.seen disks.new.items) }
    ensures count { length disks.new.items ≡ 9 }
{
    let Ok(declared) = declared_sites(alloc, scenario) else {
        return Err(ReopenErr::Memory);
    };
    match reopen_coordinator(alloc, scenario, disks) {
        Ok(coordinator) => match reopen_sites(alloc, scenario, declared.as_slice(), disks) {
            Ok(sites) => Ok(Actors { coordinator, sites }),
            Err(why) => {
                drop(coordinator);
                Err(why)
            }
        },
        Err(why) => Err(why),
    }
}

/// The world of this plan whose actors go on from the journals on their disks.
fn reopen_world<D: Disk>(alloc: Global, plan: Plan, disks: &mut Vec<D>) -> Result<World, ReopenErr>
    requires told { IsTrue D.tells }
    requires nine { length disks.old.items ≡ 9 }
    requires found { (found : Found) × IsOnFirst found plan.scenario (images_of (map D.seen disks.old.items)) × AreOnDisks found plan.scenario (images_of (map D.seen disks.old.items)) }
    ensures back { IfOk result (λ world. (found : Found) → IsOnFirst found plan.scenario (images_of (map D.seen disks.old.items))
        → AreOnDisks found plan.scenario (images_of (map D.seen disks.old.items)) → HasActors D.tells world plan (map D.seen disks.new.items) found) }
    ensures failed { IfErr result IsDiskOrMemory }
    ensures images { images_of (map D.seen disks.new.items) ≡ images_of (map D.seen disks.old.items) }
    ensures cause { FaultsTell result (map D.seen disks.old.items) (map D.seen disks.new.items) }
    ensures count { length disks.new.items ≡ 9 }
{
    match reopen_actors(alloc, &plan.scenario, disks) {
        Ok(actors) => {
            let Actors { coordinator, sites } = actors;
            let Plan { scenario, begun } = plan;
            match World::resume(alloc, scenario, coordinator, sites, begun) {
                Ok(world) => Ok(world),
                Err(Memory) => Err(ReopenErr::Memory),
            }
        }
        Err(why) => {
            drop(plan);
            Err(why)
        }
    }
}

/// What goes on from the journals on nine disks.
pub trait Reopen: Sized {
    /// What goes on from nine disks, all bytes of which are synced.
    fn reopen<D: Disk>(alloc: Global, disks: &mut Vec<D>) -> Result<Self, ReopenErr>
        requires told { IsTrue D.tells }
        requires nine { length disks.old.items ≡ 9 }
        requires synced { AreSynced (images_of (map D.seen disks.old.items)) };
}

impl Reopen for World {
    /// The world that goes on from nine disks on which journals stand, in frames of either version, all bytes of them synced: the coordinator,
    /// and each site with a record, is down. Attempts that a record names count as begun, places count from 0, and
    /// there are no lines yet. Its scenario has the sites of the journals and no transactions. The first damaged disk is named, and where none
    /// is, the first one that isn't usable. The bytes on the disks stay.
    #[tactic(none)]
    fn reopen<D: Disk>(alloc: Global, disks: &mut Vec<D>) -> Result<World, ReopenErr>
        requires told { IsTrue D.tells }
        requires nine { length disks.old.items ≡ 9 }
        requires synced { AreSynced (images_of (map D.seen disks.old.items)) }
        ensures reopened { ReopensAs D.tells result (map D.seen disks.old.items) (map D.seen disks.new.items) }
        ensures images { images_of (map D.seen disks.new.items) ≡ images_of (map D.seen disks.old.items) }
        ensures cause { FaultsTell result (map D.seen disks.old.items) (map D.seen disks.new.items) }
        ensures count { length disks.new.items ≡ 9 }
    {
        match find_journals(alloc, disks) {
            Ok(journals) => match plan_of(alloc, &journals) {
                Ok(plan) => reopen_world(alloc, plan, disks),
                Err(Memory) => Err(ReopenErr::Memory),
            },
            Err(why) => Err(why),
        }
    }
}
