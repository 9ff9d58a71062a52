//! How a world is made: its sites are set up on their disks, by rising site.
ghost use Rattle.std.specs.Prelude.{◌≡◌, [], IfOk, IfErr, IsErrOf, IsTrue, Some, length, map};
ghost use Rattle.mdb_base.specs.Counts.{HasCauseOf};
ghost use Rattle.any_engine.specs.Stands as Engines;
ghost use Rattle.fed_rules.specs.Disk.{empty_disk};
ghost use Rattle.fed_rules.specs.Plans.{IsScenario};
ghost use Rattle.fed_rules.specs.Scenarios.{home_of, sites};
ghost use Rattle.fed_rules.specs.Sessions.{fresh};
ghost use Rattle.fed_rules.specs.SitePast.{set_up_calls};
ghost use Rattle.fed_rules.specs.SiteRecords.{Home};
ghost use Rattle.local_dbms.specs.Stands.{own_programs};
ghost use Rattle.local_dbms.specs.Stands as Dbms;
ghost use Rattle.session_routes.specs.Routes.{IsRouted};
ghost use Rattle.site_core.specs.Store.{SomeStop};
ghost use Rattle.fed_world.specs.SettingUp.{AreEmpty, AreSetUp, FailsToStart, IsBeginningOf, IsHomed, IsNewChannel, IsNewManager, IsNewMarks, IsNewWorld};
ghost use Rattle.fed_world.specs.Faults.{CountsTell};
ghost use Rattle.fed_world.specs.Worlds.{Stands};

use crate::cores::{Cores, SiteCores};
use crate::errors::WorldErr;
use crate::world::World;
use any_engine::AnyEngine;
use conservative_take::AnyPolicy;
use fed_rules::{Scenario, SiteLine};
use global_manager::GlobalManager;
use journal_disk::Disk;
use local_dbms::{LocalDbms, StepErr};
use mdb_base::{Memory, SiteId, Tid};
use presumptions::Participants;
use session_report::Marks;
use session_routes::{Routes, Traffic, first_rows, line_of, protocols_of, sites_of};
use std::alloc::Global;

/// The declared sites of a scenario, by rising number.
pub fn declared_sites(alloc: Global, scenario: &Scenario) -> Result<Vec<SiteId>, Memory>
    ensures declared { IfOk result (λ declared. declared.items ≡ sites scenario.now) }
    ensures whole { IsScenario scenario.now }
{
    match protocols_of(alloc, scenario.sites.as_slice()) {
        Ok(protocols) => sites_of(alloc, protocols.as_slice()),
        Err(why) => Err(why),
    }
}

/// The routes of a scenario.
#[tactic(none)]
pub(crate) fn routes_of(alloc: Global, scenario: &Scenario) -> Result<Routes, Memory>
    ensures { IfOk result (λ routes. IsRouted routes scenario.now) }
{
    match declared_sites(alloc, scenario) {
        Ok(declared) => Routes::new(alloc, declared.as_slice(), scenario.transactions.as_slice()),
        Err(why) => Err(why),
    }
}

/// Sets a declared site up on its empty disk.
#[tactic(none)]
fn set_up_site<D: Disk>(
    alloc: Global,
    scenario: &Scenario,
    disk: &mut D,
    line: SiteLine,
) -> Result<LocalDbms<AnyEngine>, StepErr>
    requires told { IsTrue D.tells }
    requires empty { (D.seen disk.old).size ≡ 0 }
    requires declared { IsHomed scenario.now line }
    ensures stands { IfOk result (λ dbms. (home : Home) → home_of scenario.now line.site ≡ Some home
        → Dbms.Stands Engines.Stands D.tells dbms (D.seen disk.new) home (own_programs line.site scenario.now.transactions) []) }
    ensures untouched { IsErrOf result StepErr.Memory → (D.seen disk.new).size ≡ 0 }
    ensures broken { IsErrOf result StepErr.Disk → (home : Home) → home_of scenario.now line.site ≡ Some home
        → SomeStop (D.seen disk.new).image empty_disk (set_up_calls home) }
    ensures cause { HasCauseOf StepErr.Disk (D.seen disk.old).faults (D.seen disk.new).faults result }
{
    let Ok(items) = first_rows(alloc, scenario.items.as_slice(), line.site) else {
        return Err(StepErr::Memory);
    };
    let Ok(engine) = AnyEngine::new(alloc, line.engine, &items) else {
        return Err(StepErr::Memory);
    };
    LocalDbms::set_up(
        alloc,
        disk,
        line,
        items,
        engine,
        scenario.transactions.as_slice(),
    )
}

/// Sets the declared sites up on their disks, by rising site.
#[tactic(none)]
fn set_up_sites<D: Disk>(
    alloc: Global,
    scenario: &Scenario,
    declared: &[SiteId],
    disks: &mut Vec<D>,
) -> Result<Vec<LocalDbms<AnyEngine>>, WorldErr>
    requires told { IsTrue D.tells }
    requires declared { declared.now ≡ sites scenario.now }
    requires nine { length disks.old.items ≡ 9 }
    requires empty { AreEmpty (map D.seen disks.old.items) }
    ensures stands { IfOk result (λ cores. AreSetUp D.tells cores.items (map D.seen disks.new.items) scenario.now) }
    ensures failed { IfErr result (λ why. FailsToStart D.tells why (map D.seen disks.new.items) scenario.now) }
    ensures cause { CountsTell result (map D.seen disks.old.items) (map D.seen disks.new.items) }
    ensures count { length disks.new.items ≡ 9 }
{
    let mut cores = Vec::new(alloc);
    let Ok(()) = cores.reserve(declared.len()) else {
        return Err(WorldErr::Memory);
    };
    for site in declared {
        let Some(line) = line_of(scenario.sites.as_slice(), *site) else {
            continue;
        };
        match set_up_site(alloc, scenario, &mut disks[site.0 as usize], line) {
            Ok(core) => cores.push_reserved(core),
            Err(StepErr::Disk) => return Err(WorldErr::Disk { number: site.0 }),
            Err(StepErr::Memory) => return Err(WorldErr::Memory),
        }
    }
    Ok(cores)
}

/// The channels of these sites, in which nothing was sent.
fn new_channels(alloc: Global, sites: &[SiteId]) -> Result<Vec<Traffic>, Memory>
    ensures count { IfOk result (λ channels. length channels.items ≡ length sites.now) }
    ensures each { IfOk result (λ channels. IsNewChannel sites.now channels.items) }
{
    let mut channels = Vec::new(alloc);
    for site in sites {
        channels.reserve(1)?;
        channels.push_reserved(Traffic {
            site: *site,
            to: Vec::new(alloc),
            from: Vec::new(alloc),
        });
    }
    Ok(channels)
}

/// The marks of these sites, of which there are none.
fn new_marks(alloc: Global, sites: &[SiteId]) -> Result<Vec<Marks>, Memory>
    ensures count { IfOk result (λ marks. length marks.items ≡ length sites.now) }
    ensures each { IfOk result (λ marks. IsNewMarks sites.now marks.items) }
{
    let mut marks = Vec::new(alloc);
    for site in sites {
        marks.reserve(1)?;
        marks.push_reserved(Marks::new(alloc, *site));
    }
    Ok(marks)
}

/// The coordinator of a scenario.
#[tactic(none)]
fn new_coordinator(alloc: Global, scenario: &Scenario) -> Result<GlobalManager<AnyPolicy>, Memory>
    ensures { IfOk result (λ manager. IsNewManager manager scenario.now) }
{
    match protocols_of(alloc, scenario.sites.as_slice()) {
        Ok(protocols) => GlobalManager::new(
            alloc,
            Participants::of(protocols),
            AnyPolicy::of(scenario.conservative),
            scenario.transactions.as_slice(),
        ),
        Err(why) => Err(why),
    }
}

/// What a world begins with beside its actors: who hears of a command, and a channel and the marks of each site.
#[derive(Drop)]
struct Beginning {
    routes: Routes,
    traffic: Vec<Traffic>,
    marks: Vec<Marks>,
}

/// What the world of a scenario begins with beside its actors.
fn beginning_of(alloc: Global, scenario: &Scenario) -> Result<Beginning, Memory>
    ensures { IfOk result (λ beginning. IsBeginningOf beginning scenario.now) }
{
    let declared = declared_sites(alloc, scenario)?;
    let routes = routes_of(alloc, scenario)?;
    let traffic = new_channels(alloc, declared.as_slice())?;
    let marks = new_marks(alloc, declared.as_slice())?;
    Ok(Beginning {
        routes,
        traffic,
        marks,
    })
}

impl Beginning {
    /// The world of these actors that begins with this; where it goes on from disks, records name these attempts.
    fn into_world(
        self,
        alloc: Global,
        scenario: Scenario,
        coordinator: GlobalManager<AnyPolicy>,
        sites: Vec<LocalDbms<AnyEngine>>,
        begun: Option<Vec<Tid>>,
    ) -> World
        requires { IsBeginningOf self scenario }
        ensures { IsNewWorld result scenario coordinator sites.items begun }
    {
        let Beginning {
            routes,
            traffic,
            marks,
        } = self;
        World {
            cores: Cores {
                scenario,
                coordinator,
                sites: SiteCores::of(sites),
                marks,
            },
            routes,
            traffic,
            lines: Vec::new(alloc),
            broken: false,
            begun,
            places: Vec::new(alloc),
        }
    }
}

impl World {
    /// The world of a scenario on nine empty disks: the coordinator's is disk 0, and a site's that of its number. The sites are set up by
    /// rising number. After a refusal those before the refused one are set up; on the disk of one whose disk call failed is what some stop
    /// within its set-up leaves, and on each other disk nothing.
    pub fn new<D: Disk>(
        alloc: Global,
        scenario: Scenario,
        disks: &mut Vec<D>,
    ) -> Result<World, WorldErr>
        requires told { IsTrue D.tells }
        requires nine { length disks.old.items ≡ 9 }
        requires empty { AreEmpty (map D.seen disks.old.items) }
        ensures stands { IfOk result (λ world. Stands D.tells world (map D.seen disks.new.items) (fresh scenario) []) }
        ensures failed { IfErr result (λ why. FailsToStart D.tells why (map D.seen disks.new.items) scenario) }
        ensures cause { CountsTell result (map D.seen disks.old.items) (map D.seen disks.new.items) }
        ensures count { length disks.new.items ≡ 9 }
    {
        let Ok(declared) = declared_sites(alloc, &scenario) else {
            drop(scenario);
            return Err(WorldErr::Memory);
        };
        let Ok(beginning) = beginning_of(alloc, &scenario) else {
            drop(scenario);
            return Err(WorldErr::Memory);
        };
        let Ok(coordinator) = new_coordinator(alloc, &scenario) else {
            drop(scenario);
            drop(beginning);
            return Err(WorldErr::Memory);
        };
        match set_up_sites(alloc, &scenario, declared.as_slice(), disks) {
            Ok(sites) => Ok(beginning.into_world(alloc, scenario, coordinator, sites, None)),
            Err(why) => {
                drop(scenario);
                drop(beginning);
                drop(coordinator);
                Err(why)
            }
        }
    }

    /// The world of these actors, which goes on where records name these attempts: it has neither lines nor messages.
    pub fn resume(
        alloc: Global,
        scenario: Scenario,
        coordinator: GlobalManager<AnyPolicy>,
        sites: Vec<LocalDbms<AnyEngine>>,
        begun: Vec<Tid>,
    ) -> Result<World, Memory>
        ensures { IfOk result (λ world. IsNewWorld world scenario coordinator sites.items (Some begun)) }
    {
        match beginning_of(alloc, &scenario) {
            Ok(beginning) => {
                Ok(beginning.into_world(alloc, scenario, coordinator, sites, Some(begun)))
            }
            Err(Memory) => {
                drop(scenario);
                drop(coordinator);
                drop(sites);
                Err(Memory)
            }
        }
    }
}
