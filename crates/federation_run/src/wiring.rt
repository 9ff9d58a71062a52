//! The rings of a run, and the actors that are wired with them.
ghost use Rattle.std.specs.Prelude.{◌≡◌, Bool, IfOk, List, length};
ghost use Rattle.fed_rules.specs.Plans.{IsScenario};
ghost use Rattle.fed_rules.specs.Scenarios.{global_program, sites};
ghost use Rattle.journal_disk.specs.Disk.{Seen};
ghost use Rattle.fed_world.specs.FreshWorlds.{Stands};
ghost use Rattle.federation_run.specs.Wired.{AreFreshActors, AreRinged, AreWired, AreWiredActors};
ghost use Rattle.federation_run.specs.Plans.{stops_in};

use crate::scripts::script_of;
use crate::stops::stops_of;
use crate::wired::{WiredActors, WiredSite};
use any_engine::AnyEngine;
use conservative_take::AnyPolicy;
use fed_hosts::{HostEnds, Port};
use fed_rules::{Scenario, StopLine};
use fed_world::SiteCores;
use global_manager::GlobalManager;
use local_dbms::LocalDbms;
use mdb_base::{Memory, SiteId};
use scripted_link::channel;
use session_routes::{protocols_of, sites_of};
use std::alloc::Global;

/// The declared sites of a scenario, by rising number.
pub(crate) fn declared_sites(alloc: Global, scenario: &Scenario) -> Result<Vec<SiteId>, Memory>
    ensures { IfOk result (λ declared. declared.items ≡ sites scenario.now) }
{
    let protocols = protocols_of(alloc, scenario.sites.as_slice())?;
    sites_of(alloc, protocols.as_slice())
}

/// The ends of the two rings of a site, at the site and at the coordinator.
#[derive(Drop)]
pub(crate) struct Ringed {
    pub(crate) ends: HostEnds,
    pub(crate) port: Port,
}

/// The two rings of a site, to which nothing was offered.
fn ring_site(alloc: Global, scenario: &Scenario, site: SiteId) -> Result<Ringed, Memory>
    ensures { IfOk result (λ ringed. AreRinged scenario.now site ringed.ends ringed.port) }
{
    let to = channel(alloc, script_of(alloc, scenario, true, site)?)?;
    let from = channel(alloc, script_of(alloc, scenario, false, site)?)?;
    Ok(Ringed {
        ends: HostEnds {
            site,
            inlet: to.inlet,
            outlet: from.outlet,
        },
        port: Port {
            ends: HostEnds {
                site,
                inlet: from.inlet,
                outlet: to.outlet,
            },
            to: Vec::new(alloc),
        },
    })
}

/// The scripted stops of a site in their order, and the ends of its two rings, at the site and at the coordinator.
#[derive(Drop)]
struct SiteWiring {
    stops: Vec<StopLine>,
    ends: HostEnds,
    port: Port,
}

/// The scripted stops of a site, and its two rings, to which nothing was offered.
fn site_wiring_of(alloc: Global, scenario: &Scenario, site: SiteId) -> Result<SiteWiring, Memory>
    ensures stops { IfOk result (λ wiring. wiring.stops.items ≡ stops_in scenario.now site.0) }
    ensures rings { IfOk result (λ wiring. AreRinged scenario.now site wiring.ends wiring.port) }
{
    let stops = stops_of(alloc, scenario, site.0)?;
    let Ringed { ends, port } = ring_site(alloc, scenario, site)?;
    Ok(SiteWiring { stops, ends, port })
}

/// A site with its scripted stops and its ends of its rings.
#[tactic(none)]
fn wired_site(dbms: LocalDbms<AnyEngine>, stops: Vec<StopLine>, ends: HostEnds) -> WiredSite
    ensures { result ≡ record { dbms = dbms; stops = stops; ends = ends } }
{
    WiredSite { dbms, stops, ends }
}

/// The wired sites, and the coordinator's ends of their rings.
#[derive(Drop)]
struct WiredSites {
    wired_sites: Vec<WiredSite>,
    ports: Vec<Port>,
}

/// These sites with their scripted stops and their rings.
fn wire_sites(
    alloc: Global,
    scenario: &Scenario,
    sites: &[SiteId],
    cores: Vec<LocalDbms<AnyEngine>>,
) -> Result<WiredSites, Memory>
    requires { length cores.items ≡ length sites.now }
    ensures { IfOk result (λ made. AreWired scenario.now sites.now cores.items made.wired_sites.items made.ports.items) }
{
    let mut rest = cores;
    let mut wired_sites = Vec::new(alloc);
    let mut ports = Vec::new(alloc);
    for site in sites {
        let SiteWiring { stops, ends, port } = site_wiring_of(alloc, scenario, *site)?;
        let dbms = rest.remove(0);
        wired_sites.push(wired_site(dbms, stops, ends))?;
        ports.push(port)?;
    }
    Ok(WiredSites { wired_sites, ports })
}

/// The scripted stops of the coordinator, the wired sites, and the coordinator's ends of their rings.
#[derive(Drop)]
struct Wiring {
    stops: Vec<StopLine>,
    wired_sites: Vec<WiredSite>,
    ports: Vec<Port>,
}

/// The scripted stops and the rings of a run, from the sites of a world to which nothing happened yet.
fn wiring_of(alloc: Global, scenario: &Scenario, cores: SiteCores) -> Result<Wiring, Memory>
    requires { length cores.items.items ≡ length (sites scenario.now) }
    ensures stops { IfOk result (λ wiring. wiring.stops.items ≡ stops_in scenario.now 0) }
    ensures wired { IfOk result (λ wiring. AreWired scenario.now (sites scenario.now) cores.items.items wiring.wired_sites.items wiring.ports.items) }
{
    let sites = cores.items;
    let declared = declared_sites(alloc, scenario)?;
    let stops = stops_of(alloc, scenario, 0)?;
    let WiredSites { wired_sites, ports } = wire_sites(
        alloc,
        scenario,
        declared.as_slice(),
        sites,
    )?;
    Ok(Wiring {
        stops,
        wired_sites,
        ports,
    })
}

/// The wired actors of a run, from the actors of a world to which nothing happened yet.
#[tactic(none)]
pub(crate) fn wire_actors(
    alloc: Global,
    scenario: &Scenario,
    manager: GlobalManager<AnyPolicy>,
    cores: SiteCores,
) -> Result<WiredActors, Memory>
    requires { length cores.items.items ≡ length (sites scenario.now) }
    ensures { IfOk result (λ actors. (tells : Bool) (disks : List Seen) → AreFreshActors tells disks scenario.now manager cores.items.items → AreWiredActors tells disks scenario.now actors) }
{
    match wiring_of(alloc, scenario, cores) {
        Ok(
            Wiring {
                stops,
                wired_sites,
                ports,
            },
        ) => Ok(WiredActors {
            manager,
            stops,
            ports,
            wired_sites,
        }),
        Err(why) => {
            drop(manager);
            Err(why)
        }
    }
}
