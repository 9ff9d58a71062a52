//! Where a site stands among the declared ones, and which site a local transaction is at.
ghost use Rattle.std.specs.Prelude.{◌≡◌, ◌<◌, IfOk, OnOk, length};
ghost use Rattle.mdb_base.specs.Words.{Each};
ghost use Rattle.mdb_base.specs.declared.names.Tx.{Tx as TheTx};
ghost use Rattle.record_fields.specs.Named.{IsSite};
ghost use Rattle.fed_rules.specs.declared.scenario.Scenario.{Scenario as TheScenario};
ghost use Rattle.fed_rules.specs.Scenarios.{local_site, sites};
ghost use Rattle.session_routes.specs.Routes.{AreHomes, ArePlaces, IsRouted, home_in, noted, place_in};

use fed_rules::TxLine;
use mdb_base::{Memory, SiteId, Tx};
use std::alloc::Global;

/// At the number of each local transaction its site, and at the number of each declared site its place among them, by rising site. The
/// numbers of a scenario's transactions are at most 1,024.
#[derive(Drop)]
pub struct Routes {
    pub homes: Vec<Option<SiteId>>,
    pub places: Vec<Option<usize>>,
}

/// Makes the list reach to the number of a transaction. What stands in it stays.
fn reach(homes: &mut Vec<Option<SiteId>>, tx: Tx) -> Result<(), Memory>
    ensures reached { OnOk result (tx.0 < length homes.new.items) }
    ensures same { OnOk result ((other : TheTx) → home_in homes.new.items other ≡ home_in homes.old.items other) }
{
    while homes.len() <= tx.0 as usize {
        homes.push(None)?;
    }
    Ok(())
}

/// Keeps the site of a line at its number, where its transaction is local, and else nothing.
fn note(homes: &mut Vec<Option<SiteId>>, line: &TxLine) -> Result<(), Memory>
    ensures { OnOk result ((tx : TheTx) → home_in homes.new.items tx ≡ noted line.now homes.old.items tx) }
{
    reach(homes, line.tx)?;
    homes[line.tx.0 as usize] = line.home;
    Ok(())
}

/// The sites of the local transactions of these lines, of several of one number the first.
fn homes_of(alloc: Global, lines: &[TxLine]) -> Result<Vec<Option<SiteId>>, Memory>
    ensures { IfOk result (λ homes. AreHomes lines.now homes.items) }
{
    let mut homes = Vec::new(alloc);
    let mut left = lines.len();
    while left > 0 {
        left -= 1;
        note(&mut homes, &lines[left])?;
    }
    Ok(homes)
}

/// The place of the site of this number in the list, counted from 0.
fn place_of(sites: &[SiteId], number: u8) -> Option<usize>
    ensures { result ≡ place_in sites.now (record { 0 = number }) }
{
    for (place, site) in sites.iter().enumerate() {
        if site.0 == number {
            return Some(place);
        }
    }
    None
}

/// The places of the sites 0 to 8 in the list.
fn places_of(alloc: Global, sites: &[SiteId]) -> Result<Vec<Option<usize>>, Memory>
    requires { Each IsSite sites.now }
    ensures { IfOk result (λ places. ArePlaces sites.now places.items) }
{
    let mut places = Vec::new(alloc);
    for number in 0..9u8 {
        places.push(place_of(sites, number))?;
    }
    Ok(places)
}

impl Routes {
    /// The routes among these declared sites, which rise, and these transactions.
    pub fn new(alloc: Global, sites: &[SiteId], lines: &[TxLine]) -> Result<Routes, Memory>
        requires { Each IsSite sites.now }
        ensures homes { IfOk result (λ routes. AreHomes lines.now routes.homes.items) }
        ensures places { IfOk result (λ routes. ArePlaces sites.now routes.places.items) }
    {
        let homes = homes_of(alloc, lines)?;
        let places = places_of(alloc, sites)?;
        Ok(Routes { homes, places })
    }

    /// The site of a local transaction.
    pub fn home_of(&self, tx: Tx) -> Option<SiteId>
        ensures { (scenario : TheScenario) → IsRouted self.now scenario → result ≡ local_site scenario tx }
    {
        match self.homes.get(tx.0 as usize) {
            Some(home) => *home,
            None => None,
        }
    }

    /// The place of a site among the declared ones, of which there are those of 1 to 8.
    pub fn place_of(&self, site: SiteId) -> Option<usize>
        ensures { (scenario : TheScenario) → IsRouted self.now scenario → result ≡ place_in (sites scenario) site }
    {
        match self.places.get(site.0 as usize) {
            Some(place) => *place,
            None => None,
        }
    }
}
