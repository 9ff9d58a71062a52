//! What closing asks of the actors of a world.
ghost use Rattle.std.specs.Prelude.{◌≡◌, ◌++◌, [], is_some, IfOk, OnOk};
ghost use Rattle.fed_rules.specs.Closing as rules;
ghost use Rattle.fed_rules.specs.Closing.{actors};
ghost use Rattle.fed_rules.specs.CoordPast as Coordinator;
ghost use Rattle.fed_rules.specs.Happenings as happenings;
ghost use Rattle.fed_rules.specs.Scenarios.{home_of, sites};
ghost use Rattle.fed_rules.specs.SitePast.{is_local, trip};
ghost use Rattle.fed_rules.specs.Story.{past_of, story_in};
ghost use Rattle.closing_laws.specs.AtRest.{AllUp};
ghost use Rattle.fed_world.specs.Worlds.{EachStory, Recalls};
ghost use Rattle.closing.specs.Steps.{AreDoubtful, clearing_at, clearing_of, end_of, ending_of};

use closing_laws::sites_begin_attempts_once;
use fed_rules::{Command, Scenario};
use fed_world::World;
use mdb_base::{Memory, SiteId, Tid};
use site_history::stories_have_right_lines;
use std::alloc::Global;

/// A site with some of its attempts, by rising attempt.
#[derive(Drop)]
pub(crate) struct SiteTids {
    pub site: SiteId,
    pub tids: Vec<Tid>,
}

/// The declared sites, by rising number.
fn rising_sites(alloc: Global, scenario: &Scenario) -> Result<Vec<SiteId>, Memory>
    ensures { IfOk result (λ found. found.items ≡ sites scenario.now) }
{
    let mut found = Vec::new(alloc);
    for line in scenario.sites.as_slice() {
        found.push(line.site)?;
    }
    found.sort_unstable();
    Ok(found)
}

/// Whether a trip is armed at a site.
fn is_armed(world: &World, site: SiteId) -> bool
    ensures { EachStory (Recalls world.now) (λ session commands. result ≡ is_some (trip (past_of site (story_in session commands)))) }
{
    match world.site(site) {
        None => false,
        Some(dbms) => dbms.core().is_armed(),
    }
}

/// Whether a site is down.
fn is_stopped(world: &World, site: SiteId) -> bool
    ensures { EachStory (Recalls world.now) (λ session commands. result ≡ happenings.is_down (past_of site (story_in session commands))) }
{
    match world.site(site) {
        None => false,
        Some(dbms) => dbms.core().is_down(),
    }
}

/// The attempts that are live at a site that is up.
fn live_at(alloc: Global, world: &World, site: SiteId) -> Result<Vec<Tid>, Memory>
    ensures { IfOk result (λ tids. EachStory (Recalls world.now) (λ session commands.
        AllUp (story_in session commands) → tids.items ≡ rules.live session.plan (story_in session commands) site)) }
{
    stories_have_right_lines();
    sites_begin_attempts_once();
    match world.site(site) {
        None => Ok(Vec::new(alloc)),
        Some(dbms) => dbms.core().live_tids(alloc),
    }
}

/// The attempts that a site that is up is in doubt of.
fn doubtful_at(alloc: Global, world: &World, site: SiteId) -> Result<Vec<Tid>, Memory>
    ensures { IfOk result (λ tids. EachStory (Recalls world.now) (λ session commands.
        AllUp (story_in session commands) → tids.items ≡ rules.in_doubt_at (home_of session.plan site) (story_in session commands))) }
{
    match world.site(site) {
        None => Ok(Vec::new(alloc)),
        Some(dbms) => dbms.core().doubtful_tids(alloc),
    }
}

/// Whether the transaction of an attempt was begun as a local one at a site.
fn is_own(world: &World, site: SiteId, tid: Tid) -> bool
    ensures { EachStory (Recalls world.now) (λ session commands. result ≡ is_local (past_of site (story_in session commands)) tid) }
{
    match world.site(site) {
        None => false,
        Some(dbms) => dbms.core().begun(tid.tx) > 0,
    }
}

/// The command that ends a live attempt of a site: a local one is aborted, and another one dropped.
fn ending(site: SiteId, local: bool, tid: Tid) -> Command
    ensures { result ≡ end_of site local tid }
{
    if local {
        Command::Abort(tid.tx)
    } else {
        Command::Drop { site, tid }
    }
}

/// Appends the commands that end these live attempts of a site: the local ones are aborted, and then the others dropped.
fn clear_tids(
    world: &World,
    site: SiteId,
    tids: &[Tid],
    local: bool,
    commands: &mut Vec<Command>,
) -> Result<(), Memory>
    ensures { OnOk result (EachStory (Recalls world.now) (λ session before. commands.new.items ≡ commands.old.items ++ ending_of (is_local (past_of site (story_in session before))) site local tids.now)) }
{
    for tid in tids {
        if is_own(world, site, *tid) == local {
            commands.push(ending(site, local, *tid))?;
        }
    }
    Ok(())
}

/// Appends the commands that end what is live at a site that is up: the local attempts are aborted, and then the others dropped.
fn clear_site(
    alloc: Global,
    world: &World,
    site: SiteId,
    commands: &mut Vec<Command>,
) -> Result<(), Memory>
    ensures { OnOk result (EachStory (Recalls world.now) (λ session before.
        AllUp (story_in session before) → commands.new.items ≡ commands.old.items ++ clearing_at session.plan (story_in session before) site)) }
{
    let tids = live_at(alloc, world, site)?;
    clear_tids(world, site, &tids, true, commands)?;
    clear_tids(world, site, &tids, false, commands)
}

/// The coordinator as an actor, where it is one of those that are looked for.
fn first_actor(alloc: Global, is_one: bool) -> Result<Vec<u8>, Memory>
    ensures { IfOk result (λ found. found.items ≡ rules.one is_one 0 []) }
{
    let mut found = Vec::new(alloc);
    if is_one {
        found.push(0)?;
    }
    Ok(found)
}

/// The actors where a trip is armed, the coordinator first.
pub(crate) fn armed_actors(alloc: Global, world: &World) -> Result<Vec<u8>, Memory>
    ensures { IfOk result (λ found. EachStory (Recalls world.now) (λ session commands.
        found.items ≡ actors (λ past. is_some (Coordinator.trip past)) (λ past. is_some (trip past)) session.plan (story_in session commands))) }
{
    let armed = world.coordinator().core().is_armed();
    let mut found = first_actor(alloc, armed)?;
    let sites = rising_sites(alloc, world.scenario())?;
    for site in &sites {
        if is_armed(world, *site) {
            found.push(site.0)?;
        }
    }
    Ok(found)
}

/// The actors that are down, the coordinator first.
pub(crate) fn down_actors(alloc: Global, world: &World) -> Result<Vec<u8>, Memory>
    ensures { IfOk result (λ found. EachStory (Recalls world.now) (λ session commands.
        found.items ≡ actors (λ past. happenings.is_down past) (λ past. happenings.is_down past) session.plan (story_in session commands))) }
{
    let down = world.coordinator().core().is_down();
    let mut found = first_actor(alloc, down)?;
    let sites = rising_sites(alloc, world.scenario())?;
    for site in &sites {
        if is_stopped(world, *site) {
            found.push(site.0)?;
        }
    }
    Ok(found)
}

/// The attempts that are known without a decision, where every actor is up.
pub(crate) fn undecided(alloc: Global, world: &World) -> Result<Vec<Tid>, Memory>
    ensures { IfOk result (λ tids. EachStory (Recalls world.now) (λ session commands.
        AllUp (story_in session commands) → tids.items ≡ rules.undecided (story_in session commands))) }
{
    world.coordinator().core().undecided_tids(alloc)
}

/// The attempts that are known, where every actor is up.
pub(crate) fn known(alloc: Global, world: &World) -> Result<Vec<Tid>, Memory>
    ensures { IfOk result (λ tids. EachStory (Recalls world.now) (λ session commands.
        AllUp (story_in session commands) → tids.items ≡ rules.known session.plan (story_in session commands))) }
{
    world.coordinator().core().known_tids(alloc)
}

/// The commands that end what is live, where every actor is up: site by site, the local attempts first.
pub(crate) fn clearing(alloc: Global, world: &World) -> Result<Vec<Command>, Memory>
    ensures { IfOk result (λ commands. EachStory (Recalls world.now) (λ session before.
        AllUp (story_in session before) → commands.items ≡ clearing_of session.plan (story_in session before) (sites session.plan))) }
{
    let mut commands = Vec::new(alloc);
    let sites = rising_sites(alloc, world.scenario())?;
    for site in &sites {
        clear_site(alloc, world, *site, &mut commands)?;
    }
    Ok(commands)
}

/// The attempts that each site is in doubt of, where every actor is up.
pub(crate) fn doubtful(alloc: Global, world: &World) -> Result<Vec<SiteTids>, Memory>
    ensures { IfOk result (λ all. EachStory (Recalls world.now) (λ session commands.
        AllUp (story_in session commands) → AreDoubtful session.plan (story_in session commands) (sites session.plan) all.items)) }
{
    let mut all = Vec::new(alloc);
    let sites = rising_sites(alloc, world.scenario())?;
    for site in &sites {
        let tids = doubtful_at(alloc, world, *site)?;
        all.push(SiteTids { site: *site, tids })?;
    }
    Ok(all)
}
