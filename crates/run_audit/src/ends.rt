//! Whether all is at rest.
ghost use Rattle.std.specs.Prelude.{◌≡◌, ◌&&◌, IfOk};
ghost use Rattle.mdb_base.specs.Words.{is_empty};
ghost use Rattle.fed_rules.specs.Story.{story_of};
ghost use Rattle.fed_world.specs.FreshWorlds.{Recalls};
ghost use Rattle.fed_world.specs.Worlds.{EachStory};
ghost use Rattle.audit_rules.specs.Ends as rules;
ghost use Rattle.run_audit.specs.Resting as resting;

use closing_laws::sites_begin_attempts_once;
use fed_rules::SiteLine;
use fed_world::World;
use mdb_base::{Memory, SiteId, Tid};
use site_history::stories_have_right_lines;
use std::alloc::Global;

/// Whether there are no attempts.
fn are_none(tids: &[Tid]) -> bool
    ensures { result ≡ is_empty tids.now }
{
    tids.is_empty()
}

/// Whether there are none in either list.
fn are_both_empty(live: &[Tid], doubtful: &[Tid]) -> bool
    ensures { result ≡ (is_empty live.now && is_empty doubtful.now) }
{
    are_none(live) && are_none(doubtful)
}

/// Whether the coordinator is up, no trip of it is armed, and it knows no attempt.
fn coordinator_rests(alloc: Global, world: &World) -> Result<bool, Memory>
    ensures { IfOk result (λ rest. EachStory (Recalls world.now) (λ scenario commands. rest ≡ resting.coordinator_rests scenario (story_of scenario commands))) }
{
    let core = world.coordinator().core();
    if core.is_down() {
        return Ok(false);
    }
    if core.is_armed() {
        return Ok(false);
    }
    let known = core.known_tids(alloc)?;
    Ok(are_none(known.as_slice()))
}

/// Whether a site is up, no trip of it is armed, and nothing is live or in doubt there.
fn site_rests(alloc: Global, world: &World, site: SiteId) -> Result<bool, Memory>
    ensures { IfOk result (λ rest. EachStory (Recalls world.now) (λ scenario commands. rest ≡ rules.site_rests scenario (story_of scenario commands) site)) }
{
    stories_have_right_lines();
    sites_begin_attempts_once();
    let Some(dbms) = world.site(site) else {
        return Ok(true);
    };
    let site_core = dbms.core();
    if site_core.is_down() {
        return Ok(false);
    }
    if site_core.is_armed() {
        return Ok(false);
    }
    let live = site_core.live_tids(alloc)?;
    let doubtful = site_core.doubtful_tids(alloc)?;
    Ok(are_both_empty(live.as_slice(), doubtful.as_slice()))
}

/// Whether each of these sites does.
fn sites_rest(alloc: Global, world: &World, sites: &[SiteLine]) -> Result<bool, Memory>
    ensures { IfOk result (λ rest. EachStory (Recalls world.now) (λ scenario commands. rest ≡ resting.sites_rest scenario (story_of scenario commands) sites.now)) }
{
    for line in sites {
        if !site_rests(alloc, world, line.site)? {
            return Ok(false);
        }
    }
    Ok(true)
}

/// Whether every actor is up, no trip is armed, and nothing is live, in doubt or known.
pub(crate) fn is_at_rest(alloc: Global, world: &World) -> Result<bool, Memory>
    ensures { IfOk result (λ rest. EachStory (Recalls world.now) (λ scenario commands. rest ≡ rules.rests scenario (story_of scenario commands))) }
{
    if !coordinator_rests(alloc, world)? {
        return Ok(false);
    }
    sites_rest(alloc, world, world.scenario().sites.as_slice())
}
