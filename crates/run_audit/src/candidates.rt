//! The attempt whose last vote a printed line has the coordinator take.
ghost use Rattle.std.specs.Prelude.{◌≡◌, IfOk};
ghost use Rattle.mdb_base.specs.Words.{item_at};
ghost use Rattle.fed_rules.specs.Scenarios.{protocols};
ghost use Rattle.fed_rules.specs.Story.{coord_past, happens, sent_from, story_of};
ghost use Rattle.fed_world.specs.FreshWorlds.{Recalls};
ghost use Rattle.fed_world.specs.Worlds.{EachStory};
ghost use Rattle.audit_rules.specs.Faults.{edges_of};
ghost use Rattle.audit_lines.specs.Compared.{TellsWrong};
ghost use Rattle.run_audit.specs.Candidates.{IsCandidateAt, IsCandidateOf, vote_of};

use audit_lines::{Candidate, edges_named};
use coord_laws::coordinators_disks_say_all;
use fed_rules::{Command, FromSite, Line};
use fed_world::World;
use mdb_base::{Edge, Memory, SiteId, Tid};
use std::alloc::Global;

/// A known attempt, with this vote of the site.
fn candidate_at(
    alloc: Global,
    world: &World,
    site: SiteId,
    tid: Tid,
    vote: Option<u64>,
) -> Result<Option<Candidate>, Memory>
    ensures { IfOk result (λ found. EachStory (Recalls world.now) (λ scenario commands. IsCandidateAt (protocols scenario) (coord_past (story_of scenario commands)) site tid vote found)) }
{
    match world.coordinator().core().table().known(tid) {
        Some(known) => Ok(Some(Candidate::of(alloc, known, site, vote)?)),
        None => Ok(None),
    }
}

/// The message at this place of the channel from the site.
fn message_at(world: &World, site: SiteId, place: u32) -> Option<FromSite>
    ensures { EachStory (Recalls world.now) (λ scenario commands. result ≡ item_at (sent_from site (story_of scenario commands)) place) }
{
    world.sent_from(site).get(place as usize).copied()
}

/// The vote at this place: the attempt, and its ticket where it is a yes.
fn vote_at(world: &World, site: SiteId, place: u32) -> Option<(Tid, Option<u64>)>
    ensures { EachStory (Recalls world.now) (λ scenario commands. result ≡ vote_of (item_at (sent_from site (story_of scenario commands)) place)) }
{
    match message_at(world, site, place) {
        Some(FromSite::Vote { tid, yes }) => Some((tid, yes)),
        Some(FromSite::Did { .. }) => None,
        Some(FromSite::Ack { .. }) => None,
        Some(FromSite::Inquiry { .. }) => None,
        None => None,
    }
}

/// The attempt of which a command has the coordinator take a vote, with that vote, where it is known.
fn candidate_of(alloc: Global, world: &World, command: Command) -> Result<Option<Candidate>, Memory>
    ensures { IfOk result (λ found. EachStory (Recalls world.now) (λ scenario commands. IsCandidateOf scenario (story_of scenario commands) command found)) }
{
    let Command::Take { site, place } = command else {
        return Ok(None);
    };
    match vote_at(world, site, place) {
        Some((tid, vote)) => candidate_at(alloc, world, site, tid, vote),
        None => Ok(None),
    }
}

/// Whether these edges are no cycle that may stand there, should the command be refused for a cycle.
fn are_wrong(alloc: Global, world: &World, command: Command, edges: &[Edge]) -> Result<bool, Memory>
    ensures { IfOk result (λ wrong. EachStory (Recalls world.now) (λ scenario commands.
        TellsWrong (protocols scenario) (story_of scenario commands) (happens scenario (story_of scenario commands) command) edges.now wrong)) }
{
    coordinators_disks_say_all();
    let records = world.coordinator().core().records();
    match candidate_of(alloc, world, command)? {
        Some(candidate) => Ok(!candidate.goes_round(records, edges)),
        None => Ok(true),
    }
}

/// Whether the edges that a printed line names are no cycle that may stand there, should its command be refused for a cycle.
pub(crate) fn is_wrong(alloc: Global, world: &World, printed: &Line) -> Result<bool, Memory>
    ensures { IfOk result (λ wrong. EachStory (Recalls world.now) (λ scenario commands.
        TellsWrong (protocols scenario) (story_of scenario commands) (happens scenario (story_of scenario commands) printed.now.command) (edges_of printed.now.answer) wrong)) }
{
    match edges_named(printed) {
        Some(edges) => are_wrong(alloc, world, printed.command, edges),
        None => Ok(true),
    }
}
