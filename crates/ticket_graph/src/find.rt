//! What the search finds: a cycle, or the attempts that are reached.
ghost use Rattle.std.specs.Prelude.{ℕ, ◌≡◌, ◌<◌, ◌∷◌, length, slice_get, Some, IfOk};
ghost use Rattle.std.specs.BTreeSet.{contains};
ghost use Rattle.mdb_base.specs.declared.names.Tid.{Tid as TheTid};
ghost use Rattle.order_laws.specs.Tickets.{IsCycle, OneEach};
ghost use Rattle.ticket_graph.specs.declared.steps.Step.{Step as TheStep};
ghost use Rattle.mdb_base.specs.Names.{tid_cmp};
ghost use Rattle.ticket_graph.specs.Trail.{is_reached_tid, IsAt, IsTrail, IsBack, IsFinding};

use crate::added::{Added, edge_site, leads_on};
use crate::search::Search;
use crate::steps::Step;
use mdb_base::{Edge, Edges, Memory, SiteId, Tid};
use std::alloc::Global;
use std::collections::BTreeSet;

/// A cycle through the attempt that is to be added, or the attempts that it reaches, where there is none.
#[derive(Drop)]
pub enum Finding {
    Cycle(Edges),
    Reached(BTreeSet<Tid>),
}

/// Searches along the edges from the added attempt, attempt by attempt in the order of reaching, so that the cycle is a shortest one.
/// Where none leaves it, it takes no memory.
pub fn find(alloc: Global, attempts: &[Added], added: &Added) -> Result<Finding, Memory>
    requires { OneEach attempts.now }
    ensures { IfOk result (IsFinding attempts.now added.now) }
{
    if !leads_on(added.tickets(), attempts) {
        return Ok(Finding::Reached(BTreeSet::new(alloc)));
    }
    let mut search = Search::new(alloc, attempts)?;
    search.follow(added.tickets(), None)?;
    let mut next = 0;
    while next < search.steps.len() {
        let attempt = attempt_at(attempts, search.steps.as_slice(), next);
        if let Some(back) = edge_site(attempt.tickets(), added.tickets()) {
            let edges = cycle_of(alloc, attempts, added, search.steps.as_slice(), next, back)?;
            return Ok(Finding::Cycle(edges));
        }
        search.follow(attempt.tickets(), Some(next))?;
        next += 1;
    }
    let tids = reached_tids(alloc, attempts, search.steps.as_slice())?;
    Ok(Finding::Reached(tids))
}

/// The attempt that the step at this place goes to.
fn attempt_at<'a>(attempts: &'a [Added], steps: &[Step], place: usize) -> &'a Added
    requires place { place < length steps.now }
    requires steps { (place : ℕ) (step : TheStep) → slice_get steps.now place ≡ Some step → step.attempt < length attempts.now }
    ensures { IsAt attempts.now steps.now place result.now }
{
    &attempts[steps[place].attempt]
}

/// The attempts that the steps go to.
fn reached_tids(alloc: Global, attempts: &[Added], steps: &[Step]) -> Result<BTreeSet<Tid>, Memory>
    requires { (place : ℕ) (step : TheStep) → slice_get steps.now place ≡ Some step → step.attempt < length attempts.now }
    ensures { IfOk result (λ tids. (t : TheTid) → contains tid_cmp tids t ≡ is_reached_tid attempts.now steps.now t) }
{
    let mut tids = BTreeSet::new(alloc);
    for step in steps {
        tids.insert(attempts[step.attempt].tid())?;
    }
    Ok(tids)
}

/// The cycle that goes from the added attempt by the steps up to this place, and by an edge at the site back to it.
fn cycle_of(
    alloc: Global,
    attempts: &[Added],
    added: &Added,
    steps: &[Step],
    last: usize,
    back: SiteId,
) -> Result<Edges, Memory>
    requires trail { IsTrail attempts.now added.now steps.now }
    requires back { IsBack attempts.now added.now steps.now last back }
    ensures { IfOk result (IsCycle (added.now ∷ attempts.now) added.now.tid) }
{
    let mut edges = Vec::new(alloc);
    let mut to = added.tid();
    let mut site = back;
    let mut place = Some(last);
    while let Some(at) = place {
        let step = steps[at];
        let from = attempts[step.attempt].tid();
        edges.push(Edge { from, to, site })?;
        to = from;
        site = step.site;
        place = step.from;
    }
    edges.push(Edge {
        from: added.tid(),
        to,
        site,
    })?;
    edges.reverse();
    Ok(Edges::of(edges))
}
