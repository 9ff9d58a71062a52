//! The graph of the tickets of the added attempts.
ghost use Rattle.std.specs.Prelude.{List, ◌≡◌, ◌↔◌, [], ◌∷◌, ◌<◌, IfOk, OnOk, OnErr};
ghost use Rattle.mdb_base.specs.declared.names.SiteId.{SiteId as TheSite};
ghost use Rattle.mdb_base.specs.declared.names.SiteTicket.{SiteTicket as TheTicket};
ghost use Rattle.mdb_base.specs.declared.names.Tid.{Tid as TheTid};
ghost use Rattle.order_laws.specs.Chains.{In};
ghost use Rattle.order_laws.specs.Tickets.{Ticketed, HasNoCycle, OneEach};
ghost use Rattle.ticket_graph.specs.declared.verdict.Verdict.TheVariants as Verdicts;
ghost use Rattle.ticket_graph.specs.Graph.{attempts_after, floor_of, tids_of, AreAbove, IsAfter, IsForwards, IsPruned, IsTopological, IsVerdict, IsWith, StandsFor};
ghost use Rattle.ticket_graph.specs.Reach.{highest, joined, IsLowest};

use crate::added::Added;
use crate::find::{Finding, find};
use crate::floors::raise;
use crate::lowest::Lowest;
use crate::ordered::{insert, keep_reached};
use crate::verdict::Verdict;
use mdb_base::{Memory, SiteId, Tickets, Tid, Tids};
use std::alloc::Global;
use std::marker::Model;

/// The kept attempts with their tickets, so that no edge leads backwards, and the floor of each site. An edge leads from one to another
/// where at some site both have a ticket and the first one's is smaller. There is no cycle.
#[derive(Drop)]
pub struct TicketGraph {
    attempts: Vec<Added>,
    /// By the number of the site.
    floors: [u64; 256],
}

impl Model for TicketGraph {
    ghost use Rattle.order_laws.specs.Tickets.{OneEach};
    ghost use Rattle.ticket_graph.specs.Graph.{Graph, IsForwards};

    ghost Value = { Graph };

    ghost view = { λ g. record { kept = g.attempts.items; floors = g.floors } };

    ghost invariant = { λ g. OneEach g.attempts.items × IsForwards g.attempts.items };
}

impl TicketGraph {
    /// The graph of no attempt.
    pub fn new(alloc: Global) -> Result<TicketGraph, Memory>
        ensures kept { IfOk result (λ graph. graph.kept ≡ []) }
        ensures floor { IfOk result (λ graph. (site : TheSite) → floor_of graph site ≡ 0) }
    {
        Ok(TicketGraph {
            attempts: Vec::new(alloc),
            floors: [0; 256],
        })
    }

    /// The kept attempts in an order in which no edge leads backwards.
    pub fn kept(&self) -> &[Added]
        ensures kept { result.now ≡ self.now.kept }
        ensures apart { OneEach self.now.kept }
        ensures forwards { IsForwards self.now.kept }
    {
        self.attempts.as_slice()
    }

    /// The greatest ticket of a dropped attempt at the site, or 0.
    pub fn floor(&self, site: SiteId) -> u64
        ensures { result ≡ floor_of self.now site }
    {
        self.floors[usize::from(site.0)]
    }

    /// Adds an attempt that isn't kept yet and whose tickets are at least the floors, unless this closes a cycle. Then a shortest cycle
    /// through it is named, found from it with sites and then tickets rising, and the graph stays as it was. The answer is the one for
    /// each list of attempts that the graph stands for. With n kept attempts at k sites this takes about n times k steps, each of them
    /// logarithmic. Without memory the graph stays as it was.
    pub fn try_add(&mut self, alloc: Global, tid: Tid, tickets: &Tickets) -> Result<Verdict, Memory>
        requires new { In tid (tids_of self.old.kept) → ⊥ }
        requires above { AreAbove (floor_of self.old) tickets.now }
        ensures verdict { IfOk result (IsVerdict self.old.kept (record { tid = tid; tickets = tickets.now })) }
        ensures over_all { IfOk result (λ verdict. (all : List Ticketed) → StandsFor all self.old → OneEach (record { tid = tid; tickets = tickets.now } ∷ all) → IsVerdict all (record { tid = tid; tickets = tickets.now }) verdict) }
        ensures graph { IfOk result (λ verdict. IsAfter self.old (record { tid = tid; tickets = tickets.now }) verdict self.new) }
        ensures stands { IfOk result (λ verdict. (all : List Ticketed) → StandsFor all self.old → StandsFor (attempts_after all (record { tid = tid; tickets = tickets.now }) verdict) self.new) }
        ensures apart { IfOk result (λ verdict. OneEach self.new.kept) }
        ensures memory { OnErr result (self.new ≡ self.old) }
    {
        let attempt = Added::of(alloc, tid, tickets)?;
        match find(alloc, self.attempts.as_slice(), &attempt)? {
            Finding::Cycle(edges) => Ok(Verdict::Cycle(edges)),
            Finding::Reached(_) => {
                self.keep(alloc, attempt)?;
                Ok(Verdict::Added)
            }
        }
    }

    /// Keeps an attempt through which no cycle leads. Without memory the graph stays as it was.
    fn keep(&mut self, alloc: Global, attempt: Added) -> Result<(), Memory>
        requires new { In attempt.tid (tids_of self.old.kept) → ⊥ }
        requires no_cycle { IsVerdict self.old.kept attempt Verdicts.Added }
        ensures kept { OnOk result (IsWith attempt self.old self.new) }
        ensures apart { OnOk result (OneEach self.new.kept) }
        ensures memory { OnErr result (self.new ≡ self.old) }
    {
        insert(alloc, &mut self.attempts, attempt)?;
        Ok(())
    }

    /// Drops, until none is left, a kept attempt into which no other kept one has an edge and than which no waiting one has a smaller
    /// ticket at a common site: it can lie on no cycle to come. What the graph stands for stays. With n kept attempts and w waiting ones
    /// at k sites this takes about n + w times k steps.
    pub fn prune(&mut self, waiting: &[Tickets])
        ensures pruned { IsPruned waiting.now self.old self.new }
        ensures stands { (all : List Ticketed) → StandsFor all self.old → StandsFor all self.new }
    {
        let mut lowest = Lowest::new();
        lowest.meet_all(waiting);
        self.prune_over(lowest);
    }

    /// The same for waiting attempts of which the least tickets are known. It takes no memory.
    pub fn prune_over(&mut self, lowest: Lowest)
        requires { (met : List TheTicket) × IsLowest lowest.at met }
        ensures pruned { (waiting : List (List TheTicket)) → IsLowest lowest.at (joined waiting) → IsPruned waiting self.old self.new }
        ensures stands { (waiting : List (List TheTicket)) → IsLowest lowest.at (joined waiting) → (all : List Ticketed) → StandsFor all self.old → StandsFor all self.new }
    {
        keep_reached(&mut self.attempts, &mut self.floors, lowest);
    }

    /// Makes the graph anew from attempts that have no cycle: it keeps each of them, and the floors are 0. With n attempts at k sites this
    /// takes about n times n times k steps. Without memory the graph stays as it was.
    pub fn restore(&mut self, alloc: Global, commits: Vec<Added>) -> Result<(), Memory>
        requires apart { OneEach commits.items }
        requires no_cycle { HasNoCycle commits.items }
        ensures kept { OnOk result ((a : Ticketed) → In a self.new.kept ↔ In a commits.items) }
        ensures floor { OnOk result ((site : TheSite) → floor_of self.new site ≡ 0) }
        ensures stands { OnOk result (StandsFor commits.items self.new) }
        ensures memory { OnErr result (self.new ≡ self.old) }
    {
        let mut graph = TicketGraph::new(alloc)?;
        for commit in commits {
            graph.keep(alloc, commit)?;
        }
        *self = graph;
        Ok(())
    }

    /// Makes a graph that keeps no attempt stand for one more, which is dropped at once: as at a restart, when nobody waits.
    pub fn forget(&mut self, tickets: &Tickets)
        requires { self.old.kept ≡ [] }
        ensures kept { self.new.kept ≡ [] }
        ensures floor { (site : TheSite) → floor_of self.new site ≡ highest site (floor_of self.old site) tickets.now }
        ensures stands { (all : List Ticketed) (tid : TheTid) → StandsFor all self.old → StandsFor (record { tid = tid; tickets = tickets.now } ∷ all) self.new }
    {
        raise(&mut self.floors, tickets.as_slice());
    }

    /// The kept attempts in an order in which no edge leads backwards.
    pub fn order(&self, alloc: Global) -> Result<Tids, Memory>
        ensures { IfOk result (IsTopological self.now.kept) }
    {
        let mut order = Vec::new(alloc);
        for attempt in &self.attempts {
            order.push(attempt.tid())?;
        }
        Ok(Tids::of(order))
    }
}
