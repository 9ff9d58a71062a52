//! The tickets of the committed attempts, but for those that were dropped.
ghost use Rattle.std.specs.Prelude.{List, ◌≡◌, [], ◌∷◌, true, map, IfOk, OnErr};
ghost use Rattle.mdb_base.specs.declared.names.SiteTicket.{SiteTicket as TheTicket};
ghost use Rattle.order_laws.specs.Chains.{In};
ghost use Rattle.order_laws.specs.Tickets.{HasNoCycle, OneEach, Ticketed};
ghost use Rattle.ticket_graph.specs.Graph.{AreAbove, Graph, IsForwards, IsPruned, IsVerdict, StandsFor, attempts_after, floor_of, tids_of};
ghost use Rattle.ticket_graph.specs.Reach.{IsLowest, joined};
ghost use Rattle.coord_tables.specs.Starting.{ticketed_by};
ghost use Rattle.coord_tables.specs.Voting.{IsKeptAt};

use fed_rules::CommittedAttempts;
use mdb_base::{Memory, Tickets, Tid};
use std::alloc::Global;
use std::marker::Model;
use ticket_graph::{Added, Lowest, TicketGraph, Verdict};

/// The graph of the committed attempts.
#[derive(Drop)]
pub struct CommitGraph {
    graph: TicketGraph,
}

impl Model for CommitGraph {
    ghost use Rattle.ticket_graph.specs.Graph.{Graph};

    ghost Value = { Graph };

    ghost view = { λ g. g.graph };
}

impl CommitGraph {
    /// The graph of no attempt.
    pub fn new(alloc: Global) -> Result<CommitGraph, Memory>
        ensures { IfOk result (λ graph. graph.kept ≡ []) }
    {
        let graph = TicketGraph::new(alloc)?;
        Ok(CommitGraph { graph })
    }

    /// The graph of these attempts, each of which is dropped, since no ticket waits at a start.
    pub fn dropped(alloc: Global, committed: &CommittedAttempts) -> Result<CommitGraph, Memory>
        ensures kept { IfOk result (λ graph. graph.kept ≡ []) }
        ensures stands { IfOk result (λ graph. StandsFor (map ticketed_by committed.now) graph) }
    {
        let mut graph = TicketGraph::new(alloc)?;
        for attempt in committed.as_slice() {
            graph.forget(&attempt.tickets);
        }
        Ok(CommitGraph { graph })
    }

    /// The graph itself.
    pub fn graph(&self) -> &TicketGraph
        ensures graph { result.now ≡ self.now }
        ensures forwards { IsForwards self.now.kept }
    {
        let _ = self.graph.kept();
        &self.graph
    }

    /// Whether each ticket is at least the floor of its site.
    pub fn is_above(&self, tickets: &Tickets) -> bool
        ensures { result ≡ true → AreAbove (floor_of self.now) tickets.now }
    {
        for ticket in tickets.as_slice() {
            if ticket.ticket < self.graph.floor(ticket.site) {
                return false;
            }
        }
        true
    }

    /// Adds an attempt that isn't kept yet and whose tickets are at least the floors, unless this closes a cycle. Then one through it is
    /// named, and the graph stays as it was, as it does without memory.
    pub fn try_add(&mut self, alloc: Global, tid: Tid, tickets: &Tickets) -> Result<Verdict, Memory>
        requires new { In tid (tids_of self.old.kept) → ⊥ }
        requires above { AreAbove (floor_of self.old) tickets.now }
        ensures over_all { IfOk result (λ verdict. (all : List Ticketed) → StandsFor all self.old → OneEach (record { tid = tid; tickets = tickets.now } ∷ all) → IsVerdict all (record { tid = tid; tickets = tickets.now }) verdict) }
        ensures stands { IfOk result (λ verdict. (all : List Ticketed) → StandsFor all self.old → StandsFor (attempts_after all (record { tid = tid; tickets = tickets.now }) verdict) self.new) }
        ensures refused { IfOk result (λ verdict. IsKeptAt verdict self.old self.new) }
        ensures memory { OnErr result (self.new ≡ self.old) }
    {
        self.graph.try_add(alloc, tid, tickets)
    }

    /// Makes the graph anew from attempts that have no cycle, and adds another one to it, unless this closes a cycle. Then one through it
    /// is named, and the graph stays as it was before all, as it does without memory.
    pub fn try_anew(
        &mut self,
        alloc: Global,
        commits: Vec<Added>,
        tid: Tid,
        tickets: &Tickets,
    ) -> Result<Verdict, Memory>
        requires apart { OneEach (record { tid = tid; tickets = tickets.now } ∷ commits.items) }
        requires no_cycle { HasNoCycle commits.items }
        ensures over_all { IfOk result (λ verdict. (all : List Ticketed) → ((graph : Graph) → StandsFor commits.items graph → StandsFor all graph)
            → OneEach (record { tid = tid; tickets = tickets.now } ∷ all) → IsVerdict all (record { tid = tid; tickets = tickets.now }) verdict) }
        ensures stands { IfOk result (λ verdict. (all : List Ticketed) → ((graph : Graph) → StandsFor commits.items graph → StandsFor all graph)
            → StandsFor all self.old → StandsFor (attempts_after all (record { tid = tid; tickets = tickets.now }) verdict) self.new) }
        ensures refused { IfOk result (λ verdict. IsKeptAt verdict self.old self.new) }
        ensures memory { OnErr result (self.new ≡ self.old) }
    {
        let mut graph = TicketGraph::new(alloc)?;
        graph.restore(alloc, commits)?;
        match graph.try_add(alloc, tid, tickets)? {
            Verdict::Added => {
                self.graph = graph;
                Ok(Verdict::Added)
            }
            Verdict::Cycle(edges) => Ok(Verdict::Cycle(edges)),
        }
    }

    /// Drops what can lie on no cycle to come, where the least tickets of the waiting attempts are known. It takes no memory.
    pub fn prune_over(&mut self, lowest: Lowest)
        requires { (met : List TheTicket) × IsLowest lowest.at met }
        ensures pruned { (waiting : List (List TheTicket)) → IsLowest lowest.at (joined waiting) → IsPruned waiting self.old self.new }
        ensures stands { (waiting : List (List TheTicket)) → IsLowest lowest.at (joined waiting) → (all : List Ticketed) → StandsFor all self.old → StandsFor all self.new }
    {
        self.graph.prune_over(lowest);
    }
}
