//! Whether an attempt may be committed beside the committed ones.
ghost use Rattle.std.specs.Prelude.{◌≡◌, IfOk, OnErr};
ghost use Rattle.fed_rules.specs.CoordPast.{records};
ghost use Rattle.fed_rules.specs.CoordRecords.{commits};
ghost use Rattle.ticket_graph.specs.Graph.{IsVerdict, StandsFor, attempts_after};
ghost use Rattle.coord_core.specs.Stands.{Stands};
ghost use Rattle.coord_core.specs.Steps.{EachPast, SomePast};
ghost use Rattle.coord_tables.specs.Voting.{IsFresh, IsKeptAt};

use crate::coord::CoordCore;
use actor_store::Standing;
use coord_tables::tickets_of;
use global_exec::TakePolicy;
use journal_disk::Disk;
use journal_sums::read_coord_sum;
use mdb_base::{Memory, Tickets, Tid};
use std::alloc::Global;
use ticket_graph::Verdict;

impl<P: TakePolicy> CoordCore<P> {
    /// Adds an attempt's tickets to the graph, unless a cycle of the committed attempts and this one would go through it: then one that
    /// does is named, and the core stays as it was, as it does without memory. Where one of its tickets lies below what was dropped, the
    /// graph is made anew from all Commit records.
    pub(crate) fn try_tickets<D: Disk>(
        &mut self,
        alloc: Global,
        disk: &D,
        tid: Tid,
        tickets: &Tickets,
    ) -> Result<Verdict, Memory>
        requires up { self.old.store.standing ≡ Standing.Up }
        requires may { SomePast (Stands P.policy D.tells self.old (D.seen disk.now)) (IsFresh tid tickets.now) }
        ensures verdict { IfOk result (λ verdict. EachPast (Stands P.policy D.tells self.old (D.seen disk.now))
            (λ terms past. IsFresh tid tickets.now terms past → IsVerdict (commits (records past)) (record { tid = tid; tickets = tickets.now }) verdict)) }
        ensures stands { IfOk result (λ verdict. EachPast (Stands P.policy D.tells self.old (D.seen disk.now))
            (λ terms past. IsFresh tid tickets.now terms past → StandsFor (attempts_after (commits (records past)) (record { tid = tid; tickets = tickets.now }) verdict) self.new.tables.graph)) }
        ensures refused { IfOk result (λ verdict. IsKeptAt verdict self.old.tables.graph self.new.tables.graph) }
        ensures others { self.new ≡ record self.old { tables = record self.old.tables { graph = self.new.tables.graph } } }
        ensures memory { OnErr result (self.new ≡ self.old) }
    {
        if self.tables.graph.is_above(tickets) {
            return self.tables.graph.try_add(alloc, tid, tickets);
        }
        let sum = read_coord_sum(alloc, &self.protocols, self.store.records())?;
        let commits = tickets_of(alloc, &sum.committed)?;
        self.tables.graph.try_anew(alloc, commits, tid, tickets)
    }
}
