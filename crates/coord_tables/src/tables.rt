//! What a coordinator that is up keeps of its attempts.
ghost use Rattle.std.specs.Prelude.{List, ◌≡◌, true, cond, map, IfOk};
ghost use Rattle.mdb_base.specs.Words.{some_of};
ghost use Rattle.order_laws.specs.Tickets.{Ticketed};
ghost use Rattle.fed_rules.specs.Coord as rules;
ghost use Rattle.fed_rules.specs.CoordPast.{is_open};
ghost use Rattle.protocol_table.specs.Attempts.{IsUndecided, changed};
ghost use Rattle.protocol_table.specs.Ends.{initiate};
ghost use Rattle.ticket_graph.specs.Graph.{AreHeld, StandsFor};
ghost use Rattle.coord_tables.specs.Sending.{after_taken, initiation_of, stages_taken};
ghost use Rattle.coord_tables.specs.Stages.{after_sending, stage_tickets};
ghost use Rattle.coord_tables.specs.Tables.{AreEmpty, EachServed, SomeServed};

use crate::commit_graph::CommitGraph;
use crate::committed::Committed;
use crate::outgoing::{participants_of, some_prepare, some_take};
use crate::replies::Taken;
use crate::stages::Stages;
use fed_rules::{CoordRecord, Dues};
use global_exec::GlobalExec;
use mdb_base::{Memory, Tid};
use protocol_table::ProtocolTable;
use std::alloc::Global;

/// The attempts that the coordinator knows; of the undecided ones how far each has come and what was sent of it; and the committed ones with
/// their tickets.
#[derive(Drop)]
pub struct Tables {
    pub known: ProtocolTable,
    pub exec: GlobalExec,
    pub stages: Stages,
    pub committed: Committed,
    pub graph: CommitGraph,
}

impl Tables {
    /// The tables of no attempt.
    pub fn new(alloc: Global) -> Result<Tables, Memory>
        ensures { IfOk result AreEmpty }
    {
        let known = ProtocolTable::new(alloc)?;
        let exec = GlobalExec::new(alloc)?;
        let graph = CommitGraph::new(alloc)?;
        Ok(Tables {
            known,
            exec,
            stages: Stages::new(alloc),
            committed: Committed::new(alloc),
            graph,
        })
    }

    /// The Initiation that has to stand on the disk before these dues of an undecided attempt are sent.
    pub fn initiation(
        &self,
        alloc: Global,
        tid: Tid,
        dues: &Dues,
    ) -> Result<Option<CoordRecord>, Memory>
        requires { SomeServed self.now (λ terms past. is_open past tid ≡ true) }
        ensures { IfOk result (λ entry. EachServed self.now (λ terms past. is_open past tid ≡ true
            → entry ≡ initiation_of terms.protocols past tid dues.now)) }
    {
        if !some_prepare(dues) {
            return Ok(None);
        }
        match self.known.known(tid) {
            None => unreachable!(),
            Some(known) => {
                if !known.lacks_initiation() {
                    return Ok(None);
                }
                let participants = participants_of(alloc, &known.members)?;
                Ok(Some(CoordRecord::Initiation { tid, participants }))
            }
        }
    }

    /// Takes a reply that counts, where there is one.
    pub fn take_reply(&mut self, tid: Tid, taken: Option<Taken>)
        ensures known { self.new.known ≡ self.old.known }
        ensures exec { self.new.exec ≡ after_taken tid taken self.old.exec }
        ensures stages { self.new.stages.listed ≡ stages_taken tid taken self.old.stages.listed }
        ensures committed { self.new.committed ≡ self.old.committed }
        ensures graph { self.new.graph ≡ self.old.graph }
    {
        match taken {
            None => {}
            Some(taken) => {
                self.exec
                    .take(tid, taken.site, taken.epoch, taken.n, taken.reply);
                self.stages.take(tid, taken.site, taken.reply);
            }
        }
    }

    /// Drops from the graph what can lie on no cycle to come, by the tickets of the undecided attempts. It takes no memory.
    pub fn prune(&mut self)
        ensures tables { self.new ≡ record self.old { graph = self.new.graph } }
        ensures held { AreHeld (map stage_tickets self.old.stages.listed) self.new.graph }
        ensures stands { (all : List Ticketed) → StandsFor all self.old.graph → StandsFor all self.new.graph }
    {
        let lowest = self.stages.lowest();
        self.graph.prune_over(lowest);
    }

    /// Notes that these dues of the attempt are sent, and whether its Initiation is written before.
    pub fn sent(&mut self, tid: Tid, dues: &Dues, initiates: bool)
        requires { initiates ≡ true → IsUndecided tid self.old.known }
        ensures known { self.new.known ≡ cond initiates (changed tid initiate self.old.known) self.old.known }
        ensures stages { self.new.stages.listed ≡ map (after_sending tid (some_of rules.is_take dues.now) (some_of rules.is_prepare dues.now)) self.old.stages.listed }
        ensures exec { self.new.exec ≡ self.old.exec }
        ensures committed { self.new.committed ≡ self.old.committed }
        ensures graph { self.new.graph ≡ self.old.graph }
    {
        self.stages.sent(tid, some_take(dues), some_prepare(dues));
        if initiates {
            self.known.initiate(tid);
        }
    }
}
