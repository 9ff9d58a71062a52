//! What was sent of the undecided attempts.
ghost use Rattle.std.specs.Prelude.{List, ◌≡◌, ◌<◌, ◌≤◌, ◌++◌, ◌&&◌, not, [], ◌∷◌, None, Some, length, map, slice_get, IfOk, OnOk};
ghost use Rattle.global_exec.specs.Firsts.{taken_out};
ghost use Rattle.indexmap.specs.IndexMap.{values};
ghost use Rattle.mdb_base.specs.declared.names.SiteTicket.{SiteTicket as TheTicket};
ghost use Rattle.ticket_graph.specs.Reach.{IsLowest, joined};
ghost use Rattle.coord_tables.specs.Attempts.{last_of};
ghost use Rattle.coord_tables.specs.Stages as spec;

use global_exec::SiteSet;
use indexmap::IndexMap;
use mdb_base::{Memory, Reply, SiteId, SiteTicket, Tid, Tx};
use std::alloc::Global;
use std::marker::Model;
use ticket_graph::Lowest;

/// An undecided attempt: the sites of its participants, whether a Take and a Prepare of it were sent, and its tickets.
#[derive(Clone, Copy)]
pub struct Stage {
    pub tid: Tid,
    pub sites: SiteSet,
    pub takes: bool,
    pub prepares: bool,
    /// The tickets that counted, by the number of the site.
    pub tickets: [Option<u64>; 9],
}

/// The undecided attempts by the numbers of their transactions, each of which has at most one.
type Staged = IndexMap<u32, Stage>;

/// The undecided attempts in the order in which they were begun, and for how many further ones there is room.
#[derive(Drop)]
pub struct Stages {
    stages: Staged,
}

impl Model for Stages {
    ghost use Rattle.indexmap.specs.IndexMap.{spare, values};
    ghost use Rattle.coord_tables.specs.Attempts.{Listing};
    ghost use Rattle.coord_tables.specs.Staged.{AreStaged};
    ghost use Rattle.coord_tables.specs.declared.stages.Stage.{Stage as TheStage};

    ghost Value = { Listing TheStage };

    ghost view = { λ s. record { listed = values s.stages; spare = spare s.stages } };

    ghost invariant = { λ s. AreStaged s.stages.entries };
}

/// The stage at this place.
fn at(stages: &Staged, place: usize) -> &Stage
    requires { place < length (values stages.now) }
    ensures { slice_get (values stages.now) place ≡ Some result.now }
{
    match stages.get_index(place) {
        Some((_, stage)) => stage,
        None => unreachable!(),
    }
}

impl Stage {
    /// An attempt of which nothing was sent yet but the first work.
    pub fn fresh(tid: Tid, sites: SiteSet) -> Stage
        ensures { result ≡ spec.fresh_stage tid sites }
    {
        Stage {
            tid,
            sites,
            takes: false,
            prepares: false,
            tickets: [None; 9],
        }
    }

    /// Notes the ticket of a reply of the attempt that counts, where it has one.
    fn note_reply(&mut self, tid: Tid, site: SiteId, reply: Reply)
        ensures { self.new ≡ spec.after_reply tid site reply self.old }
    {
        if self.tid != tid {
            return;
        }
        note_ticket(&mut self.tickets, site, reply);
    }

    /// Whether it is one of the other attempts that take their tickets.
    fn takes_beside(&self, tid: Tid) -> bool
        ensures { result ≡ (not (spec.is_of tid self.now) && self.now.takes) }
    {
        self.tid != tid && self.takes
    }

    /// Notes that these were sent too of the attempt.
    fn note_sent(&mut self, tid: Tid, takes: bool, prepares: bool)
        ensures { self.new ≡ spec.after_sending tid takes prepares self.old }
    {
        if self.tid != tid {
            return;
        }
        self.takes = self.takes || takes;
        self.prepares = self.prepares || prepares;
    }
}

/// Notes the ticket of a reply that counts, where it has one.
fn note_ticket(tickets: &mut [Option<u64>; 9], site: SiteId, reply: Reply)
    ensures { tickets.new ≡ spec.noting site reply tickets.old }
{
    if let Reply::Ticket(ticket) = reply {
        if site.0 < 9 {
            tickets[usize::from(site.0)] = Some(ticket);
        }
    }
}

/// Meets the noted tickets of an attempt.
fn meet_noted(lowest: &mut Lowest, tickets: &[Option<u64>; 9])
    ensures { (met : List TheTicket) → IsLowest lowest.old.at met → IsLowest lowest.new.at (met ++ spec.noted_below 9 tickets.now) }
{
    for place in 0..9u8 {
        if let Some(ticket) = tickets[usize::from(place)] {
            lowest.meet_one(SiteTicket {
                site: SiteId(place),
                ticket,
            });
        }
    }
}

/// The least ticket at each site of those that are noted.
fn lowest_of(stages: &Staged) -> Lowest
    ensures { IsLowest result.at (joined (map spec.stage_tickets (values stages.now))) }
{
    let mut lowest = Lowest::new();
    for place in 0..stages.len() {
        meet_noted(&mut lowest, &at(stages, place).tickets);
    }
    lowest
}

/// The sites of each other attempt that takes its tickets.
fn others_of(alloc: Global, stages: &Staged, tid: Tid) -> Result<Vec<SiteSet>, Memory>
    ensures { IfOk result (λ others. others.items ≡ map (λ stage. stage.sites) (spec.others_taking tid (values stages.now))) }
{
    let mut others = Vec::new(alloc);
    for place in 0..stages.len() {
        let stage = at(stages, place);
        if stage.takes_beside(tid) {
            others.push(stage.sites)?;
        }
    }
    Ok(others)
}

impl Stages {
    /// No attempt.
    pub fn new(alloc: Global) -> Stages
        ensures { result.listed ≡ [] }
    {
        Stages {
            stages: IndexMap::new(alloc),
        }
    }

    /// Makes room for one further attempt.
    pub fn reserve(&mut self) -> Result<(), Memory>
        ensures room { OnOk result (1 ≤ self.new.spare) }
        ensures listed { self.new.listed ≡ self.old.listed }
    {
        self.stages.reserve(1)?;
        Ok(())
    }

    /// Adds an attempt, for which there is room, of a transaction that has none.
    pub fn add(&mut self, stage: Stage)
        requires room { 1 ≤ self.old.spare }
        requires idle { last_of stage.tid.tx (map (λ stage. stage.tid) self.old.listed) ≡ None }
        ensures { self.new.listed ≡ self.old.listed ++ stage ∷ [] }
    {
        match self.stages.insert(stage.tid.tx.0, stage) {
            Ok(_) => {}
            Err(_) => unreachable!(),
        }
    }

    /// Takes all attempts out.
    pub fn clear(&mut self)
        ensures { self.new.listed ≡ [] }
    {
        self.stages.clear();
    }

    /// The stage of the attempt.
    pub fn stage_of(&self, tid: Tid) -> Option<Stage>
        ensures { result ≡ spec.stage_of tid self.now.listed }
    {
        match self.stages.get(&tid.tx.0) {
            Some(stage) => { if stage.tid == tid { Some(*stage) } else { None } }
            None => None,
        }
    }

    /// The last attempt of the transaction.
    pub fn last_of(&self, tx: Tx) -> Option<Tid>
        ensures { result ≡ last_of tx (map (λ stage. stage.tid) self.now.listed) }
    {
        match self.stages.get(&tx.0) {
            Some(stage) => Some(stage.tid),
            None => None,
        }
    }

    /// Notes what was sent of the attempt.
    pub fn sent(&mut self, tid: Tid, takes: bool, prepares: bool)
        ensures { self.new.listed ≡ map (spec.after_sending tid takes prepares) self.old.listed }
    {
        let stage = match self.stages.get_mut(&tid.tx.0) {
            Some(stage) => stage,
            None => return,
        };
        stage.note_sent(tid, takes, prepares);
    }

    /// Notes the ticket of a reply of the attempt that counts, where it has one.
    pub fn take(&mut self, tid: Tid, site: SiteId, reply: Reply)
        ensures { self.new.listed ≡ map (spec.after_reply tid site reply) self.old.listed }
    {
        let stage = match self.stages.get_mut(&tid.tx.0) {
            Some(stage) => stage,
            None => return,
        };
        stage.note_reply(tid, site, reply);
    }

    /// The least ticket at each site of those that are noted.
    pub fn lowest(&self) -> Lowest
        ensures { IsLowest result.at (joined (map spec.stage_tickets self.now.listed)) }
    {
        lowest_of(&self.stages)
    }

    /// Takes the attempt out.
    pub fn end(&mut self, tid: Tid)
        ensures { self.new.listed ≡ taken_out (spec.is_of tid) self.old.listed }
    {
        if self.stage_of(tid).is_some() {
            let _ = self.stages.shift_remove(&tid.tx.0);
        }
    }

    /// The sites of each other attempt that takes its tickets.
    pub fn others_taking(&self, alloc: Global, tid: Tid) -> Result<Vec<SiteSet>, Memory>
        ensures { IfOk result (λ others. others.items ≡ map (λ stage. stage.sites) (spec.others_taking tid self.now.listed)) }
    {
        others_of(alloc, &self.stages, tid)
    }
}
