//! What a decision changes of the tables, and what is recorded of it.
ghost use Rattle.std.specs.Prelude.{◌≡◌, ◌&&◌, true, false, cond, map, IfOk};
ghost use Rattle.mdb_base.specs.Words.{map_some, or_else};
ghost use Rattle.fed_rules.specs.Coord.{decide_to as rules_decide_to};
ghost use Rattle.fed_rules.specs.CoordPast.{has_sent, is_open, is_prepare_of, participants};
ghost use Rattle.fed_rules.specs.CoordRecords.{class_of, has_abort};
ghost use Rattle.global_exec.specs.Firsts.{taken_out};
ghost use Rattle.global_exec.specs.Live as live;
ghost use Rattle.protocol_table.specs.Attempts.{IsUndecided, changed, known_of, without};
ghost use Rattle.protocol_table.specs.Ends.{decide, forgets_at_once};
ghost use Rattle.coord_tables.specs.Deciding.{abort_of, recorded};
ghost use Rattle.coord_tables.specs.Stages as stages;
ghost use Rattle.coord_tables.specs.Tables.{EachServed, SomeServed};

use crate::messages::decide_to;
use crate::outgoing::participants_of;
use crate::tables::Tables;
use fed_rules::{CoordRecord, Sends};
use mdb_base::{Memory, Tid};
use presumptions::{Decision, Participants};
use std::alloc::Global;

impl Tables {
    /// Whether the attempt is undecided.
    pub fn is_open(&self, tid: Tid) -> bool
        ensures { EachServed self.now (λ terms past. result ≡ is_open past tid) }
    {
        match self.known.known(tid) {
            None => false,
            Some(known) => known.decision.is_none(),
        }
    }

    /// The participants of an undecided attempt.
    pub fn members(&self, alloc: Global, tid: Tid) -> Result<Participants, Memory>
        requires { SomeServed self.now (λ terms past. is_open past tid ≡ true) }
        ensures { IfOk result (λ members. EachServed self.now (λ terms past. is_open past tid ≡ true → members ≡ participants terms.protocols past tid)) }
    {
        match self.known.known(tid) {
            None => unreachable!(),
            Some(known) => participants_of(alloc, &known.members),
        }
    }

    /// The decision to each participant of an undecided attempt.
    pub fn decisions(&self, alloc: Global, tid: Tid, decision: Decision) -> Result<Sends, Memory>
        requires { SomeServed self.now (λ terms past. is_open past tid ≡ true) }
        ensures { IfOk result (λ sends. EachServed self.now (λ terms past. is_open past tid ≡ true
            → sends ≡ rules_decide_to tid decision (participants terms.protocols past tid))) }
    {
        let members = self.members(alloc, tid)?;
        decide_to(alloc, tid, decision, &members)
    }

    /// Whether the abort of an undecided attempt is recorded: where all participants presume nothing, and a Prepare was sent.
    fn has_abort(&self, tid: Tid) -> bool
        requires { SomeServed self.now (λ terms past. is_open past tid ≡ true) }
        ensures { EachServed self.now (λ terms past. is_open past tid ≡ true
            → result ≡ (has_abort (class_of (participants terms.protocols past tid)) && has_sent (is_prepare_of tid) past)) }
    {
        let records = match self.known.known(tid) {
            None => unreachable!(),
            Some(known) => known.has_abort(),
        };
        let prepares = match self.stages.stage_of(tid) {
            None => unreachable!(),
            Some(stage) => stage.prepares,
        };
        records & prepares
    }

    /// The Abort record of an undecided attempt, where it has one.
    pub fn abort_record(&self, alloc: Global, tid: Tid) -> Result<Option<CoordRecord>, Memory>
        requires { SomeServed self.now (λ terms past. is_open past tid ≡ true) }
        ensures { IfOk result (λ entry. EachServed self.now (λ terms past. is_open past tid ≡ true → entry ≡ abort_of terms.protocols past tid)) }
    {
        if !self.has_abort(tid) {
            return Ok(None);
        }
        let participants = self.members(alloc, tid)?;
        Ok(Some(CoordRecord::Abort { tid, participants }))
    }

    /// Notes that the first record of an undecided attempt was written, where it was.
    fn record_first(&mut self, tid: Tid, first: bool)
        requires { first ≡ true → IsUndecided tid self.old.known }
        ensures { self.new ≡ record self.old { known = recorded first tid self.old.known } }
    {
        if first {
            self.known.initiate(tid);
        }
    }

    /// Decides an undecided attempt, whose first record may have been written with it, and answers whether it is forgotten at once.
    pub fn decide(&mut self, tid: Tid, decision: Decision, first: bool) -> bool
        requires { IsUndecided tid self.old.known }
        ensures forgets { result ≡ or_else (map_some (forgets_at_once decision) (known_of tid (recorded first tid self.old.known))) false }
        ensures known { self.new.known ≡ cond result (without tid (recorded first tid self.old.known)) (changed tid (decide decision) (recorded first tid self.old.known)) }
        ensures exec { self.new.exec ≡ taken_out (live.is_of tid) self.old.exec }
        ensures apart { live.AreApart (map (λ one. one.tid) self.old.exec) }
        ensures stages { self.new.stages.listed ≡ taken_out (stages.is_of tid) self.old.stages.listed }
        ensures committed { self.new.committed ≡ self.old.committed }
        ensures graph { self.new.graph ≡ self.old.graph }
    {
        let _ = self.exec.len();
        self.record_first(tid, first);
        let forgets = self.known.decide(tid, decision);
        self.exec.refuse(tid);
        self.stages.end(tid);
        forgets
    }
}
