//! Who has taken the ticket.
ghost use Rattle.std.specs.Prelude.{◌≡◌, cond, Some, None, is_some, OnOk, OnErr, IfOk, IfSome, IfNone};
ghost use Rattle.std.specs.FinMap.{empty, get, remove};
ghost use Rattle.fed_rules.specs.Runs.{has_ticket};
ghost use Rattle.fed_rules.specs.Replies.{age_of};
ghost use Rattle.run_book.specs.Rivals.{rival_by};
ghost use Rattle.run_book.specs.Takers.{no_takers, with_taker, restored_takers, without_taker, committed_taker, IsYoungestOf};
ghost use Rattle.run_book.specs.Stops.{IsTicketStop};

use crate::held_run::HeldRun;
use crate::key_ages::{above, below, late_or_wait, younger_of};
use crate::rival::Rival;
use fed_rules::Kept;
use mdb_base::{Memory, Reply, Tid};
use std::alloc::Global;
use std::collections::BTreeMap;
use std::marker::Model;

/// Who has taken the ticket: the unended runs by their ages, the one of them that isn't sealed, and the youngest committed one. Each
/// call takes time by the logarithm of the unended takers. Memory is taken by `enter` alone, before the ticket is given.
#[derive(Drop)]
pub struct TicketAges {
    unended: BTreeMap<u64, Tid>,
    live: Option<Rival>,
    committed: Option<Rival>,
}

impl Model for TicketAges {
    ghost use Rattle.std.specs.FinMap.{from_entries};
    ghost use Rattle.run_book.specs.Takers.{Takers, takers_code};

    ghost Value = { Takers };

    ghost coded = { takers_code };

    ghost view = { λ t. record { unended = from_entries t.unended.entries; live = t.live; committed = t.committed } };
}

impl TicketAges {
    /// Nobody has taken the ticket.
    pub fn new(alloc: Global) -> Self
        ensures { result ≡ no_takers }
    {
        TicketAges {
            unended: BTreeMap::new(alloc),
            live: None,
            committed: None,
        }
    }

    /// What a restart finds: the transactions in doubt have taken it, each by its serial number, and all of them are sealed.
    pub fn restored(alloc: Global, doubtful: &[Kept]) -> Result<Self, Memory>
        ensures { IfOk result (λ takers. takers ≡ record no_takers { unended = restored_takers doubtful.now empty }) }
    {
        let mut takers = TicketAges::new(alloc);
        for kept in doubtful {
            takers.enter(Rival {
                tid: kept.tid,
                rank: kept.number,
            })?;
        }
        Ok(takers)
    }

    /// The youngest unended taker.
    fn youngest(&self) -> Option<Rival>
        ensures { IsYoungestOf self.now.unended result }
    {
        match self.unended.last_key_value() {
            Some((age, tid)) => Some(Rival {
                tid: *tid,
                rank: *age,
            }),
            None => None,
        }
    }

    /// What stops the taking of the ticket by a run of this age, if anything.
    pub fn stop(&self, age: u64) -> Option<Reply>
        ensures { IsTicketStop self.now age result }
    {
        let youngest = younger_of(self.youngest(), self.committed);
        late_or_wait(above(age, youngest), below(age, self.live))
    }

    /// Makes a run one of the unended takers.
    pub fn enter(&mut self, run: Rival) -> Result<(), Memory>
        ensures entered { OnOk result (self.new ≡ record self.old { unended = with_taker run self.old.unended }) }
        ensures memory { OnErr result (self.new ≡ self.old) }
    {
        self.unended.insert(run.rank, run.tid)?;
        Ok(())
    }

    /// The run of this age is none of the unended takers.
    pub fn leave(&mut self, age: u64)
        ensures { self.new ≡ record self.old { unended = remove self.old.unended age } }
    {
        let _ = self.unended.remove(&age);
    }

    /// A taker holds the ticket, until it is published or the run ends.
    pub fn hold(&mut self, run: Rival)
        ensures { self.new ≡ record self.old { live = Some run } }
    {
        self.live = Some(run);
    }

    /// A ticket that is published is held no longer.
    pub fn publish(&mut self, ticket: Option<u64>)
        ensures { self.new ≡ record self.old { live = cond (is_some ticket) None self.old.live } }
    {
        if ticket.is_some() {
            self.live = None;
        }
    }

    /// Takes the publishing of a run's ticket back, where it has one: the run holds it again.
    pub fn withdraw(&mut self, run: &HeldRun)
        ensures { self.new ≡ record self.old { live = cond (has_ticket run.now.run) (Some (rival_by age_of run.now.run)) self.old.live } }
    {
        if run.ticket().is_some() {
            self.live = Some(run.by_age());
        }
    }

    /// Notes that a run committed.
    pub fn commit(&mut self, run: &HeldRun)
        ensures { self.new ≡ committed_taker run.now.run self.old }
    {
        self.abort(run);
        if run.ticket().is_some() {
            self.committed = younger_of(self.committed, Some(run.by_age()));
        }
    }

    /// Notes that a run ended otherwise.
    pub fn abort(&mut self, run: &HeldRun)
        ensures { self.new ≡ without_taker run.now.run self.old }
    {
        self.leave(run.age());
        if run.ticket().is_some() && run.sealed().is_none() {
            self.live = None;
        }
    }
}
