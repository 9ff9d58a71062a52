//! The search for a cycle through an attempt that is to be added.
ghost use Rattle.std.specs.Prelude.{ℕ, ◌≡◌, ◌<◌, true, [], ◌∷◌, Some, length, slice_get, IfSome, IfNone, IfOk, OnOk};
ghost use Rattle.std.specs.BTreeSet.{contains};
ghost use Rattle.mdb_base.specs.Words.{Each};
ghost use Rattle.ticket_graph.specs.declared.entries.Entry.{Entry as TheEntry};
ghost use Rattle.ticket_graph.specs.Entries.{entry_cmp, is_entry};
ghost use Rattle.ticket_graph.specs.Steps.{is_reached, IsAbove, IsDone, Follows, Meets, Reaches};

use crate::added::Added;
use crate::entries::{Entry, entries_of};
use crate::steps::Step;
use mdb_base::{Memory, SiteTicket};
use std::alloc::Global;
use std::collections::BTreeSet;
use std::ops::Bound;

/// What the search has reached so far.
#[derive(Drop)]
pub struct Search {
    /// The tickets that no edge has led to yet.
    pub unmet: BTreeSet<Entry>,
    /// Whether a step goes to the attempt at a place.
    pub seen: Vec<bool>,
    /// A step to each attempt that was reached, in the order of reaching.
    pub steps: Vec<Step>,
    ghost seen_reached: { (place : ℕ) → slice_get seen.items place ≡ Some true → is_reached steps.items place ≡ true },
    ghost within: { (e : TheEntry) → contains entry_cmp unmet e ≡ true → e.attempt < length seen.items },
}

impl Search {
    /// A search that has reached nothing.
    pub fn new(alloc: Global, attempts: &[Added]) -> Result<Search, Memory>
        ensures unmet { IfOk result (λ search. (e : TheEntry) → contains entry_cmp search.unmet e ≡ is_entry attempts.now e) }
        ensures steps { IfOk result (λ search. search.steps.items ≡ []) }
    {
        let unmet = entries_of(alloc, attempts)?;
        let seen = vec![in alloc; false; attempts.len()]?;
        Ok(Search {
            unmet,
            seen,
            steps: Vec::new(alloc),
        })
    }

    /// The least unmet entry above the ticket.
    fn next_above(&self, ticket: SiteTicket) -> Option<Entry>
        ensures unmet { IfSome result (λ entry. contains entry_cmp self.now.unmet entry ≡ true) }
        ensures above { IfSome result (λ entry. IsAbove ticket entry) }
        ensures done { IfNone result (IsDone self.now.unmet ticket) }
    {
        let start = Entry {
            site: ticket.site,
            ticket: ticket.ticket,
            attempt: usize::MAX,
        };
        match self
            .unmet
            .range((Bound::Excluded(start), Bound::Unbounded))
            .next()
        {
            Some(entry) if entry.site == ticket.site => Some(*entry),
            _ => None,
        }
    }

    /// Reaches the entry's attempt.
    fn reach(&mut self, entry: Entry, from: Option<usize>) -> Result<(), Memory>
        requires { entry.attempt < length self.old.seen.items }
        ensures same { self.new.unmet ≡ self.old.unmet }
        ensures reaches { OnOk result (Reaches entry from self.old.steps.items self.new.steps.items) }
    {
        if self.seen[entry.attempt] {
            return Ok(());
        }
        self.steps.push(Step {
            attempt: entry.attempt,
            site: entry.site,
            from,
        })?;
        self.seen[entry.attempt] = true;
        Ok(())
    }

    /// Meets an entry, and reaches its attempt.
    fn meet(&mut self, entry: Entry, from: Option<usize>) -> Result<(), Memory>
        requires { contains entry_cmp self.old.unmet entry ≡ true }
        ensures meets { OnOk result (Meets entry self.old.unmet self.new.unmet) }
        ensures reaches { OnOk result (Reaches entry from self.old.steps.items self.new.steps.items) }
    {
        self.reach(entry, from)?;
        self.unmet.remove(&entry);
        Ok(())
    }

    /// Goes from an attempt along its edges at one site, by rising tickets.
    fn follow_ticket(&mut self, ticket: SiteTicket, from: Option<usize>) -> Result<(), Memory>
        ensures follows { OnOk result (Follows from (ticket ∷ []) self.old.unmet self.old.steps.items self.new.unmet self.new.steps.items) }
        ensures done { OnOk result (IsDone self.new.unmet ticket) }
    {
        while let Some(entry) = self.next_above(ticket) {
            self.meet(entry, from)?;
        }
        Ok(())
    }

    /// Goes from an attempt with these tickets along all its edges, by rising sites and then tickets.
    pub fn follow(&mut self, tickets: &[SiteTicket], from: Option<usize>) -> Result<(), Memory>
        ensures follows { OnOk result (Follows from tickets.now self.old.unmet self.old.steps.items self.new.unmet self.new.steps.items) }
        ensures done { OnOk result (Each (IsDone self.new.unmet) tickets.now) }
    {
        for ticket in tickets {
            self.follow_ticket(*ticket, from)?;
        }
        Ok(())
    }
}
