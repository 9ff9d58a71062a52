//! An attempt of the graph with its tickets.
ghost use Rattle.std.specs.Prelude.{◌≡◌, IfOk};
ghost use Rattle.mdb_base.specs.declared.names.SiteTicket.{SiteTicket as TheTicket};
ghost use Rattle.mdb_base.specs.Rising.{IsRising};
ghost use Rattle.mdb_base.specs.Words.{some_of, first_where, map_some};
ghost use Rattle.order_laws.specs.Tickets.{is_above};
ghost use Rattle.ticket_graph.specs.Reach.{are_before};

use mdb_base::{Memory, SiteId, SiteTicket, Tickets, Tid};
use std::alloc::Global;
use std::marker::Model;

/// An attempt that was added, with its tickets by rising site.
#[derive(Drop)]
pub struct Added {
    pub tid: Tid,
    pub tickets: Tickets,
}

impl Model for Added {
    ghost use Rattle.order_laws.specs.Tickets.{Ticketed};

    ghost Value = { Ticketed };

    ghost view = { λ a. record { tid = a.tid; tickets = a.tickets } };
}

impl Added {
    /// The attempt with a copy of these tickets.
    pub fn of(alloc: Global, tid: Tid, tickets: &Tickets) -> Result<Added, Memory>
        ensures copy { IfOk result (λ attempt. attempt ≡ record { tid = tid; tickets = tickets.now }) }
        ensures rising { IfOk result (λ attempt. IsRising (λ (ticket : TheTicket). ticket.site.0) attempt.tickets) }
    {
        let items = Vec::from_slice(alloc, tickets.as_slice())?;
        Ok(Added {
            tid,
            tickets: Tickets::of(items),
        })
    }

    pub fn tid(&self) -> Tid
        ensures { result ≡ self.now.tid }
    {
        self.tid
    }

    /// The tickets by rising site.
    pub fn tickets(&self) -> &[SiteTicket]
        ensures items { result.now ≡ self.now.tickets }
        ensures rising { IsRising (λ (ticket : TheTicket). ticket.site.0) self.now.tickets }
    {
        self.tickets.as_slice()
    }
}

/// The first site at which the one has a smaller ticket than the other.
pub fn edge_site(from: &[SiteTicket], to: &[SiteTicket]) -> Option<SiteId>
    ensures { result ≡ map_some (λ k. k.site) (first_where (λ k. some_of (is_above k) to.now) from.now) }
{
    for ticket in from {
        if has_above(*ticket, to) {
            return Some(ticket.site);
        }
    }
    None
}

/// Whether one of the tickets is a greater one of the same site.
fn has_above(ticket: SiteTicket, others: &[SiteTicket]) -> bool
    ensures { result ≡ some_of (is_above ticket) others.now }
{
    for other in others {
        if ticket.site == other.site && ticket.ticket < other.ticket {
            return true;
        }
    }
    false
}

/// Whether an edge leads from an attempt with these tickets to one of the attempts.
pub fn leads_on(tickets: &[SiteTicket], attempts: &[Added]) -> bool
    ensures { result ≡ some_of (λ attempt. are_before tickets.now attempt.tickets) attempts.now }
{
    for attempt in attempts {
        if edge_site(tickets, attempt.tickets()).is_some() {
            return true;
        }
    }
    false
}
