//! The least tickets that were met.
ghost use Rattle.std.specs.Prelude.{List, ◌≡◌, [], ◌∷◌, ◌++◌};
ghost use Rattle.mdb_base.specs.declared.names.SiteTicket.{SiteTicket as TheTicket};
ghost use Rattle.ticket_graph.specs.Reach.{are_before, is_over, joined, IsLowest};

use mdb_base::{SiteTicket, Tickets};

/// The least ticket at each site of those that were met.
#[derive(Drop)]
pub struct Lowest {
    /// By the number of the site; 2^64 - 1, which is less than no ticket, where none was met.
    pub at: [u64; 256],
}

impl Lowest {
    /// No ticket was met.
    pub fn new() -> Lowest
        ensures { IsLowest result.at [] }
    {
        Lowest {
            at: [u64::MAX; 256],
        }
    }

    /// Meets a ticket.
    pub fn meet_one(&mut self, ticket: SiteTicket)
        ensures { (met : List TheTicket) → IsLowest self.old.at met → IsLowest self.new.at (met ++ ticket ∷ []) }
    {
        let place = usize::from(ticket.site.0);
        if ticket.ticket < self.at[place] {
            self.at[place] = ticket.ticket;
        }
    }

    /// Meets the tickets of an attempt.
    pub fn meet(&mut self, tickets: &[SiteTicket])
        ensures { (met : List TheTicket) → IsLowest self.old.at met → IsLowest self.new.at (met ++ tickets.now) }
    {
        for ticket in tickets {
            self.meet_one(*ticket);
        }
    }

    /// Meets the tickets of several attempts.
    pub fn meet_all(&mut self, waiting: &[Tickets])
        ensures { (met : List TheTicket) → IsLowest self.old.at met → IsLowest self.new.at (met ++ joined waiting.now) }
    {
        for tickets in waiting {
            self.meet(tickets.as_slice());
        }
    }

    /// Whether a smaller ticket of its site was met.
    fn is_under(&self, ticket: SiteTicket) -> bool
        ensures { (met : List TheTicket) → IsLowest self.now.at met → result ≡ is_over met ticket }
    {
        self.at[usize::from(ticket.site.0)] < ticket.ticket
    }

    /// Whether for one of the tickets a smaller one of its site was met.
    pub fn leads_to(&self, tickets: &[SiteTicket]) -> bool
        ensures { (met : List TheTicket) → IsLowest self.now.at met → result ≡ are_before met tickets.now }
    {
        for ticket in tickets {
            if self.is_under(*ticket) {
                return true;
            }
        }
        false
    }
}
