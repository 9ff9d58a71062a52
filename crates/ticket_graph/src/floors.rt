//! The floors of the sites.
ghost use Rattle.std.specs.Prelude.{◌≡◌};
ghost use Rattle.mdb_base.specs.declared.names.SiteId.{SiteId as TheSite};
ghost use Rattle.ticket_graph.specs.Reach.{floor_in, highest, raised};

use mdb_base::SiteTicket;

/// Raises the floor of the ticket's site to the ticket.
fn raise_one(floors: &mut [u64; 256], ticket: SiteTicket)
    ensures { (site : TheSite) → floor_in floors.new site ≡ raised site (floor_in floors.old site) ticket }
{
    let place = usize::from(ticket.site.0);
    if floors[place] < ticket.ticket {
        floors[place] = ticket.ticket;
    }
}

/// Raises the floors of the tickets' sites to the tickets.
pub fn raise(floors: &mut [u64; 256], tickets: &[SiteTicket])
    ensures { (site : TheSite) → floor_in floors.new site ≡ highest site (floor_in floors.old site) tickets.now }
{
    for ticket in tickets {
        raise_one(floors, *ticket);
    }
}
