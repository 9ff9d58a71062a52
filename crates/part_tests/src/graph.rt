//! The ticket graph.
ghost use Rattle.std.specs.Prelude.{◌≡◌};

use crate::names::{ONE, OTHER_SITE, SITE};
use mdb_base::{SiteTicket, Tickets};
use std::test::Fail;
use ticket_graph::{TicketGraph, Verdict};

const TICKET: SiteTicket = SiteTicket {
    site: SITE,
    ticket: 2,
};

// What is pruned leaves its tickets behind as the least that others may have.
#[test]
fn where_nobody_waits_nothing_is_kept(rt: HostRuntime) -> Result<(), Fail> {
    let alloc = rt.alloc();
    let tickets = Tickets::of(vec![in alloc; TICKET]?);
    let mut graph = TicketGraph::new(alloc)?;
    let verdict = graph.try_add(alloc, ONE, &tickets)?;
    assert!(rt; matches!(verdict, Verdict::Added));
    let order = graph.order(alloc)?;
    assert!(rt; order.as_slice() == [ONE].as_slice());
    graph.prune(&[]);
    assert!(rt; graph.kept().is_empty());
    assert!(rt; (graph.floor(SITE), graph.floor(OTHER_SITE)) == (2, 0));
    Ok(())
}
