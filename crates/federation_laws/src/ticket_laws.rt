//! The ticket graph over the whole story (Georgakopoulos, Rusinkiewicz, Sheth 1994).
ghost use Rattle.federation_laws.specs.Conservative.{ConservativeTicketsCloseNoCycle};
ghost use Rattle.federation_laws.specs.Edges.{TicketGraphsAreCycleFree, TicketsAreCycleFree};

use site_history::{each_site_of_a_story_is_serial, stories_have_right_lines, tickets_rise};

/// The ticket edges between committed attempts have no cycle, after any commands, stops and restarts, although attempts commit out of
/// the order of their tickets. That is so of the Commit records of every list of sites, items and transactions; in a scenario, where no
/// attempt has two Commit records, it is so of the attempts.
pub fn committed_tickets_are_cycle_free()
    ensures records { TicketsAreCycleFree }
    ensures attempts { TicketGraphsAreCycleFree }
{}

/// Where tickets are taken conservatively, beside attempts of other sites alone, no commit is refused for a cycle of the ticket graph, after
/// any commands, with losses, repeats and restarts among them.
pub fn conservative_tickets_close_no_cycle()
    ensures { ConservativeTicketsCloseNoCycle }
{
    stories_have_right_lines();
    tickets_rise();
    each_site_of_a_story_is_serial();
}
