//! Whether attempts close no cycle.
ghost use Rattle.std.specs.Prelude.{◌≡◌, ◌↔◌, IsTrue};
ghost use Rattle.order_laws.specs.Tickets.{HasNoCycle, OneEach};
ghost use Rattle.ticket_graph.specs.Entered.{entered, tickets_of};
ghost use Rattle.ticket_graph.specs.Reach.{IsLowest};

use crate::added::Added;
use crate::lowest::Lowest;

/// The least tickets of the attempts.
fn lowest_of(attempts: &[Added]) -> Lowest
    ensures { IsLowest result.at (tickets_of attempts.now) }
{
    let mut lowest = Lowest::new();
    for attempt in attempts {
        lowest.meet(attempt.tickets());
    }
    lowest
}

/// Keeps the attempts into which an edge leads from one of them.
fn keep_entered(attempts: &mut Vec<Added>)
    ensures { attempts.new.items ≡ entered attempts.old.items }
{
    let lowest = lowest_of(attempts.as_slice());
    attempts.retain(|attempt| lowest.leads_to(attempt.tickets()));
}

/// Whether the edges of these attempts go round nowhere. Those into which none of them has an edge lie on no cycle, and are left out, again
/// and again. Where an edge leads into each one that is left, some of them lie on a cycle. With n attempts at k sites this takes at most n
/// rounds of n times k steps, and no memory.
pub fn are_cycle_free(attempts: Vec<Added>) -> bool
    requires { OneEach attempts.items }
    ensures { IsTrue result ↔ HasNoCycle attempts.items }
{
    let mut left = attempts;
    while left.len() > 0 {
        let count = left.len();
        keep_entered(&mut left);
        if left.len() == count {
            return false;
        }
    }
    true
}
