//! Attempts in an order in which no edge leads backwards.
ghost use Rattle.std.specs.Prelude.{List, ◌≡◌, ◌+◌, ◌≤◌, ◌∷◌, ◌++◌, OnOk, OnErr, vec_len};
ghost use Rattle.std.specs.Vec.{vec_capacity};
ghost use Rattle.mdb_base.specs.declared.names.SiteId.{SiteId as TheSite};
ghost use Rattle.mdb_base.specs.declared.names.SiteTicket.{SiteTicket as TheTicket};
ghost use Rattle.mdb_base.specs.Rising.{IsRising};
ghost use Rattle.ticket_graph.specs.Reach.{floor_in, highest_of, reached, unreached, IsLowest};

use crate::added::{Added, leads_on};
use crate::floors::raise;
use crate::lowest::Lowest;
use mdb_base::Memory;
use std::alloc::Global;
use std::mem;

/// Drops the attempts that the tickets that were met don't lead to, and raises the floors to their tickets. The others keep their order.
pub fn keep_reached(attempts: &mut Vec<Added>, floors: &mut [u64; 256], mut lowest: Lowest)
    ensures kept { (met : List TheTicket) → IsLowest lowest.at met → attempts.new.items ≡ reached met attempts.old.items }
    ensures floors { (met : List TheTicket) → IsLowest lowest.at met → (site : TheSite) → floor_in floors.new site ≡ highest_of site (floor_in floors.old site) (unreached met attempts.old.items) }
{
    let mut kept = 0;
    for place in 0..attempts.len() {
        let tickets = attempts[place].tickets();
        if lowest.leads_to(tickets) {
            lowest.meet(tickets);
            attempts.swap(kept, place);
            kept += 1;
        } else {
            raise(floors, tickets);
        }
    }
    attempts.truncate(kept);
}

/// Parts the attempts: those that the tickets that were met lead to go behind, and the others to the front, each in their order.
fn part(attempts: Vec<Added>, front: &mut Vec<Added>, behind: &mut Vec<Added>, mut lowest: Lowest)
    requires front_room { vec_len front.old + vec_len attempts ≤ vec_capacity front.old }
    requires behind_room { vec_len behind.old + vec_len attempts ≤ vec_capacity behind.old }
    ensures front { (met : List TheTicket) → IsLowest lowest.at met → front.new.items ≡ front.old.items ++ unreached met attempts.items }
    ensures behind { (met : List TheTicket) → IsLowest lowest.at met → behind.new.items ≡ behind.old.items ++ reached met attempts.items }
    ensures room { vec_capacity front.new ≡ vec_capacity front.old }
    ensures count { vec_len front.new + vec_len behind.new ≡ vec_len front.old + vec_len behind.old + vec_len attempts }
{
    for attempt in attempts {
        if lowest.leads_to(attempt.tickets()) {
            lowest.meet(attempt.tickets());
            behind.push_reserved(attempt);
        } else {
            front.push_reserved(attempt);
        }
    }
}

/// Moves the attempts behind the others.
fn append(all: &mut Vec<Added>, more: Vec<Added>)
    requires { vec_len all.old + vec_len more ≤ vec_capacity all.old }
    ensures { all.new.items ≡ all.old.items ++ more.items }
{
    for attempt in more {
        all.push_reserved(attempt);
    }
}

/// Puts an attempt before those that it leads to, and behind the others. Without memory the attempts stay as they were.
pub fn insert(alloc: Global, attempts: &mut Vec<Added>, attempt: Added) -> Result<(), Memory>
    ensures inserted { OnOk result (attempts.new.items ≡ unreached attempt.tickets attempts.old.items ++ attempt ∷ reached attempt.tickets attempts.old.items) }
    ensures rising { OnOk result (IsRising (λ (ticket : TheTicket). ticket.site.0) attempt.tickets) }
    ensures kept { OnErr result (attempts.new.items ≡ attempts.old.items) }
{
    if !leads_on(attempt.tickets(), attempts.as_slice()) {
        attempts.push(attempt)?;
        return Ok(());
    }
    let count = attempts.len();
    let mut front = Vec::with_capacity(alloc, count + 1)?;
    let mut behind = Vec::with_capacity(alloc, count)?;
    let mut lowest = Lowest::new();
    lowest.meet(attempt.tickets());
    let old = mem::replace(attempts, Vec::new(alloc));
    part(old, &mut front, &mut behind, lowest);
    front.push_reserved(attempt);
    append(&mut front, behind);
    *attempts = front;
    Ok(())
}
