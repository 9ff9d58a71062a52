//! The tickets of all attempts, by site and then by number.
ghost use Rattle.std.specs.Prelude.{◌≡◌, ◌||◌, ◌&&◌, ◌==◌, IfOk, OnOk};
ghost use Rattle.std.specs.BTreeSet.{contains};
ghost use Rattle.mdb_base.specs.Words.{some_of};
ghost use Rattle.ticket_graph.specs.declared.entries.Entry.{Entry as TheEntry};
ghost use Rattle.ticket_graph.specs.Entries.{entry_cmp, is_entry, is_ticket};

use crate::added::Added;
use mdb_base::{Memory, SiteId, SiteTicket};
use std::alloc::Global;
use std::collections::BTreeSet;

/// A ticket in the order of its site, with the place of the attempt that has it.
#[derive(Clone, Copy, Debug, PartialEq, Eq, PartialOrd, Ord)]
pub struct Entry {
    pub site: SiteId,
    pub ticket: u64,
    pub attempt: usize,
}

/// The tickets of all attempts.
pub fn entries_of(alloc: Global, attempts: &[Added]) -> Result<BTreeSet<Entry>, Memory>
    ensures { IfOk result (λ entries. (e : TheEntry) → contains entry_cmp entries e ≡ is_entry attempts.now e) }
{
    let mut entries = BTreeSet::new(alloc);
    for (place, attempt) in attempts.iter().enumerate() {
        add_entries(&mut entries, attempt.tickets(), place)?;
    }
    Ok(entries)
}

/// Adds the tickets of the attempt at this place.
fn add_entries(
    entries: &mut BTreeSet<Entry>,
    tickets: &[SiteTicket],
    place: usize,
) -> Result<(), Memory>
    ensures { OnOk result ((e : TheEntry) → contains entry_cmp entries.new e ≡ (contains entry_cmp entries.old e || ((e.attempt == place) && some_of (is_ticket e) tickets.now))) }
{
    for ticket in tickets {
        entries.insert(Entry {
            site: ticket.site,
            ticket: ticket.ticket,
            attempt: place,
        })?;
    }
    Ok(())
}
