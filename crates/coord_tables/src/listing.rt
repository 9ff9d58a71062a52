//! The attempts of a table, all or only the undecided ones, by rising attempt.
ghost use Rattle.std.specs.Prelude.{◌≡◌, IfOk};
ghost use Rattle.fed_rules.specs.Closing.{rising};
ghost use Rattle.coord_tables.specs.Listing.{is_listed, listed_tids};

use mdb_base::{Memory, Tid};
use protocol_table::{Known, ProtocolTable};
use std::alloc::Global;

/// Whether an attempt is listed: each one, or only the undecided ones.
fn is_listed(known: &Known, undecided: bool) -> bool
    ensures { result ≡ is_listed undecided known.now }
{
    !undecided || known.decision.is_none()
}

/// The attempts of a table, in the order of their submission, or only the undecided ones.
fn tids_of(alloc: Global, table: &ProtocolTable, undecided: bool) -> Result<Vec<Tid>, Memory>
    ensures { IfOk result (λ tids. tids.items ≡ listed_tids undecided table.now) }
{
    let mut tids = Vec::new(alloc);
    for place in 0..table.len() {
        let known = table.at(place);
        if is_listed(known, undecided) {
            tids.push(known.tid)?;
        }
    }
    Ok(tids)
}

/// The attempts of a table by rising attempt, or only the undecided ones.
pub fn rising_tids(
    alloc: Global,
    table: &ProtocolTable,
    undecided: bool,
) -> Result<Vec<Tid>, Memory>
    ensures { IfOk result (λ tids. tids.items ≡ rising (listed_tids undecided table.now)) }
{
    let mut tids = tids_of(alloc, table, undecided)?;
    tids.sort_unstable();
    Ok(tids)
}
