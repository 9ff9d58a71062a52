//! What a start of a site takes of the content of a Checkpoint: its rows, its counters and its local attempts stand there as they are.
ghost use Rattle.std.specs.Prelude.{◌≡◌, IfOk, map};
ghost use Rattle.fed_rules.specs.SiteRecords.{kept_held};
ghost use Rattle.journal_sums.specs.Starts.{doubt_held};

use fed_rules::{Doubt, DoubtfulSums, Kept};
use mdb_base::Memory;
use std::alloc::Global;

/// The subtransactions in doubt, as a site speaks of them, in the same order.
pub fn doubts_of(alloc: Global, doubtful: &DoubtfulSums) -> Result<Vec<Doubt>, Memory>
    ensures { IfOk result (λ doubts. doubts.items ≡ map doubt_held doubtful.now) }
{
    let mut doubts = Vec::with_capacity(alloc, doubtful.len())?;
    for held in doubtful.as_slice() {
        doubts.push(Doubt {
            tid: held.tid,
            epoch: held.epoch,
            ticket: held.ticket,
        })?;
    }
    Ok(doubts)
}

/// The subtransactions in doubt, as an engine is given them at a restart, in the same order. Their writes are taken over, not copied.
pub fn kept_of(alloc: Global, doubtful: DoubtfulSums) -> Result<Vec<Kept>, Memory>
    ensures { IfOk result (λ kept. kept.items ≡ map kept_held doubtful) }
{
    let mut kept = Vec::with_capacity(alloc, doubtful.len())?;
    for held in doubtful.into_items() {
        kept.push(Kept {
            tid: held.tid,
            number: held.number,
            ticket: held.ticket,
            writes: held.writes,
        })?;
    }
    Ok(kept)
}
