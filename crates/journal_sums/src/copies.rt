//! Rows and subtransactions in doubt again, in memory of their own.
ghost use Rattle.std.specs.Prelude.{◌≡◌, IfOk};
ghost use Rattle.mdb_base.specs.Rising.{IsRising};

use fed_rules::DoubtfulSum;
use mdb_base::{Memory, Puts};
use std::alloc::Global;

/// The same rows.
pub(crate) fn copy_rows(alloc: Global, rows: &Puts) -> Result<Puts, Memory>
    ensures { IfOk result (λ copy. copy ≡ rows.now) }
{
    Ok(Puts::of(Vec::from_slice(alloc, rows.as_slice())?))
}

/// The same subtransaction.
pub(crate) fn copy_held(alloc: Global, held: &DoubtfulSum) -> Result<DoubtfulSum, Memory>
    ensures { IfOk result (λ copy. copy ≡ held.now) }
{
    Ok(DoubtfulSum {
        tid: held.tid,
        epoch: held.epoch,
        number: held.number,
        ticket: held.ticket,
        writes: copy_rows(alloc, &held.writes)?,
    })
}
