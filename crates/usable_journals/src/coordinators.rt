//! Whether a session may go on from the coordinator's journal.
ghost use Rattle.std.specs.Prelude.{◌↔◌, IfOk, IsTrue, reverse};
ghost use Rattle.fed_rules.specs.Usable.{IsUsableCoordinator};

use crate::awaited::are_awaited;
use crate::below::are_below;
use crate::coord_order::stand_in_order;
use crate::coord_sums::sums_fit;
use crate::cycles::close_no_cycle;
use crate::named_sites::name_declared;
use crate::rising::sums_rise;
use fed_rules::CoordRecord;
use mdb_base::Memory;
use presumptions::Participants;
use std::alloc::Global;

/// Whether the coordinator's journal is usable, where these are the sites whose disks aren't empty, with their protocols. The records stand
/// oldest first.
pub fn is_usable_coordinator(
    alloc: Global,
    protocols: &Participants,
    records: &[CoordRecord],
) -> Result<bool, Memory>
    ensures { IfOk result (λ usable. IsTrue usable ↔ IsUsableCoordinator protocols.now (reverse records.now)) }
{
    if !are_below(records) {
        return Ok(false);
    }
    if !name_declared(protocols.as_slice(), records) {
        return Ok(false);
    }
    if !sums_rise(records) {
        return Ok(false);
    }
    if !are_awaited(alloc, records)? {
        return Ok(false);
    }
    if !stand_in_order(alloc, records)? {
        return Ok(false);
    }
    if !sums_fit(alloc, protocols, records)? {
        return Ok(false);
    }
    close_no_cycle(alloc, records)
}
