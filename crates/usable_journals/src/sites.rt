//! Whether a session may go on from a site's journal.
ghost use Rattle.std.specs.Prelude.{◌↔◌, IfOk, IsTrue, reverse};
ghost use Rattle.fed_rules.specs.Usable.{IsUsableSite};
ghost use Rattle.usable_journals.specs.WellRecorded.{IsWellRecorded};

use crate::beginnings::begins_with;
use crate::checkpoints::are_within;
use crate::epochs::epochs_rise;
use crate::front_order::are_in_order;
use crate::numbers::numbers_differ;
use crate::owners::are_of_some;
use crate::parted::are_parted;
use crate::site_below::are_below;
use crate::site_once::are_recorded_once;
use crate::site_sums::sums_fit;
use crate::site_tickets::tickets_rise;
use fed_rules::SiteRecord;
use mdb_base::Memory;
use std::alloc::Global;

/// Whether the journal of the site of this number keeps all but the order of those in doubt and of what is committed, and the sums. The records
/// stand oldest first.
fn is_well_recorded(alloc: Global, number: u8, records: &[SiteRecord]) -> Result<bool, Memory>
    ensures { IfOk result (λ keeps. IsTrue keeps ↔ IsWellRecorded number (reverse records.now)) }
{
    if !begins_with(number, records) {
        return Ok(false);
    }
    if !are_below(records) {
        return Ok(false);
    }
    if !epochs_rise(records) {
        return Ok(false);
    }
    if !tickets_rise(records) {
        return Ok(false);
    }
    if !are_of_some(records) {
        return Ok(false);
    }
    if !are_within(alloc, records)? {
        return Ok(false);
    }
    if !numbers_differ(alloc, records)? {
        return Ok(false);
    }
    if !are_recorded_once(alloc, records)? {
        return Ok(false);
    }
    are_parted(alloc, records)
}

/// Whether the journal of the site of this number is usable. The records stand oldest first.
pub fn is_usable_site(alloc: Global, number: u8, records: &[SiteRecord]) -> Result<bool, Memory>
    ensures { IfOk result (λ usable. IsTrue usable ↔ IsUsableSite number (reverse records.now)) }
{
    if !is_well_recorded(alloc, number, records)? {
        return Ok(false);
    }
    if !are_in_order(alloc, records)? {
        return Ok(false);
    }
    sums_fit(alloc, records)
}
