//! What a journal says.
ghost use Rattle.std.specs.Prelude.{◌≡◌, IfOk, reverse};
ghost use Rattle.fed_rules.specs.SiteRecords.{Home};
ghost use Rattle.fed_rules.specs.SiteSums.{journal_sum};
ghost use Rattle.journal_sums.specs.Journals.{IsJournal, IsJournalOf};

use crate::reading::Reading;
use fed_rules::{SiteRecord, SiteSum};
use mdb_base::Memory;
use std::alloc::Global;

/// What the records of a journal say together, the oldest first. They begin with the set-up of a site or with a Checkpoint, and a
/// Checkpoint stands for all before it.
pub fn read_sum(alloc: Global, records: &[SiteRecord]) -> Result<SiteSum, Memory>
    requires { IsJournal (reverse records.now) }
    ensures { IfOk result (λ sum. (home : Home) → IsJournalOf home (reverse records.now) → sum ≡ journal_sum home (reverse records.now)) }
{
    let Some((oldest, newer)) = records.split_first() else {
        unreachable!();
    };
    let mut reading = Reading::begin(alloc, oldest)?;
    reading.take_all(alloc, newer)?;
    reading.into_sum(alloc)
}
