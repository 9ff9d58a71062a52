//! A Checkpoint behind other records is the sum of them.
ghost use Rattle.std.specs.Prelude.{◌≡◌, ◌↔◌, IfOk, IsTrue, Some, reverse};
ghost use Rattle.fed_rules.specs.Reopened.{first_of};
ghost use Rattle.fed_rules.specs.SiteRecords.{Home};
ghost use Rattle.fed_rules.specs.Usable.{home_of_first};
ghost use Rattle.journal_sums.specs.Journals.{IsJournal, IsJournalOf};
ghost use Rattle.usable_journals.specs.SiteReads.{AllFit, Fits, HasHome, front_from};

use crate::same_sums::is_same_sum;
use fed_rules::SiteRecord;
use journal_sums::read_sum;
use mdb_base::Memory;
use std::alloc::Global;

/// Whether the next record is no Checkpoint, or says what the records of this front say.
fn fits(alloc: Global, front: &[SiteRecord], entry: &SiteRecord) -> Result<bool, Memory>
    requires { IsJournal (reverse front.now) }
    ensures { IfOk result (λ fits. (home : Home) → IsJournalOf home (reverse front.now) → IsTrue fits ↔ Fits home entry.now (reverse front.now)) }
{
    match entry {
        SiteRecord::Checkpoint(sum) => {
            let said = read_sum(alloc, front)?;
            Ok(is_same_sum(&said, sum))
        }
        _ => Ok(true),
    }
}

/// Where the front begins that the next record stands behind, if this one stands at this place: at a Checkpoint, which stands for all before it.
fn front_behind(entry: &SiteRecord, place: usize, last: usize) -> usize
    ensures { result ≡ front_from entry.now place last }
{
    match entry {
        SiteRecord::Checkpoint(_) => place,
        _ => last,
    }
}

/// Whether each Checkpoint behind other records says what they say, each older Checkpoint standing for all before it. The first record begins a
/// site's journal.
pub(crate) fn sums_fit(alloc: Global, records: &[SiteRecord]) -> Result<bool, Memory>
    requires { HasHome (reverse records.now) }
    ensures { IfOk result (λ fit. (home : Home) → home_of_first (first_of (reverse records.now)) ≡ Some home → IsTrue fit ↔ AllFit home (reverse records.now)) }
{
    let mut last = 0;
    let mut place = 1;
    while place < records.len() {
        let entry = &records[place];
        if !fits(alloc, &records[last..place], entry)? {
            return Ok(false);
        }
        last = front_behind(entry, place, last);
        place += 1;
    }
    Ok(true)
}
