//! Epochs rise.
ghost use Rattle.std.specs.Prelude.{◌≡◌, ◌↔◌, IsTrue, [], ◌∷◌, ◌++◌, reverse};
ghost use Rattle.fed_rules.specs.declared.records.SiteRecord.{SiteRecord as TheRecord};
ghost use Rattle.fed_rules.specs.Usable.{EpochsRise};
ghost use Rattle.usable_journals.specs.SiteTests as tests;

use fed_rules::SiteRecord;

/// Whether the next record's epoch is at least 1 and rises, if it is a Start; at a Checkpoint it may also stay.
fn fits(epoch: u32, entry: &SiteRecord) -> bool
    ensures { result ≡ tests.epoch_fits epoch entry.now }
{
    match entry {
        SiteRecord::Start { epoch: next } => epoch < *next,
        SiteRecord::Checkpoint(sum) => 0 < sum.epoch && epoch <= sum.epoch,
        _ => true,
    }
}

/// The epoch after this record.
fn epoch_after(epoch: u32, entry: &SiteRecord) -> u32
    ensures { result ≡ tests.epoch_after epoch entry.now }
{
    match entry {
        SiteRecord::Start { epoch: next } => *next,
        _ => epoch,
    }
}

/// The epoch of a first record, or of a first Checkpoint.
fn first_epoch(first: &SiteRecord) -> u32
    ensures { result ≡ tests.first_epoch first.now }
{
    match first {
        SiteRecord::Start { epoch } => *epoch,
        SiteRecord::Checkpoint(sum) => sum.epoch,
        _ => 0,
    }
}

/// Whether the epochs of these records rise behind a first one of this epoch.
fn rise_from(start: u32, newer: &[SiteRecord]) -> bool
    ensures { (first : TheRecord) → start ≡ tests.first_epoch first → EpochsRise (first ∷ []) → IsTrue result ↔ EpochsRise (reverse newer.now ++ first ∷ []) }
{
    let mut epoch = start;
    for entry in newer {
        if !fits(epoch, entry) {
            return false;
        }
        epoch = epoch_after(epoch, entry);
    }
    true
}

/// Whether the epochs of Start records and Checkpoints are at least 1 and rise; at a Checkpoint they may also stay.
pub(crate) fn epochs_rise(records: &[SiteRecord]) -> bool
    ensures { IsTrue result ↔ EpochsRise (reverse records.now) }
{
    let Some((first, newer)) = records.split_first() else {
        return true;
    };
    if !fits(0, first) {
        return false;
    }
    rise_from(first_epoch(first), newer)
}
