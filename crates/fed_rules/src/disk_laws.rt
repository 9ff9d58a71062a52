//! What survives on a disk that may stop after any call (this project's profile).
ghost use Rattle.std.specs.Prelude.{◌≡◌, ◌++◌, List, ℕ};
ghost use Rattle.fed_rules.specs.CoordRecords.{coord_frame};
ghost use Rattle.fed_rules.specs.Disk.{Disk, Call, Stops, after_call, after_calls};
ghost use Rattle.fed_rules.specs.SiteRecords.{site_frame};
ghost use Rattle.fed_rules.specs.declared.records.CoordRecord.{CoordRecord};
ghost use Rattle.fed_rules.specs.declared.records.SiteRecord.{SiteRecord};
ghost use Rattle.fed_rules.specs.Durable.{IsSafe, IsSound, IsFrontOf};

/// A record whose frame, with all frames before it, lies within the synced bytes survives every call and every stop, at a site and at
/// the coordinator.
pub fn synced_records_survive()
    ensures site { (disk : Disk SiteRecord) (calls : List (Call SiteRecord)) (kept : SiteRecord) →
        IsSound site_frame disk → IsSafe site_frame disk kept → IsSafe site_frame (after_calls site_frame disk calls) kept }
    ensures coordinator { (disk : Disk CoordRecord) (calls : List (Call CoordRecord)) (kept : CoordRecord) →
        IsSound coord_frame disk → IsSafe coord_frame disk kept → IsSafe coord_frame (after_calls coord_frame disk calls) kept }
{}

/// What a stop leaves are the oldest of the records that were appended.
pub fn stops_keep_the_oldest()
    ensures site { (disk : Disk SiteRecord) (cut : ℕ) → IsFrontOf disk.records (after_call site_frame disk (Stops cut)).records }
    ensures coordinator { (disk : Disk CoordRecord) (cut : ℕ) → IsFrontOf disk.records (after_call coord_frame disk (Stops cut)).records }
{}
