//! What a coordinator's Checkpoints say, and the journals that stand on its disk.
ghost use Rattle.coord_laws.specs.CoordRestarts.{CoordJournalSaysAll};
ghost use Rattle.coord_laws.specs.Pasts.{OfPasts};
ghost use Rattle.coord_laws.specs.Sums.{AreCoordSums, CheckpointsAreCoordSums, OfCoordinators};
ghost use Rattle.fed_rules.specs.CoordSums.{coord_journal_sum, coord_sum};
ghost use Rattle.fed_rules.specs.declared.records.CoordRecord.{CoordRecord};
ghost use Rattle.presumptions.specs.declared.Participant.{Participant};
ghost use Rattle.std.specs.Prelude.{◌≡◌, List};

/// A journal of the coordinator in which each Checkpoint is the Sum of what stands before it says what all its records say.
pub fn coordinators_journals_say_all()
    ensures { (protocols : List Participant) (records : List CoordRecord) → AreCoordSums protocols records →
        coord_journal_sum protocols records ≡ coord_sum protocols records }
{}

/// In every past of the coordinator each Checkpoint is the Sum of what stands before it, also where it goes on from a journal that was found.
pub fn coordinators_checkpoints_are_sums()
    ensures all { OfCoordinators CheckpointsAreCoordSums }
    ensures going_on { OfPasts CheckpointsAreCoordSums }
{}

/// In every past of the coordinator, over all its stops, restarts and Checkpoints, the journal that stands on its disk says what all its records
/// say, those that were trimmed included, also where it goes on from a journal that was found.
pub fn coordinators_disks_say_all()
    ensures all { OfCoordinators CoordJournalSaysAll }
    ensures going_on { OfPasts CoordJournalSaysAll }
{}
