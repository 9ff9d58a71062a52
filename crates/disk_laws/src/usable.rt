//! Every disk that a session leaves behind is usable.
ghost use Rattle.disk_laws.specs.Left.{CoordinatorsAreBelow, DisksAreUsable, LocalsAreNotNamed, OfShortCoordinators};
ghost use Rattle.disk_laws.specs.Named.{NamesAreRead};

/// In fewer lines than 2^30 the tickets of the committed attempts are below 2^62.
pub fn tickets_are_below()
    ensures { OfShortCoordinators CoordinatorsAreBelow }
{}

/// Every disk that a session leaves that began with empty disks and has fewer lines than 2^30 is one from which a session may go on, whatever happened,
/// so also behind every stop.
pub fn every_disk_is_usable()
    ensures { DisksAreUsable }
{}

/// No transaction with a Local on a site's disk, one that a first Checkpoint stands for included, has a record on the coordinator's disk.
pub fn locals_are_not_named()
    ensures { LocalsAreNotNamed }
{}

/// Where each Checkpoint behind other records is the Sum of them, the coordinator's records name exactly the transactions that what they are read as has
/// records of.
pub fn names_are_read()
    ensures { NamesAreRead }
{}
