//! What a site's journal keeps.
ghost use Rattle.disk_laws.specs.Left.{AttemptsAreOnce, DoubtsStandInOrder, EpochsStandInOrder, IsFirstOfSite, LocalsArePartedFromGlobals, LocalsStandInOrder, NumbersAreSome, NumbersDiffer, OfGoodSites, OfShortSites, OfSites, OneSetup, SitesAreBelow, SitesSumsFit, SumsAreOfSome, SumsAreWithin, TicketsStandInOrder};

/// At every front of the journal those in doubt have tickets in the order of their numbers and write no common key, and none that committed
/// with a greater number writes a key of theirs.
pub fn doubts_stand_in_order()
    ensures { OfSites DoubtsStandInOrder }
{}

/// A local commit has a greater number than each commit before it that writes one of its keys, but for what a first Checkpoint has in its rows.
pub fn local_commits_stand_in_order()
    ensures { OfSites LocalsStandInOrder }
{}

/// The numbers and tickets of a Checkpoint's doubtful ones are at most its counter and its published ticket, the tickets differ, there is an owner
/// exactly where a ticket is published, and its lists rise.
pub fn checkpoints_are_within()
    ensures within { OfSites SumsAreWithin }
    ensures of_some { OfSites SumsAreOfSome }
{}

/// A Checkpoint behind other records is the Sum of them, a first Checkpoint among these read as what it sums.
pub fn checkpoints_are_sums_of_the_site()
    ensures { OfSites SitesSumsFit }
{}

/// The first record is a Setup or a Checkpoint of this site, and no Setup stands behind it.
pub fn journals_begin_with_their_site()
    ensures first { OfSites IsFirstOfSite }
    ensures alone { OfSites OneSetup }
{}

/// The epochs of Start records and Checkpoints rise; at a Checkpoint they may also stay.
pub fn epochs_rise()
    ensures { OfSites EpochsStandInOrder }
{}

/// Each attempt has at most one Prepared and one Ended behind it, and each transaction one Local; none that has a Local has a record of a global
/// one.
pub fn attempts_are_recorded_once()
    ensures once { OfGoodSites AttemptsAreOnce }
    ensures parted { OfSites LocalsArePartedFromGlobals }
{}

/// A Prepared record has a greater ticket than each before it, and than the published one of each Checkpoint before it.
pub fn tickets_rise()
    ensures { OfSites TicketsStandInOrder }
{}

/// The numbers and tickets of Prepared and Local records, and of those that a Checkpoint has in doubt, are at least 1.
pub fn numbers_begin_at_one()
    ensures { OfSites NumbersAreSome }
{}

/// No two records of Prepared and Local ones have one serial number, nor has one that a first Checkpoint has in doubt.
pub fn numbers_differ()
    ensures { OfSites NumbersDiffer }
{}

/// In fewer lines than 2^30 numbers and tickets are from 1 to 2^62 - 1, and epochs below 2^31.
pub fn numbers_are_below()
    ensures { OfShortSites SitesAreBelow }
{}
