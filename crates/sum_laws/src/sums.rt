//! What is read of the journals on all disks, in every story and where a session finds them.
ghost use Rattle.coord_laws.specs.CoordRestarts.{JournalTellsRestart};
ghost use Rattle.coord_laws.specs.FoundCoordinators.{UsableJournalsGoOn};
ghost use Rattle.coord_laws.specs.Pasts.{OfPasts};
ghost use Rattle.site_history.specs.FoundSites.{UsableSitesGoOn};
ghost use Rattle.sum_laws.specs.ReadAs.{CoordinatorsAreReadAs, SitesAreReadAs};
ghost use Rattle.sum_laws.specs.Restarts.{JournalsTellRestarts};
ghost use Rattle.sum_laws.specs.WrongReading.{ForgetsACommit};

use commit_laws::coordinators_are_made_by_events;

/// The rules of a coordinator go on from every usable journal that is found on its disk, so that its laws hold behind it. So it is of a site: some test
/// tells the local attempts of the journal from its prepared ones.
pub fn usable_journals_go_on()
    ensures coordinators { UsableJournalsGoOn }
    ensures sites { UsableSitesGoOn }
{}

/// A usable journal that is found is read as what it says, in which a Checkpoint stands for all before it. A site is down, without a trip, with the
/// journal and its torn rest on the disk, of which it kept as many records as there are; it looks back on these records behind a set-up; its epoch, those
/// in doubt, its table and what its engine starts from are what the journal says; it has begun nothing and sent nothing. The coordinator is down,
/// without a trip, with the journal and its torn rest on the disk, and has sent nothing; the outcomes, who is known after a restart, with which
/// participants, and the committed attempts with their tickets are what the journal says; and of each transaction the attempts up to the greatest
/// recorded one were begun, and no other.
pub fn journals_are_read()
    ensures sites { SitesAreReadAs }
    ensures coordinators { CoordinatorsAreReadAs }
{}

/// A restart of the coordinator reads from the journal that stands on its disk what all its records say: each attempt's outcome, which attempts are known then, with
/// the participants that their records name, and the committed attempts with their tickets. That is so in every past in which each `go` is of
/// the next attempt of its transaction, behind nothing or behind a journal that was found, and so in every story.
pub fn coordinators_disks_tell_restarts()
    ensures pasts { OfPasts JournalTellsRestart }
    ensures stories { JournalsTellRestarts }
{
    coordinators_are_made_by_events();
}

/// A restart of the coordinator that reads the records that stand on its disk, and not the Checkpoint among them, forgets a commit of some story.
pub fn wrong_reading()
    ensures { ForgetsACommit }
{}
