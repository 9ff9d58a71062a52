//! What is found on the disks that a session left, of which all actors are down.
ghost use Rattle.left_disks.specs.Left.{LeftDisksAreAccepted, LeftDisksAreFoundAgain, LeftDisksAreUsable, LeftDisksGoOn, LeftDisksTellTheSession};

use resume_laws::sessions_go_on;

/// None of the nine disks is damaged, and none is foreign.
pub fn left_disks_are_accepted()
    ensures { LeftDisksAreAccepted }
{}

/// Whatever journals are read from the disks, they are those that the session left: of each actor the records that stand on its disk by the rules, with the
/// torn rest behind them. The site of each disk with a record is a declared one, and each declared one is found.
pub fn left_disks_tell_the_session()
    ensures { LeftDisksTellTheSession }
{}

/// Each of these journals is usable, and no transaction that the coordinator's names is local at a site.
pub fn left_disks_are_usable()
    ensures { LeftDisksAreUsable }
{}

/// So from these journals the session goes on rightly: each attempt has the outcome that it has in the session that left the disks, each site that settles
/// an attempt says it, each table at the end is that of a serial run of the programs that committed, and all is at rest.
pub fn left_disks_go_on()
    ensures { LeftDisksGoOn }
{
    sessions_go_on();
}

/// Who looks for journals on the disks finds those, unless a call of a disk fails or there is no memory.
pub fn left_disks_are_found_again()
    ensures { LeftDisksAreFoundAgain }
{
    sessions_go_on();
}
