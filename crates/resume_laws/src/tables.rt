//! What a session leaves that goes on from the disks that another one left.
ghost use Rattle.fed_rules.specs.GoingOn.{SessionsGoOn};
ghost use Rattle.resume_laws.specs.Rightly.{DisksAreReadable, ReadableGoOn, SessionsRest};
ghost use Rattle.resume_laws.specs.Tables.{TablesAreSerial};

use commit_laws::inquiries_in_doubt_are_answered_the_outcome;
use federation_laws::federation_is_serializable;
use site_history::each_site_of_a_story_is_serial;

/// The tables at its end are those that a serial run of the committed programs of the other session gives.
pub fn tables_are_serial()
    ensures { TablesAreSerial }
{
    inquiries_in_doubt_are_answered_the_outcome();
    federation_is_serializable();
    each_site_of_a_story_is_serial();
}

/// From usable disks that say what the records said a session goes on rightly: its outcomes are the other one's, each site that settles an attempt says
/// them, and its tables are those of a serial run.
pub fn readable_sessions_go_on()
    ensures { ReadableGoOn }
{
    inquiries_in_doubt_are_answered_the_outcome();
    federation_is_serializable();
    each_site_of_a_story_is_serial();
}

/// Every disk that a session leaves that began with empty disks and has fewer lines than 2^30 is usable and says what its records said.
pub fn disks_are_readable()
    ensures { DisksAreReadable }
{}

/// Whatever happened in a session that began with empty disks and has fewer lines than 2^30: if only the coordinator and every declared site are down at
/// its end, no disk is foreign, and the session that goes on from them keeps each outcome, each site that settles an attempt there says its outcome, each
/// table at its end is that of a serial run of the programs that committed, and all is at rest.
pub fn sessions_go_on()
    ensures rightly { SessionsGoOn }
    ensures rest { SessionsRest }
{
    inquiries_in_doubt_are_answered_the_outcome();
    federation_is_serializable();
    each_site_of_a_story_is_serial();
}
