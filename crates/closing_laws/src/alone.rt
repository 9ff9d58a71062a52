//! How a transaction is finished alone.
ghost use Rattle.closing_laws.specs.Alone.{GlobalsCommitAlone, LocalsCommitAlone};
ghost use Rattle.closing_laws.specs.Bound.{FinishingIsShort};
ghost use Rattle.closing_laws.specs.Finished.{FinishedSessionsCommit};

use fed_rules::pasts_are_made_by_events;
use site_history::{each_site_of_a_story_is_serial, stories_have_right_lines};

/// At rest, a local transaction without a commit, of which not all attempts were begun, commits when it is run alone, and the session is
/// at rest again.
pub fn locals_commit_alone()
    ensures { LocalsCommitAlone }
{
    stories_have_right_lines();
    each_site_of_a_story_is_serial();
}

/// At rest, a global transaction without a commit, of which not all attempts were begun, commits when each message of an attempt of it is
/// delivered in the order of sending, and the session is at rest again.
pub fn globals_commit_alone()
    ensures { GlobalsCommitAlone }
{
    pasts_are_made_by_events();
    stories_have_right_lines();
    each_site_of_a_story_is_serial();
}

/// Finishing each transaction without a commit alone makes at most 263,168 commands: at most 257 for each of 1,024.
pub fn finishing_is_bounded()
    ensures { FinishingIsShort }
{}

/// Behind a session at rest in which of each transaction without a commit a further attempt may begin, finishing each of them alone, by
/// rising number, leaves each transaction with a commit, and the session at rest.
pub fn finished_sessions_commit()
    ensures { FinishedSessionsCommit }
{
    stories_have_right_lines();
    locals_commit_alone();
    globals_commit_alone();
}
