//! What progress is possible from wherever a session stands.
ghost use Rattle.progress_laws.specs.Progress.{DoubtsEndInFour, DoubtsEndInThree, EverySessionCanFinish};

use crate::ends_add_their_own;
use closing_laws::{
    closed_sessions_rest, closing_is_bounded, finished_sessions_commit, finishing_is_bounded,
};
use commit_laws::sites_settle_the_outcome;

/// Wherever a session stands in which of each transaction without a commit a further attempt may begin, at most
/// 1,901,586 further commands leave each transaction with a commit, and the session at rest.
pub fn every_session_can_finish()
    ensures { EverySessionCanFinish }
{
    closed_sessions_rest();
    closing_is_bounded();
    finished_sessions_commit();
    finishing_is_bounded();
    ends_add_their_own();
}

/// A doubt about an attempt that the coordinator has decided, or doesn't know, is ended by three commands, once the
/// site and the coordinator are up: the site asks, the coordinator takes the inquiry, and the site is given the
/// answer. It settles by the attempt's outcome.
pub fn doubts_end_in_three()
    ensures { DoubtsEndInThree }
{
    sites_settle_the_outcome();
}

/// Any doubt is ended by four commands, once the site and the coordinator are up: where the coordinator hasn't
/// decided the attempt, it is given up first.
pub fn doubts_end_in_four()
    ensures { DoubtsEndInFour }
{
    doubts_end_in_three();
}
